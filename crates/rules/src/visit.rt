// One walk of a rule's bytes, which checks the rule and shows each entry to whoever wants it: what is made
// of the entries differs, the walk does not.
ghost use Rattle.std.specs.Prelude.{◌≡◌, ℕ};
ghost use Rattle.terms.specs.Answer.{answered};
ghost use Rattle.rules.specs.Rule.{rule_answer};
ghost use Rattle.rules.specs.Entries.{entries_read, seen};
ghost use Rattle.entry.specs.declared.entry.Entry.{Entry as AnEntry};

use entry::entry::{Entry, take_entry};
use terms::limits::RULE_MOST;
use terms::refusal::{Fault, Refusal};

// Whoever sees the entries of a rule, in order.
pub trait Visitor {
    // What seeing entry n makes of the visitor.
    ghost then: { Self → ℕ → AnEntry → Self };

    // Sees entry n. Nothing is asked of n: `then` also says what a number makes of the visitor that no entry has.
    fn see(&mut self, n: usize, e: Entry)
        ensures { self.new ≡ then self.old n e };
}

// Who does not want the entries.
impl Visitor for () {
    ghost then = { λ visitor n e. visitor };

    fn see(&mut self, n: usize, e: Entry) {}
}

// Reads a rule, and shows its entries: accepted with how many there are, or refused, and then the entries
// before the fault have been shown. Put into each caller: as a call, and `see` with it, one pass took 1.4 times as
// long for each entry.
#[inline(always)]
pub fn visit_entries<V: Visitor>(rule: &[u8], visitor: &mut V) -> Result<usize, Refusal>
    ensures answer { answered result ≡ rule_answer rule.now }
    ensures visitor { visitor.new ≡ seen V.then visitor.old (entries_read rule.now) }
{
    let empty = rule.len() < 1;
    if empty {
        return Err(Fault::RuleSize.at(0));
    }
    let too_long = RULE_MOST < rule.len();
    if too_long {
        return Err(Fault::RuleSize.at(0));
    }
    let mut at: usize = 0;
    let mut n: usize = 0;
    // Left by `break` with the answer, and with counters of its own: the form that document 01 names.
    let answer = loop {
        if at == rule.len() {
            break Ok(n);
        }
        match take_entry(rule, n, at) {
            Err(fault) => break Err(fault.at(at)),
            Ok(taken) => {
                visitor.see(n, taken.entry);
                at = taken.next;
                n = n + 1;
            }
        }
    };
    answer
}
