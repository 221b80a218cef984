// The table of a rule's entries, filled in the one walk that checks the rule: a refusal leaves what was
// read before the fault; the promise says what that is.
ghost use Rattle.std.specs.Prelude.{◌≡◌, set};
ghost use Rattle.terms.specs.Answer.{answered};
ghost use Rattle.rules.specs.Rule.{rule_answer};
ghost use Rattle.rules.specs.Entries.{EntriesTaken};

use crate::visit::{Visitor, visit_entries};
use entry::entry::Entry;
use terms::limits::ENTRIES_MOST;
use terms::refusal::Refusal;

// A table of entries: entry n gets place n, where the table has such a place.
impl Visitor for [Entry; ENTRIES_MOST] {
    ghost then = { set };

    fn see(&mut self, n: usize, e: Entry) {
        let has_place = n < ENTRIES_MOST;
        if has_place {
            self[n] = e;
        }
    }
}

// Reads a rule, and puts its entries into the lent table: one walk, which checks and fills.
pub fn read_entries(rule: &[u8], table: &mut [Entry; ENTRIES_MOST]) -> Result<usize, Refusal>
    ensures { EntriesTaken rule.now table.old (answered result) table.new }
{
    visit_entries(rule, table)
}

// Reads a rule: accepted with the number of its entries, or refused. No table is wanted.
pub fn read_rule(rule: &[u8]) -> Result<usize, Refusal>
    ensures { answered result ≡ rule_answer rule.now }
{
    visit_entries(rule, &mut ())
}
