// One walk of a rule's bytes: what the rule is answered, whether an entry looks ahead, and the word of
// an element that opens, from its label and two words. No table: each record is checked and stepped.
ghost use Rattle.walk.specs.Walk.{Walked, Asked};

use crate::visitors::{Looking, Stepping};
use rules::visit::visit_entries;
use terms::refusal::Refusal;

// What a walk gives: the rule's answer; of the entries read, whether one looks ahead, and the word. Beside
// the answer and not in its Ok, since the promise tells them of a refused rule too.
#[derive(Clone, Copy)]
pub struct Walk {
    pub answer: Result<usize, Refusal>,
    pub ahead: bool,
    pub word: u64,
}

// Walks a rule.
pub fn walk_rule(rule: &[u8], label: usize, p: u64, q: u64) -> Walk
    ensures { Walked rule.now label p q result }
{
    let mut stepping = Stepping {
        label,
        parent: p,
        sibling: q,
        ahead: false,
        word: 0,
    };
    let answer = visit_entries(rule, &mut stepping);
    Walk {
        answer,
        ahead: stepping.ahead,
        word: stepping.word,
    }
}

// What a walk gives that steps nowhere.
#[derive(Clone, Copy)]
pub struct Ahead {
    pub answer: Result<usize, Refusal>,
    pub ahead: bool,
}

// Walks a rule for a closing: no entry's bit is asked for.
pub fn ask_rule(rule: &[u8]) -> Ahead
    ensures { Asked rule.now result }
{
    let mut looking = Looking { ahead: false };
    let answer = visit_entries(rule, &mut looking);
    Ahead {
        answer,
        ahead: looking.ahead,
    }
}
