// One walk of a rule's bytes, for one pass: what the rule is answered, whether an entry looks ahead, and
// the word of an element that opens.
#![tactic(auto)]

mod step;
mod visitors;
pub mod walk;
