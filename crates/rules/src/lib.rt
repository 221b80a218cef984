// Rules: the walk that checks a whole rule and shows each of its entries to a visitor, and the table of the
// entries, which is one.
#![tactic(auto)]

pub mod table;
pub mod visit;
