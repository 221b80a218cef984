// A report laid out: its elements' labels and levels, as the reader puts them, and beside them each
// element's parent and previous sibling, found once, so that no pass above searches for one.
#![tactic(auto)]

pub mod columns;
pub mod layout;
mod links;
