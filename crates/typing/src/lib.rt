// The rule of a text: from the table in which reading the text noted its tree to the bytes of the
// rule's records, put one behind the other into a lent buffer. The text itself is not read again.
#![tactic(auto)]

pub mod export;
mod write;
