// One record of a report, at one offset: the tag that it is, and the number that it gets; and what the end gets.
#![tactic(auto)]

mod number;
pub mod tag;
