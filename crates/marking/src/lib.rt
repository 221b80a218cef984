// The marking: from a rule and a report to a word for each element. report.rt goes from bytes to the
// answer, through the readers' tables; the other modules turn the tables of an accepted rule and report
// into mark words: one pass over the elements for each entry, in the direction that its kind needs.
#![tactic(auto)]

mod ahead;
mod asked;
mod back;
mod elements;
mod local;
mod passes;
pub mod report;
