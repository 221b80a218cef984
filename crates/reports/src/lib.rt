// Reports: the walk that checks a whole report and fills the columns of its elements.
#![tactic(auto)]

pub mod elements;
