// A buffer of words as a whole: all are set to 0, or each is given a bit by what it has, or those with a
// bit are counted. Nothing is asked of a caller, who lends as many words as are meant.
#![tactic(auto)]

pub mod clear;
pub mod count;
pub mod gates;
