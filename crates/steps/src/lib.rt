// What a pass reads and puts at one element: bits of its word, and the mark that a question's step gives.
// Every number names a bit, since numbers count round the bits of a word: nothing is asked of a caller,
// and a shift by a number below 64 costs the machine no test.
#![tactic(auto)]

pub mod ahead;
pub mod back;
pub mod column;
pub mod gate;
pub mod label;
pub mod word;
