// What stands at a cursor in a typed rule: bytes, fixed words and numbers, and what begins there. No
// function here calls a parser, and every one is total: past the end there is no byte. A byte string and a
// place in it, and no cursor that holds both: a function answers the next place, and whoever called still
// has the one before.
#![tactic(auto)]

pub mod begins;
pub mod words;
