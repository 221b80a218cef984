// One pass: start, open with a label, close, over a lent state of 1,040 bytes. The rule comes with
// each call, and each call reads it once and takes one step over its entries.
#![tactic(auto)]

pub mod export;
