// One record of a rule, at one offset: is it whole, which entry is it, and which number does it get where it is none.
//
// A byte string and an offset, here and in tag, and no struct of both: nothing here moves the offset; the walk
// above does, and says it of a fault.
#![tactic(auto)]

pub mod entry;
mod frame;
mod number;
