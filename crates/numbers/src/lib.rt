// Numbers as bytes and as bits: the lowest layer.
#![tactic(auto)]

pub mod bits;
pub mod bytes;
