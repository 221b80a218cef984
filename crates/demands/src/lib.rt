// For a person who uses both engines: they say the same. This crate has no code; proofs/Same.antt
// has the law.
#![tactic(auto)]
