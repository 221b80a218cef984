// The whole-report evaluator, for C: the marking, in columns that have room for any report's elements.
#![tactic(auto)]

pub mod export;
