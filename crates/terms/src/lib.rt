// The terms of document 01 that every layer shares: its limits, why and where something is refused, and the
// kinds of rule records with what each means.
#![tactic(auto)]

pub mod kind;
pub mod limits;
mod number;
pub mod refusal;
