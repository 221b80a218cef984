// The running tally of verdicts: seen, selected, passed over.
#![tactic(auto)]

pub mod export;
