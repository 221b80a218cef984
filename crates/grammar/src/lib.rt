// What the readers accept and refuse, said without a cursor. This crate has no code: its substance
// is specs/ and proofs/. specs/When.antt, Rules.antt and Reports.antt first.
#![tactic(auto)]
