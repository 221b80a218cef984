// The readers of records as C calls them, shipped by themselves: a rule or a report is a byte string, and
// each reader answers that it is accepted, with how many entries or elements it has, or refused, with
// document 01's number and the place.
#![tactic(auto)]

pub mod export;
