// One part of a text, spelt out: its own entries put as records behind those that are written in a
// lent buffer. `form` says how many they are and how long, `own` puts them; what they are made of,
// records and numbers, is put by `put`, and the entries of longer steps by `step`.
#![tactic(auto)]

pub mod form;
pub mod own;
pub mod put;
mod step;
