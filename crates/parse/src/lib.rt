// Reads a typed rule, request #101: a byte string is the text of a tree, which is noted in a small
// table of rows (specs/Rows.antt); or it stops being a text at a place. Every byte is read once, but
// for the few that are looked at to see what begins there.
#![tactic(auto)]

pub mod tree;
