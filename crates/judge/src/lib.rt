// The printout of an input, as bytes: the split into rule and report, and the text of what is decided
// of them. `put_printout` puts the whole text at the front of a lent buffer that always has room for
// it, answers its length, and leaves the bytes past it as they were. Document 01, "The program".
#![tactic(auto)]

pub mod judge;
mod split;
