// The printout for C: the text of a rule and a report as the program prints it, in a lent buffer of any
// length. The text is put into a buffer of the call's own, which always has room, and copied where the
// lent one has room, so that a refusal writes nothing there.
#![tactic(auto)]

pub mod export;
