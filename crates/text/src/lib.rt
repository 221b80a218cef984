// What the program prints, as bytes: the line of a refusal, or a header, one line for each element
// and a closing line. Each public function puts the whole text at the front of a lent buffer that
// has room for any text, answers its length, and leaves the bytes past it as they were. None has a
// `requires`. Document 01, "The program".
#![tactic(auto)]

pub mod put;
pub mod render;
