// Document 01's cases and edges, run through the evaluator and the program's record.
//
// A line of standard input is one case: its name and a colon, the rule's records and a stroke, the
// report's records and a stroke, and how many words the mark buffer has. A record is written as the
// numbers of two bytes that it has, a comma stands between two records, and `N*` puts its record N
// times. What is written is the name and what is answered; where the number of words is left out,
// the record that the program prints. A line that cannot be read says so, so that no case is passed
// over. A read or a write that fails ends the program with its error.
#![tactic(auto)]

use input::read_full;
use std::io;

mod answer;
mod line;

fn main(rt: HostRuntime) -> io::Result<()> {
    let mut text = [0u8; 65536];
    let n = read_full(&mut rt.stdin(), &mut text)?;
    line::run(&rt, &text[..n])
}
