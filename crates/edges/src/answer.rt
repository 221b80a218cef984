// What is written of a case, behind its name.
ghost use Rattle.std.specs.Prelude.{◌≤◌};

use crate::line::{Line, Number};
use evaluate::export::pz_evaluate;
use judge::judge::put_printout;
use std::io;

pub(crate) fn put_unread(rt: &impl Print) -> io::Result<()> {
    println!(rt; " cannot be read")
}

pub(crate) fn put_byte(rt: &impl Print, c: u8) -> io::Result<()> {
    rt.write_all(&[c])
}

// Puts what the evaluator answers, and the first words of what the buffer holds then.
fn put_evaluated(rt: &impl Print, rule: &[u8], report: &[u8], marks: &mut [u64]) -> io::Result<()> {
    let r = pz_evaluate(rule, report, marks);
    print!(rt; " {} {} {} {};", r.number, r.place, r.elements, r.selected)?;
    for word in marks.iter().take(8) {
        print!(rt; " {word}")?;
    }
    put_byte(rt, b'\n')
}

// Evaluates by a buffer of so many words. Each of them is 7777 before, which stands for what a caller
// had there.
fn put_case(rt: &impl Print, rule: &[u8], report: &[u8], words: usize) -> io::Result<()>
    requires { words ≤ 4096 }
{
    let mut marks = [7777u64; 4096];
    put_evaluated(rt, rule, report, &mut marks[..words])
}

// Puts what the program prints.
fn put_told(rt: &impl Print, input: &[u8]) -> io::Result<()> {
    let mut told = [0u8; 81920];
    let n = put_printout(input, &mut told);
    put_byte(rt, b'\n')?;
    rt.write_all(&told[..n])
}

// Puts what is answered to the rule and the report that a line spells, by a buffer of so many words as it
// says; where it says none, what the program prints.
pub(crate) fn put_answer(rt: &impl Print, line: &Line) -> io::Result<()> {
    let bytes = &line.bytes[..];
    match line.number {
        Number::Read(words) if words <= 4096 => put_case(
            rt,
            &bytes[2..line.rule],
            &bytes[line.rule..line.size],
            words as usize,
        ),
        Number::Missing => put_told(rt, &bytes[..line.size]),
        _ => put_unread(rt),
    }
}
