// From a line to the bytes of its rule and its report, one character after the other.
ghost use Rattle.std.specs.Prelude.{◌≤◌, ◌<◌};

use crate::answer::{put_answer, put_byte, put_unread};
use std::io;

// How many bytes a line may spell.
pub(crate) const LINE_BYTES: usize = 65536;

// Where in a line a character stands; `Unread` from the first one on that cannot be read.
#[derive(Clone, Copy, PartialEq, Eq)]
enum Part {
    Start,
    Name,
    Unread,
    Rule,
    Report,
    Words,
}

// A number that is read digit by digit.
#[derive(Clone, Copy, PartialEq, Eq)]
pub(crate) enum Number {
    Missing,
    Read(u16),
    TooLarge,
}

impl Number {
    // One digit more.
    fn with(self, digit: u8) -> Number {
        match self {
            Number::Missing => Number::Read(digit as u16),
            Number::Read(n) => match u16::try_from(10 * n as u32 + digit as u32) {
                Ok(longer) => Number::Read(longer),
                Err(_) => Number::TooLarge,
            },
            Number::TooLarge => Number::TooLarge,
        }
    }

    // How often that is; more often than there is room for where it is none, or too large.
    fn times(self) -> usize
        ensures { result ≤ 65536 }
    {
        match self {
            Number::Read(n) => n as usize,
            _ => LINE_BYTES,
        }
    }
}

// Puts a number as two bytes, the low one first.
fn put_number(number: u16, bytes: &mut [u8; LINE_BYTES], at: usize)
    requires { at < 65535 }
{
    let [low, high] = number.to_le_bytes();
    bytes[at] = low;
    bytes[at + 1] = high;
}

// Puts so many bytes again, from where they end up to another index.
fn repeat(bytes: &mut [u8; LINE_BYTES], count: usize, from: usize, end: usize)
    requires { (count ≤ from) × (end ≤ 65536) }
{
    for i in from..end {
        bytes[i] = bytes[i - count];
    }
}

// What is known of a line: the bytes that it spells, the number that is being read, how often its record
// is put and where that begins, where the rule ends, and how many bytes are spelt. The first two of them
// are the rule's length, so that all are an input of the program.
#[derive(Drop)]
pub(crate) struct Line {
    pub(crate) bytes: [u8; LINE_BYTES],
    part: Part,
    pub(crate) number: Number,
    times: Number,
    start: usize,
    pub(crate) rule: usize,
    pub(crate) size: usize,
    ghost rule_low: { 2 ≤ rule },
    ghost rule_first: { rule ≤ start },
    ghost start_first: { start ≤ size },
    ghost size_fits: { size ≤ 65536 },
}

impl Line {
    // A line of which no character is read.
    pub(crate) fn new() -> Line {
        Line {
            bytes: [0u8; LINE_BYTES],
            part: Part::Start,
            number: Number::Missing,
            times: Number::Read(1),
            start: 2,
            rule: 2,
            size: 2,
        }
    }

    // Nothing is spelt but the two bytes of the rule's length.
    fn empty(&mut self, part: Part) {
        self.part = part;
        self.number = Number::Missing;
        self.times = Number::Read(1);
        self.rule = 2;
        self.start = 2;
        self.size = 2;
    }

    // A record begins.
    fn begin(&mut self) {
        self.number = Number::Missing;
        self.times = Number::Read(1);
        self.start = self.size;
    }

    // The number, if there is one, is the record's. There is none too large, and none in a record where the
    // words are told.
    fn end_number(&mut self) {
        match self.number {
            Number::Missing => {}
            Number::Read(n) if self.part != Part::Words && self.size + 2 <= LINE_BYTES => {
                put_number(n, &mut self.bytes, self.size);
                self.number = Number::Missing;
                self.size += 2;
            }
            _ => self.empty(Part::Unread),
        }
    }

    // The record ends, and is put as often as was said.
    fn end_record(&mut self) {
        self.end_number();
        let count = self.size - self.start;
        let end = self.start + self.times.times() * count;
        if LINE_BYTES < end {
            self.empty(Part::Unread);
            return;
        }
        repeat(&mut self.bytes, count, self.size, end);
        self.size = end;
        self.begin();
    }

    // The rule ends, or the report.
    fn end_part(&mut self) {
        self.end_record();
        match self.part {
            Part::Rule => {
                put_number((self.size - 2) as u16, &mut self.bytes, 0);
                self.part = Part::Report;
                self.start = self.size;
                self.rule = self.size;
            }
            Part::Report => self.part = Part::Words,
            _ => self.empty(Part::Unread),
        }
    }

    // A character behind the name. A star says that the number is how often its record is put.
    fn sign(&mut self, c: u8) {
        match c {
            b'0'..=b'9' => self.number = self.number.with(c - b'0'),
            b'*' => {
                self.times = self.number;
                self.number = Number::Missing;
            }
            b' ' => self.end_number(),
            b',' => self.end_record(),
            b'/' => self.end_part(),
            _ => self.empty(Part::Unread),
        }
    }

    // Answers the line at its end; nothing to a blank one.
    fn end(&self, rt: &impl Print) -> io::Result<()> {
        match self.part {
            Part::Words => put_answer(rt, self),
            Part::Start => Ok(()),
            _ => put_unread(rt),
        }
    }

    // One character more. The name is written as it is; a colon ends it.
    fn read(&mut self, rt: &impl Print, c: u8) -> io::Result<()> {
        if c == b'\n' {
            self.end(rt)?;
            self.empty(Part::Start);
            return Ok(());
        }
        match self.part {
            Part::Start | Part::Name => {
                put_byte(rt, c)?;
                self.empty(if c == b':' { Part::Rule } else { Part::Name });
            }
            _ => self.sign(c),
        }
        Ok(())
    }
}

// Answers every line, the last one also where no line feed ends it.
pub(crate) fn run(rt: &impl Print, text: &[u8]) -> io::Result<()> {
    let mut line = Line::new();
    for c in text {
        line.read(rt, *c)?;
    }
    line.end(rt)
}
