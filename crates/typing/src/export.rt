// The call as C has it; include/polonezar.h declares it.
ghost use Rattle.std.specs.Prelude.{◌≤◌, MatchResult};
ghost use Rattle.terms.specs.Limits.{rule_most};
ghost use Rattle.paths.specs.Answer.{text_most};
ghost use Rattle.typing.specs.Typed.{reply_of, Typed};

use crate::write::write_rule;
use parse::tree::{NO_ROW, ROWS, read_tree};
use terms::limits::ENTRIES_MOST;
use terms::refusal::{Fault, Refusal};

// What the call answers: the number, the place, and how many bytes it wrote. Numbers and no Result: C reads
// them.
#[repr(C)]
#[derive(Clone, Copy)]
pub struct PathReply {
    pub number: u32,
    pub place: u32,
    pub written: u32,
}

// Reads a typed rule and writes the bytes of its rule: how many these are. The whole text has been
// read, and its entries and bytes are counted, before the first byte is written.
fn read_path(text: &[u8], rule: &mut [u8]) -> Result<usize, Refusal>
    ensures typed { Typed text.now rule.old (reply_of result) rule.new }
    ensures small { MatchResult result (λ written. written ≤ rule_most) (λ refusal. refusal.place ≤ text_most) }
{
    let mut rows = [NO_ROW; ROWS];
    let counts = match read_tree(text, &mut rows) {
        Ok(counts) => counts,
        Err(e) => return Err(Fault::TextBad.at(e.place)),
    };
    let too_many = ENTRIES_MOST < counts.entries;
    if too_many {
        return Err(Fault::TextFull.at(0));
    }
    if rule.len() < counts.bytes {
        return Err(Fault::BufferShort.at(0));
    }
    write_rule(&rows, counts.entries, rule);
    Ok(counts.bytes)
}

// Reads a typed rule and writes the bytes of its rule.
#[unsafe(no_mangle)]
pub extern "C" fn pz_read_path(text: &[u8], rule: &mut [u8]) -> PathReply
    ensures { Typed text.now rule.old result rule.new }
{
    match read_path(text, rule) {
        Ok(written) => PathReply {
            number: 0,
            place: 0,
            written: written as u32,
        },
        Err(refusal) => PathReply {
            number: refusal.fault.into(),
            place: refusal.place as u32,
            written: 0,
        },
    }
}
