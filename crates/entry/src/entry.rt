// One record at one offset as an entry of a rule: its entry and where the next record begins, or its fault.
ghost use Rattle.std.specs.Prelude.{◌≡◌, ◌+◌, ◌*◌, ◌≤◌, length};
ghost use Rattle.entry.specs.Entry.{entry_of, misdirected};
ghost use Rattle.entry.specs.Taken.{EntryTaken, EntryJudged};

use crate::frame::whole;
use crate::number::{number_at, number_where};
use terms::kind::{Numbers, Row, row_of};
use terms::limits::{ENTRIES_MOST, LABEL_MOST};
use terms::refusal::Fault;

// An entry of a rule: its kind, and the numbers of its body, 0 where it has none. A label is `a`.
#[derive(Clone, Copy)]
pub struct Entry {
    pub kind: u16,
    pub a: u16,
    pub b: u16,
}

// What a record without a fault is taken for: its entry, and where the next record begins.
#[derive(Clone, Copy)]
pub struct Taken {
    pub entry: Entry,
    pub next: usize,
}

// The entry whose record, of this row, stands at an offset.
fn entry_of(row: Row, s: &[u8], at: usize) -> Entry
    requires { at + 4 + 2 * row.arguments ≤ length s.now }
    ensures { result ≡ entry_of row s.now at }
{
    let n = row.arguments;
    Entry {
        kind: number_at(s, at + 2),
        a: number_where(s, at + 4, 1 <= n),
        b: number_where(s, at + 6, 2 <= n),
    }
}

// Whether an entry's numbers are not what they may be.
fn misdirects(numbers: Numbers, arguments: usize, own: usize, e: Entry) -> bool
    ensures { result ≡ misdirected numbers arguments own e }
{
    match numbers {
        Numbers::Nothing => false,
        Numbers::Label => (e.a < 1) | (LABEL_MOST < e.a as usize),
        Numbers::Entries => (own <= e.a as usize) | ((2 <= arguments) & (own <= e.b as usize)),
    }
}

// A whole record of this row, whose entry is e.
fn whole_entry(row: Row, own: usize, e: Entry, next: usize) -> Result<Taken, Fault>
    ensures { EntryJudged row own e next result }
{
    let numbers = row.numbers;
    if misdirects(numbers, row.arguments, own, e) {
        Err(Fault::RuleArgument)
    } else {
        Ok(Taken { entry: e, next })
    }
}

// Takes the record at an offset as entry `own`.
#[inline(always)]
pub fn take_entry(s: &[u8], own: usize, at: usize) -> Result<Taken, Fault>
    ensures { EntryTaken s.now own at result }
{
    let full = ENTRIES_MOST <= own;
    if full {
        return Err(Fault::RuleFull);
    }
    if s.len() < 4 {
        return Err(Fault::RuleRecord);
    }
    if s.len() - 4 < at {
        return Err(Fault::RuleRecord);
    }
    let row = row_of(number_at(s, at + 2) as usize);
    whole(s, at, row.length)?;
    whole_entry(row, own, entry_of(row, s, at), at + 2 + row.length)
}
