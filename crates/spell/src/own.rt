// The own entries of one part of a text, by its form, behind what is written.
ghost use Rattle.std.specs.Prelude.{◌≡◌, ◌≤◌};
ghost use Rattle.terms.specs.Limits.{entries_most};
ghost use Rattle.spell.specs.Forms.{own_entries};
ghost use Rattle.spell.specs.Promises.{written, part_fits, RoomFor, PartPut};
ghost use Rattle.spell.specs.Writing.{Spells};

use crate::form::{own_bytes, own_entries};
use crate::put::{Writer, last};
use terms::limits::ENTRIES_MOST;

// Forms count from 1 to so many.
const FORMS: u16 = 17;

// What stands in the buffer: how many entries, and how many bytes they take. Entries count from 0, so
// the next one gets the number `entries`.
#[derive(Clone, Copy)]
pub struct Written {
    pub entries: u16,
    pub bytes: usize,
}

// The one test before a part is put: its form is one of the table's; from "not" on a form names
// entries, so that one is written; and there are entries and bytes left for its own.
fn fits(room: usize, entries: u16, bytes: usize, form: u16) -> bool
    ensures { result ≡ part_fits form room (written entries bytes) }
{
    (1 <= form)
        & (form <= FORMS)
        & ((form <= 2) | (1 <= entries))
        & (entries as usize + own_entries(form) as usize <= ENTRIES_MOST)
        & (own_bytes(form) as usize <= room.saturating_sub(bytes))
}

impl<'a> Writer<'a> {
    // The own entries behind n, where they fit. The record of a form up to 9 is of that kind, and has as
    // many of the two numbers as the kind.
    fn put_own(&mut self, n: u16, form: u16, argument: u16)
        requires { (n ≤ entries_most) × RoomFor (own_entries form argument n) self.old.out.now self.old.at }
        ensures { Spells (own_entries form argument n) self.old self.new }
    {
        match form {
            0..=9 => self.put_record(form, argument, last(n)),
            10..=13 => self.put_star(n, form, argument),
            14 => self.put_down(n, argument),
            _ => self.put_beside(n, form, argument),
        }
    }
}

// Puts a part's own entries behind what is written, and answers what is written then. Where they do
// not fit, nothing is put. (What is written comes as two numbers and no `Written`: as a whole it would be
// copied right after its fields were stored, and the processor waits for that.)
pub fn put_part(rule: &mut [u8], entries: u16, bytes: usize, form: u16, argument: u16) -> Written
    ensures { PartPut form argument rule.old (written entries bytes) rule.new result }
{
    if fits(rule.len(), entries, bytes, form) {
        let mut records = Writer {
            out: rule,
            at: bytes,
        };
        records.put_own(entries, form, argument);
        return Written {
            entries: entries + own_entries(form),
            bytes: records.at,
        };
    }
    Written { entries, bytes }
}
