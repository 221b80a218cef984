// Records put into the buffer, one behind the other.
ghost use Rattle.std.specs.Prelude.{◌≡◌, [], ◌∷◌, ◌+◌, ◌≤◌, pred, length};
ghost use Rattle.numbers.specs.Bytes.{two_bytes};
ghost use Rattle.paths.specs.Translation.{entry};
ghost use Rattle.spell.specs.Promises.{numbers, RoomFor};
ghost use Rattle.spell.specs.Writing.{Writes, Spells};

use terms::kind::row_of;

// The number of the last of so many entries, which count from 0; 0 where there is none.
pub fn last(entries: u16) -> u16
    ensures { result ≡ pred entries }
{
    entries.saturating_sub(1)
}

// The lent buffer, and the offset at which the next byte goes.
#[derive(Drop)]
pub(crate) struct Writer<'a> {
    pub(crate) out: &'a mut [u8],
    pub(crate) at: usize,
}

impl<'a> Writer<'a> {
    // A number, the low byte first.
    fn put_number(&mut self, x: u16)
        requires { self.old.at + 2 ≤ length self.old.out.now }
        ensures { Writes (two_bytes x) self.old self.new }
    {
        let [low, high] = x.to_le_bytes();
        self.out[self.at] = low;
        self.out[self.at + 1] = high;
        self.at += 2;
    }

    // Of two numbers as many as a record of its kind has.
    fn put_body(&mut self, arguments: usize, a: u16, b: u16)
        requires { self.old.at + length (numbers arguments a b) ≤ length self.old.out.now }
        ensures { Writes (numbers arguments a b) self.old self.new }
    {
        let none = arguments == 0;
        if none {
            return;
        }
        self.put_number(a);
        if arguments == 1 {
            return;
        }
        self.put_number(b);
    }

    // One entry's record; a number that the kind does not have is not put.
    pub(crate) fn put_record(&mut self, kind: u16, a: u16, b: u16)
        requires { RoomFor (entry kind a b ∷ []) self.old.out.now self.old.at }
        ensures { Spells (entry kind a b ∷ []) self.old self.new }
    {
        let row = row_of(kind as usize);
        self.put_number(row.length as u16);
        self.put_number(kind);
        self.put_body(row.arguments, a, b);
    }
}
