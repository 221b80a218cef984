// The own entries of steps that have more than one, behind n entries. The argument, what the rest of
// the path stands for, and the test, which is the last entry, are written already; the entries that
// are put here count on from n.
ghost use Rattle.std.specs.Prelude.{◌≤◌};
ghost use Rattle.terms.specs.Limits.{entries_most};
ghost use Rattle.spell.specs.Forms.{star_entries, down_entries, beside_entries};
ghost use Rattle.spell.specs.Promises.{RoomFor};
ghost use Rattle.spell.specs.Writing.{Spells};

use crate::put::{Writer, last};

impl<'a> Writer<'a> {
    // AXIS*: a "true" of its own, and that until the argument. A form is the kind of its last entry.
    pub(crate) fn put_star(&mut self, n: u16, form: u16, argument: u16)
        requires { RoomFor (star_entries form argument n) self.old.out.now self.old.at }
        ensures { Spells (star_entries form argument n) self.old self.new }
    {
        self.put_record(1, 0, 0);
        self.put_record(form, n, argument);
    }

    // (child?TEST)*: the argument, or some child of (test until argument and test).
    pub(crate) fn put_down(&mut self, n: u16, argument: u16)
        requires { (n ≤ entries_most) × RoomFor (down_entries argument n) self.old.out.now self.old.at }
        ensures { Spells (down_entries argument n) self.old self.new }
    {
        let test = last(n);
        self.put_record(5, argument, test);
        self.put_record(10, test, n);
        self.put_record(6, n + 1, 0);
        self.put_record(4, argument, n + 2);
    }

    // The other three: (neighbour passes the test) until argument. Kinds 7 to 9 and 11 to 13 are forms
    // 15 to 17 less 8 and less 4.
    pub(crate) fn put_beside(&mut self, n: u16, form: u16, argument: u16)
        requires { (8 ≤ form) × RoomFor (beside_entries form argument n) self.old.out.now self.old.at }
        ensures { Spells (beside_entries form argument n) self.old self.new }
    {
        self.put_record(form - 8, last(n), 0);
        self.put_record(form - 4, n, argument);
    }
}
