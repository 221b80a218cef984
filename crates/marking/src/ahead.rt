// Kinds 6, 8, 10, 12 and 14: what the elements after, whose column leads here, have given. Bit i of an
// element's word says whether one of them gave: in a pass by turns only until the element's own.
ghost use Rattle.std.specs.Prelude.{length};
ghost use Rattle.meaning.specs.Tree.{forward};
ghost use Rattle.meaning.specs.Marks.{some_of};
ghost use Rattle.layout.specs.Links.{leads};
ghost use Rattle.marking.specs.Pass.{Passed, Room, bits_of};
ghost use Rattle.marking.specs.Steps.{ahead_mark, Nearest};

use crate::asked::{Asked, Column};
use steps::ahead::{AskedAhead, given_at, own_at};
use steps::word::{bit_where, low_with_bit, put_bit, put_low_bit};

// Entry i at every element, by turns from the last on: each has gathered from all that lead to it before
// its own turn. `next` is where the element after leads.
pub(crate) fn turn_pass(way: AskedAhead, asked: Asked, column: Column, marks: &mut [u64])
    requires room { Room (length column.numbers.now) asked.i marks.old }
    requires nearest { Nearest way column.numbers.now }
    ensures { let f = column.entry.numbers.now in Passed (length f) asked.i (ahead_mark way (length f) (leads f) (bits_of marks.old asked.a) (bits_of marks.old asked.b)) marks.old marks.new }
{
    let Asked { a, b, i } = asked;
    let f = column.numbers;
    let mut next = f.len();
    for t in (0..f.len()).rev() {
        let w = marks[t];
        let own = own_at(way, a, b, i, next == t, w);
        marks[t] = low_with_bit(w, i, own);
        next = f[t] as usize;
        let given = given_at(way, a, next < t, own, w);
        marks[next] = put_bit(marks[next], i, given);
    }
}

// Entry i at every element, where each gives a bit that stands there before the pass, and its mark is what
// it has gathered. So there are no turns: from the first on, no element reads what was just stored.
pub(crate) fn gather_pass(asked: Asked, column: Column, marks: &mut [u64])
    requires { Room (length column.numbers.now) asked.i marks.old }
    ensures { let f = column.entry.numbers.now in Passed (length f) asked.i (some_of forward (length f) (leads f) (bits_of marks.old asked.a)) marks.old marks.new }
{
    let Asked { a, i, .. } = asked;
    for (s, p) in column.numbers.iter().enumerate() {
        let p = *p as usize;
        let given = bit_where(marks[s], a, p < s);
        marks[p] = put_low_bit(marks[p], i, given);
    }
}
