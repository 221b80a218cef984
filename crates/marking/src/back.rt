// Kinds 7, 9, 11 and 13: what the element before, to which a column leads, has.
ghost use Rattle.std.specs.Prelude.{length};
ghost use Rattle.meaning.specs.Tree.{backward};
ghost use Rattle.layout.specs.Links.{leads};
ghost use Rattle.marking.specs.Pass.{Passed, Room, bits_of};
ghost use Rattle.marking.specs.Steps.{along_mark};

use crate::asked::{Asked, Column};
use steps::back::back_word;

// Entry i at every element, from the first on: each has its mark before one that leads to it. `until` is
// a word of the meaning and no closure; the compiler makes a loop of each of its values.
pub(crate) fn back_pass(until: bool, asked: Asked, column: Column, marks: &mut [u64])
    requires { Room (length column.numbers.now) asked.i marks.old }
    ensures { let f = column.entry.numbers.now in Passed (length f) asked.i (along_mark until backward (length f) (leads f) (bits_of marks.old asked.a) (bits_of marks.old asked.b)) marks.old marks.new }
{
    let Asked { a, b, i } = asked;
    for (s, p) in column.numbers.iter().enumerate() {
        let p = *p as usize;
        marks[s] = back_word(until, a, b, i, p < s, marks[p], marks[s]);
    }
}
