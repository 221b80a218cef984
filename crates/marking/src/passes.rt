// The entries of a rule, one pass each.
ghost use Rattle.std.specs.Prelude.{◌≡◌, List, ℕ, ◌≤◌, ◌<◌, length, get_or};
ghost use Rattle.grammar.specs.Rules.{RuleEntries};
ghost use Rattle.terms.specs.Kinds.{numbers_of};
ghost use Rattle.terms.specs.declared.kind.Numbers.TheVariants.{Entries};
ghost use Rattle.meaning.specs.Tree.{direction};
ghost use Rattle.meaning.specs.Marks.{means, word_of};
ghost use Rattle.layout.specs.Links.{leads};
ghost use Rattle.marking.specs.Pass.{Passed, Stored, Room, bits_of};
ghost use Rattle.marking.specs.Given.{ColumnsOf};
ghost use Rattle.marking.specs.Steps.{along_mark};

use crate::ahead::{gather_pass, turn_pass};
use crate::asked::{Asked, Column, Elements};
use crate::back::back_pass;
use crate::local::local_pass;
use entry::entry::Entry;
use steps::ahead::AskedAhead;
use steps::column::column;
use terms::kind::{Axis, Shape, leads_back, row_of};

// Entry i at every element along an axis, by its column: at some neighbour, or at the end of a way. What
// is back goes from the first element on; ahead, ways go from the last on.
fn along_pass(until: bool, x: Axis, asked: Asked, column: Column, marks: &mut [u64])
    requires { Room (length column.numbers.now) asked.i marks.old }
    ensures { let f = column.entry.numbers.now in Passed (length f) asked.i (along_mark «until» (direction x) (length f) (leads f) (bits_of marks.old asked.a) (bits_of marks.old asked.b)) marks.old marks.new }
{
    if leads_back(x) {
        back_pass(until, asked, column, marks)
    } else {
        if until {
            turn_pass(AskedAhead::Until, asked, column, marks)
        } else {
            gather_pass(asked, column, marks)
        }
    }
}

// Entry i at every element, by its shape: whatever levels the columns are of.
fn mark_entry(shape: Shape, a: usize, b: usize, i: usize, elements: Elements, marks: &mut [u64])
    requires earlier { numbers_of shape ≡ Entries → (a < i) × (b < i) }
    requires room { Room (length elements.labels.now) i marks.old }
    requires columns { (levels : List ℕ) × ColumnsOf levels elements }
    ensures { (levels : List ℕ) → ColumnsOf levels elements.entry → Passed (length levels) i (means levels elements.entry.labels.now shape a (bits_of marks.old a) (bits_of marks.old b)) marks.old marks.new }
{
    let Elements { labels, ups, lefts } = elements;
    match shape {
        Shape::Nothing => {}
        Shape::Here(asked) => local_pass(asked, a, b, i, labels, marks),
        Shape::SomeAlong(x) => {
            let numbers = column(x, ups, lefts);
            along_pass(false, x, Asked { a, b, i }, Column { numbers }, marks)
        }
        Shape::UntilAlong(x) => {
            let numbers = column(x, ups, lefts);
            along_pass(true, x, Asked { a, b, i }, Column { numbers }, marks)
        }
        Shape::EveryChild => {
            let up = Column { numbers: ups };
            turn_pass(AskedAhead::Every, Asked { a, b, i }, up, marks)
        }
    }
}

// All entries, in order, over words that are 0.
pub(crate) fn mark_entries(entries: &[Entry], elements: Elements, marks: &mut [u64])
    requires rule_entries { RuleEntries entries.now }
    requires room { Room (length elements.labels.now) 0 marks.old }
    requires columns { (levels : List ℕ) × ColumnsOf levels elements }
    ensures { (levels : List ℕ) → ColumnsOf levels elements.entry → Stored (length levels) (word_of entries.now levels elements.entry.labels.now) marks.old marks.new }
{
    for (i, entry) in entries.iter().enumerate() {
        let row = row_of(entry.kind as usize);
        let shape = row.shape;
        let a = entry.a as usize;
        let b = entry.b as usize;
        mark_entry(shape, a, b, i, elements, marks);
    }
}
