// From bytes to marks: the rule's entries, the report laid out, the marking, and the answer.
ghost use Rattle.std.specs.Prelude.{◌≡◌, ◌≤◌};
ghost use Rattle.grammar.specs.Rules.{RuleEntries};
ghost use Rattle.marking.specs.Evaluation.{MarkedBy, ReportMarked};

use crate::asked::Elements;
use crate::elements::mark_elements;
use entry::entry::Entry;
use layout::columns::lacks_room;
use layout::layout::lay_out;
use rules::table::read_entries;
use terms::limits::ENTRIES_MOST;
use terms::refusal::{Fault, Refusal};

// What C is told of a whole report: document 01's number, the place, how many elements there are and how
// many of them are selected. Refused: elements and selected are 0.
#[repr(C)]
#[derive(Clone, Copy)]
pub struct Evaluation {
    pub number: u32,
    pub place: u32,
    pub elements: u32,
    pub selected: u32,
}

// What is counted of an accepted report: how many elements there are, and how many of them are selected.
#[derive(Clone, Copy)]
pub struct Counted {
    pub elements: usize,
    pub selected: usize,
}

// The answer, and how many entries the rule has; 0 where it is refused.
#[derive(Clone, Copy)]
pub struct Marking {
    pub answer: Result<Counted, Refusal>,
    pub entries: usize,
}

// Marks a report's elements with an accepted rule's entries.
fn mark_by_entries(
    entries: &[Entry],
    report: &[u8],
    labels: &mut [u16],
    levels: &mut [u16],
    ups: &mut [u16],
    lefts: &mut [u16],
    marks: &mut [u64],
) -> Result<Counted, Refusal>
    requires { RuleEntries entries.now }
    ensures { MarkedBy entries.now report.now labels.old levels.old ups.old lefts.old marks.old result labels.new levels.new ups.new lefts.new marks.new }
{
    let n = lay_out(report, labels, levels, ups, lefts)?;
    if lacks_room(
        labels.len(),
        levels.len(),
        ups.len(),
        lefts.len(),
        marks.len(),
        n,
    ) {
        return Err(Fault::BufferShort.at(0));
    }
    let read = Elements { labels, ups, lefts };
    let selected = mark_elements(entries, n, read, marks);
    Ok(Counted {
        elements: n,
        selected,
    })
}

// Reads a rule and a report, once each, lays the report out in the lent columns, and writes a word for
// each element into the first words of the lent buffer; 9 where a column or the buffer has no room for
// all elements.
pub fn mark_report(
    rule: &[u8],
    report: &[u8],
    labels: &mut [u16],
    levels: &mut [u16],
    ups: &mut [u16],
    lefts: &mut [u16],
    marks: &mut [u64],
) -> Marking
    ensures { ReportMarked rule.now report.now labels.old levels.old ups.old lefts.old marks.old result labels.new levels.new ups.new lefts.new marks.new }
{
    let none = Entry {
        kind: 0,
        a: 0,
        b: 0,
    };
    let mut table = [none; ENTRIES_MOST];
    match read_entries(rule, &mut table) {
        Ok(entries) => {
            let answer = mark_by_entries(
                &table[..entries],
                report,
                labels,
                levels,
                ups,
                lefts,
                marks,
            );
            Marking { answer, entries }
        }
        Err(refusal) => Marking {
            answer: Err(refusal),
            entries: 0,
        },
    }
}
