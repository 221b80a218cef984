// The columns of a report's elements, filled in the one walk that checks the report: a refusal leaves what
// was read before the fault; the promise says what that is.
ghost use Rattle.std.specs.Prelude.{◌≡◌, set};
ghost use Rattle.terms.specs.Answer.{answered};
ghost use Rattle.reports.specs.Report.{report_answer};
ghost use Rattle.reports.specs.Elements.{ElementsTaken};

use tag::tag::{Tag, Untaken, end_of, take_tag};
use terms::limits::REPORT_MOST;
use terms::refusal::{Fault, Refusal};

// Stores a number in a column, where the column has such a place.
fn put(column: &mut [u16], i: usize, v: u16)
    ensures { column.new ≡ set column.old i v }
{
    if i < column.len() {
        column[i] = v;
    }
}

// Reads a report, and puts its elements' labels and levels into the lent columns, in order of
// opening: one walk, which checks and fills.
pub fn read_elements(
    report: &[u8],
    labels: &mut [u16],
    levels: &mut [u16],
) -> Result<usize, Refusal>
    ensures { ElementsTaken report.now labels.old levels.old (answered result) labels.new levels.new }
{
    let empty = report.len() < 1;
    if empty {
        return Err(Fault::ReportSize.at(0));
    }
    let too_long = REPORT_MOST < report.len();
    if too_long {
        return Err(Fault::ReportSize.at(0));
    }
    let mut at: usize = 0;
    let mut depth: usize = 0;
    let mut elements: usize = 0;
    // Left by `break` with the answer, and with counters of its own: the form that document 01 names.
    let answer = loop {
        // At the end; not `==`, so that the compiler knows of every record taken that it begins before it.
        if report.len() <= at {
            break end_of(report.len(), depth, elements);
        }
        // The offset first: the next record waits for it alone, and what stands last in both branches the
        // compiler merges into one sum that waits for the branch.
        match take_tag(report, at, depth, elements) {
            Err(Untaken { fault, .. }) => break Err(fault.at(at)),
            Ok(Tag::Opening(label)) => {
                at = at + 6;
                put(labels, elements, label);
                put(levels, elements, depth as u16);
                elements = elements + 1;
                depth = depth + 1;
            }
            Ok(Tag::Closing) => {
                at = at + 4;
                depth = depth - 1;
            }
        }
    };
    answer
}

// Reads a report: accepted with the number of its elements, or refused. No column is wanted.
pub fn read_report(report: &[u8]) -> Result<usize, Refusal>
    ensures { answered result ≡ report_answer report.now }
{
    let mut labels = [0u16; 0];
    let mut levels = [0u16; 0];
    read_elements(report, &mut labels, &mut levels)
}
