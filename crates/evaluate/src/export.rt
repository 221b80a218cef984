// The marking in columns of its own, made by the report's size.
ghost use Rattle.std.specs.Prelude.{◌≤◌};
ghost use Rattle.terms.specs.Limits.{elements_most};
ghost use Rattle.marking.specs.Evaluation.{Evaluated};
ghost use Rattle.evaluate.specs.Columns.{Enough};

use marking::report::{Evaluation, mark_report};
use terms::limits::ELEMENTS_MOST;

// Columns are made for so many elements, by how many bytes the report has: an accepted report has ten
// bytes an element.
const SMALL: usize = 64;

const SMALL_BYTES: usize = 640;

const MIDDLE: usize = 512;

const MIDDLE_BYTES: usize = 5120;

// Evaluates with columns of N places; a short call has little to clear.
fn evaluate_within<const N: usize>(rule: &[u8], report: &[u8], marks: &mut [u64]) -> Evaluation
    requires few { N ≤ elements_most }
    requires enough { Enough N report.now }
    ensures { Evaluated rule.now report.now marks.old result marks.new }
{
    let mut labels = [0u16; N];
    let mut levels = [0u16; N];
    let mut ups = [0u16; N];
    let mut lefts = [0u16; N];
    let marking = mark_report(
        rule,
        report,
        &mut labels,
        &mut levels,
        &mut ups,
        &mut lefts,
        marks,
    );
    match marking.answer {
        Ok(counted) => Evaluation {
            number: 0,
            place: 0,
            elements: counted.elements as u32,
            selected: counted.selected as u32,
        },
        Err(refusal) => Evaluation {
            number: refusal.fault.into(),
            place: refusal.place as u32,
            elements: 0,
            selected: 0,
        },
    }
}

// Evaluates a rule on a report: a word for each element into the first words of the lent buffer.
#[unsafe(no_mangle)]
pub extern "C" fn pz_evaluate(rule: &[u8], report: &[u8], marks: &mut [u64]) -> Evaluation
    ensures { Evaluated rule.now report.now marks.old result marks.new }
{
    if report.len() <= SMALL_BYTES {
        return evaluate_within::<SMALL>(rule, report, marks);
    }
    if report.len() <= MIDDLE_BYTES {
        return evaluate_within::<MIDDLE>(rule, report, marks);
    }
    evaluate_within::<ELEMENTS_MOST>(rule, report, marks)
}
