// The printout of an input, as bytes in a buffer that always has room for it.
ghost use Rattle.text.specs.Rendered.{Rendered};
ghost use Rattle.judge.specs.Output.{TakenPut, printout_of_both, printout_of};

use crate::split::split;
use marking::report::mark_report;
use terms::limits::ELEMENTS_MOST;
use terms::refusal::{Fault, Refusal};
use text::put::TEXT_BYTES;
use text::render::{put_accepted, put_refused};

// Puts the text of a rule and a report where they are taken, and answers how long it is; puts nothing
// where they are refused. Both are read once, in columns that have room for any report.
pub fn put_taken(rule: &[u8], report: &[u8], out: &mut [u8; TEXT_BYTES]) -> Result<usize, Refusal>
    ensures { TakenPut rule.now report.now out.old result out.new }
{
    let mut labels = [0u16; ELEMENTS_MOST];
    let mut levels = [0u16; ELEMENTS_MOST];
    let mut ups = [0u16; ELEMENTS_MOST];
    let mut lefts = [0u16; ELEMENTS_MOST];
    let mut marks = [0u64; ELEMENTS_MOST];
    let marked = mark_report(
        rule,
        report,
        &mut labels,
        &mut levels,
        &mut ups,
        &mut lefts,
        &mut marks,
    );
    let counted = marked.answer?;
    Ok(put_accepted(
        out,
        &labels,
        &levels,
        &marks,
        counted.elements,
        marked.entries - 1,
        counted.selected,
    ))
}

// Puts the printout of a rule and a report.
fn put_halves(rule: &[u8], report: &[u8], out: &mut [u8; TEXT_BYTES]) -> usize
    ensures { Rendered (printout_of_both rule.now report.now) out.old result out.new }
{
    match put_taken(rule, report, out) {
        Ok(written) => written,
        Err(refusal) => put_refused(out, refusal.fault.into(), refusal.place),
    }
}

// Puts the printout of an input.
pub fn put_printout(input: &[u8], out: &mut [u8; TEXT_BYTES]) -> usize
    ensures { Rendered (printout_of input.now) out.old result out.new }
{
    match split(input) {
        Some((rule, report)) => put_halves(rule, report, out),
        None => put_refused(out, Fault::RuleSize.into(), 0),
    }
}
