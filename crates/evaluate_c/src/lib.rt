// The whole-report evaluator for C: the call of the crate evaluate, as an archive that C programs link.
#![tactic(auto)]

ghost use Rattle.marking.specs.Evaluation.{Evaluated};

use evaluate::export;
use marking::report::Evaluation;

// Evaluates a rule on a report: a word for each element into the first words of the lent buffer.
#[unsafe(no_mangle)]
pub extern "C" fn pz_evaluate(rule: &[u8], report: &[u8], marks: &mut [u64]) -> Evaluation
    ensures { Evaluated rule.now report.now marks.old result marks.new }
{
    export::pz_evaluate(rule, report, marks)
}
