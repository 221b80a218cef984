// The readers for C: the calls of the crate records, as an archive that C programs link.
#![tactic(auto)]

ghost use Rattle.records.specs.Reply.{RuleRead, ReportRead};

use records::export;
use records::export::{ReportReply, RuleReply};

// Reads a rule.
#[unsafe(no_mangle)]
pub extern "C" fn pz_read_rule(rule: &[u8]) -> RuleReply
    ensures { RuleRead rule.now result }
{
    export::pz_read_rule(rule)
}

// Reads a report.
#[unsafe(no_mangle)]
pub extern "C" fn pz_read_report(report: &[u8]) -> ReportReply
    ensures { ReportRead report.now result }
{
    export::pz_read_report(report)
}
