// The readers as C calls them; include/polonezar.h declares them.
ghost use Rattle.records.specs.Reply.{RuleRead, ReportRead};

use reports::elements::read_report;
use rules::table::read_rule;

// What the rule reader answers: document 01's number, the place, and how many entries. Numbers and no
// Result, here and below: C reads them.
#[repr(C)]
#[derive(Clone, Copy)]
pub struct RuleReply {
    pub number: u32,
    pub place: u32,
    pub entries: u32,
}

// What the report reader answers: document 01's number, the place, and how many elements.
#[repr(C)]
#[derive(Clone, Copy)]
pub struct ReportReply {
    pub number: u32,
    pub place: u32,
    pub elements: u32,
}

// Reads a rule.
#[unsafe(no_mangle)]
pub extern "C" fn pz_read_rule(rule: &[u8]) -> RuleReply
    ensures { RuleRead rule.now result }
{
    match read_rule(rule) {
        Ok(entries) => RuleReply {
            number: 0,
            place: 0,
            entries: entries as u32,
        },
        Err(refusal) => RuleReply {
            number: refusal.fault.into(),
            place: refusal.place as u32,
            entries: 0,
        },
    }
}

// Reads a report.
#[unsafe(no_mangle)]
pub extern "C" fn pz_read_report(report: &[u8]) -> ReportReply
    ensures { ReportRead report.now result }
{
    match read_report(report) {
        Ok(elements) => ReportReply {
            number: 0,
            place: 0,
            elements: elements as u32,
        },
        Err(refusal) => ReportReply {
            number: refusal.fault.into(),
            place: refusal.place as u32,
            elements: 0,
        },
    }
}
