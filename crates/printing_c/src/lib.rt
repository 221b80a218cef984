// The printout for C: the call of the crate printing, as an archive that C programs link.
#![tactic(auto)]

ghost use Rattle.printing.specs.Given.{PrintoutGiven};

use printing::export;
use printing::export::PrintReply;

// Puts the text of a rule and a report at the front of the lent buffer.
#[unsafe(no_mangle)]
pub extern "C" fn pz_print(rule: &[u8], report: &[u8], text: &mut [u8]) -> PrintReply
    ensures { PrintoutGiven rule.now report.now text.old result text.new }
{
    export::pz_print(rule, report, text)
}
