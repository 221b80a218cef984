// One pass for C: the calls of the crate onepass, as an archive that C programs link.
#![tactic(auto)]

ghost use Rattle.onepass.specs.Step.{Started, Opened, Closed};

use onepass::export;
use onepass::export::StepReply;

// Begins a report.
#[unsafe(no_mangle)]
pub extern "C" fn pz_start(state: &mut [u8]) -> StepReply
    ensures { Started state.old result state.new }
{
    export::pz_start(state)
}

// Opens an element.
#[unsafe(no_mangle)]
pub extern "C" fn pz_open(rule: &[u8], state: &mut [u8], label: u32) -> StepReply
    ensures { Opened rule.now state.old label result state.new }
{
    export::pz_open(rule, state, label)
}

// Closes the innermost open element.
#[unsafe(no_mangle)]
pub extern "C" fn pz_close(rule: &[u8], state: &mut [u8]) -> StepReply
    ensures { Closed rule.now state.old result state.new }
{
    export::pz_close(rule, state)
}
