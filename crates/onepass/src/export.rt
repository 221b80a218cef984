// Start, open and close as C calls them; include/polonezar.h declares them.
ghost use Rattle.std.specs.Prelude.{◌≡◌, false, cond, pred, ◌≤◌};
ghost use Rattle.numbers.specs.Bits.{bit_at};
ghost use Rattle.terms.specs.Answer.{fault_number, number_of_fault};
ghost use Rattle.terms.specs.Limits.{rule_most};
ghost use Rattle.tag.specs.Tags.{opens, closes};
ghost use Rattle.state.specs.Stores.{opening, closing};
ghost use Rattle.onepass.specs.Step.{reply, step_reply, Stepped, Started, Opened, Closed};

use numbers::bits::bit_at;
use state::state::{close_state, open_state, start_state, words_of};
use terms::refusal::{Fault, Refusal};
use walk::walk::{ask_rule, walk_rule};

// What a call answers: document 01's number, the place, and the verdict. Numbers and no Result: C reads
// them.
#[repr(C)]
#[derive(Clone, Copy)]
pub struct StepReply {
    pub number: u32,
    pub place: u32,
    pub verdict: u32,
}

// A step's verdict, or its fault, which has no place.
impl From<Result<bool, Fault>> for StepReply {
    ghost from_gives = { λ answer r. r ≡ step_reply answer };

    fn from(answer: Result<bool, Fault>) -> StepReply {
        match answer {
            Ok(verdict) => StepReply {
                number: 0,
                place: 0,
                verdict: verdict as u32,
            },
            Err(fault) => StepReply {
                number: fault.into(),
                place: 0,
                verdict: 0,
            },
        }
    }
}

// A rule that looks ahead is refused, whatever the state is.
fn looks_back(ahead: bool) -> Result<(), Fault>
    ensures { fault_number result ≡ cond «ahead» 10 0 }
{
    if ahead { Err(Fault::RuleAhead) } else { Ok(()) }
}

// Opens with an accepted rule of n entries, which give the word w: the last entry's bit is the verdict.
fn open_step(n: usize, ahead: bool, w: u64, state: &mut [u8], label: usize) -> Result<bool, Fault>
    requires { 1 ≤ n }
    ensures { Stepped «ahead» state.old (opens label) (bit_at w (pred n)) (opening w state.old) (step_reply result) state.new }
{
    looks_back(ahead)?;
    open_state(state, label, w)?;
    Ok(bit_at(w, n - 1))
}

// Closes with an accepted rule; a closing has no verdict.
fn close_step(ahead: bool, state: &mut [u8]) -> Result<bool, Fault>
    ensures { Stepped «ahead» state.old closes false (closing state.old) (step_reply result) state.new }
{
    looks_back(ahead)?;
    close_state(state)?;
    Ok(false)
}

// The answer to a rule that is refused.
fn rule_refused(refusal: Refusal) -> StepReply
    requires { refusal.place ≤ rule_most }
    ensures { result ≡ reply (number_of_fault refusal.fault) refusal.place 0 }
{
    StepReply {
        number: refusal.fault.into(),
        place: refusal.place as u32,
        verdict: 0,
    }
}

// Begins a report.
#[unsafe(no_mangle)]
pub extern "C" fn pz_start(state: &mut [u8]) -> StepReply
    ensures { Started state.old result state.new }
{
    start_state(state).and(Ok(false)).into()
}

// Opens an element.
#[unsafe(no_mangle)]
pub extern "C" fn pz_open(rule: &[u8], state: &mut [u8], label: u32) -> StepReply
    ensures { Opened rule.now state.old label result state.new }
{
    let words = words_of(state);
    let walked = walk_rule(rule, label as usize, words.parent, words.sibling);
    match walked.answer {
        Ok(n) => open_step(n, walked.ahead, walked.word, state, label as usize).into(),
        Err(refusal) => rule_refused(refusal),
    }
}

// Closes the innermost open element.
#[unsafe(no_mangle)]
pub extern "C" fn pz_close(rule: &[u8], state: &mut [u8]) -> StepReply
    ensures { Closed rule.now state.old result state.new }
{
    let asked = ask_rule(rule);
    match asked.answer {
        Ok(_) => close_step(asked.ahead, state).into(),
        Err(refusal) => rule_refused(refusal),
    }
}
