// The call as C has it; include/polonezar.h declares it.
ghost use Rattle.std.specs.Prelude.{◌≡◌, ◌<◌, ◌≤◌, ◌^◌, length, take};
ghost use Rattle.numbers.specs.Lists.{over};
ghost use Rattle.terms.specs.Answer.{answered, place_of, count_of};
ghost use Rattle.printing.specs.Given.{print_reply, PrintoutGiven};

use judge::judge::put_taken;
use terms::refusal::{Fault, Refusal};
use text::put::TEXT_BYTES;

// What the call answers: document 01's number, the place, and how many bytes it wrote. Numbers and no
// Result: C reads them.
#[repr(C)]
#[derive(Clone, Copy)]
pub struct PrintReply {
    pub number: u32,
    pub place: u32,
    pub written: u32,
}

// What C is told of an answer: how many bytes were written, or the refusal's number and place. A function and
// no `From`, which could not ask that the numbers fit.
fn told(answer: Result<usize, Refusal>) -> PrintReply
    requires place_fits { place_of (answered answer) < 2 ^ 32 }
    requires count_fits { count_of (answered answer) < 2 ^ 32 }
    ensures { result ≡ print_reply (answered answer) }
{
    match answer {
        Ok(bytes) => PrintReply {
            number: 0,
            place: 0,
            written: bytes as u32,
        },
        Err(refusal) => PrintReply {
            number: refusal.fault.into(),
            place: refusal.place as u32,
            written: 0,
        },
    }
}

// Copies the first n bytes to the front of a buffer that has room for them.
fn copy_front(from: &[u8], n: usize, to: &mut [u8])
    requires { (n ≤ length from.now) × (n ≤ length to.old) }
    ensures { to.new ≡ over (take n from.now) to.old }
{
    to[..n].copy_from_slice(&from[..n]);
}

// Puts the text of a rule and a report at the front of the lent buffer, and answers how long it is. The
// whole text is known, and with it its length, before the first byte is written there.
fn print(rule: &[u8], report: &[u8], text: &mut [u8]) -> Result<usize, Refusal>
    ensures { PrintoutGiven rule.now report.now text.old (print_reply (answered result)) text.new }
{
    let mut whole = [0u8; TEXT_BYTES];
    let written = put_taken(rule, report, &mut whole)?;
    if text.len() < written {
        return Err(Fault::BufferShort.at(0));
    }
    copy_front(&whole, written, text);
    Ok(written)
}

// The same for C.
#[unsafe(no_mangle)]
pub extern "C" fn pz_print(rule: &[u8], report: &[u8], text: &mut [u8]) -> PrintReply
    ensures { PrintoutGiven rule.now report.now text.old result text.new }
{
    told(print(rule, report, text))
}
