// One record at one offset: is it whole?
ghost use Rattle.std.specs.Prelude.{◌≡◌, cond, ◌+◌, ◌≤◌, length};
ghost use Rattle.terms.specs.Answer.{fault_number};
ghost use Rattle.terms.specs.Frame.{frame_of, broken};

use crate::number::number_at;
use terms::refusal::Fault;

// Whether the record at an offset with 4 bytes or more left is whole, where its kind has the expected
// length; 0: no such kind.
pub(crate) fn whole(s: &[u8], at: usize, expected: usize) -> Result<(), Fault>
    requires { at + 4 ≤ length s.now }
    ensures { fault_number result ≡ cond (broken (frame_of s.now at expected)) 2 0 }
{
    let unknown = expected == 0;
    if unknown {
        return Err(Fault::RuleRecord);
    }
    let length = number_at(s, at) as usize;
    let other_length = length != expected;
    if other_length {
        return Err(Fault::RuleRecord);
    }
    let cut = s.len() - at - 2 < expected;
    if cut { Err(Fault::RuleRecord) } else { Ok(()) }
}
