// An input's rule and report.
ghost use Rattle.judge.specs.Input.{Parted};

use numbers::bytes::two_bytes;

// The rule, of the length that the first two bytes say, and the report, which is all that follows; none
// where the input is too short for them.
pub(crate) fn split(input: &[u8]) -> Option<(&[u8], &[u8])>
    ensures { Parted input.now result }
{
    let (length, rest) = input.split_first_chunk::<2>()?;
    rest.split_at_checked(two_bytes(length[0], length[1]))
}
