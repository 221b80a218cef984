// Which states are bad, by their size and by the numbers in front of their words.
ghost use Rattle.std.specs.Prelude.{◌≡◌};
ghost use Rattle.fields.specs.Fields.{bad_size, bad_fields};

use terms::limits::{ELEMENTS_MOST, LEVELS_MOST};

// How many bytes a state has.
pub const STATE_BYTES: usize = 1040;

// Whether a state of so many bytes is bad.
pub fn bad_size(size: usize) -> bool
    ensures { result ≡ bad_size size }
{
    size != STATE_BYTES
}

// Whether one with these numbers is, and with these bytes at 6 and 7. Plain numbers and no struct of them: this
// crate knows of no state in which they would stand together.
pub fn bad_fields(depth: usize, elements: usize, root: usize, six: u8, seven: u8) -> bool
    ensures { result ≡ bad_fields depth elements root six seven }
{
    (LEVELS_MOST < depth)
        | (elements < depth)
        | (ELEMENTS_MOST < elements)
        | (1 < root)
        | ((root == 1) & (depth != 0))
        | !((six == 0) & (seven == 0))
}
