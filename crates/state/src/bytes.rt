// Numbers of two, four and eight bytes in a byte string, the low byte first.
ghost use Rattle.std.specs.Prelude.{◌≡◌, ◌+◌, ◌≤◌, ◌<◌, length};
ghost use Rattle.numbers.specs.Bytes.{word_at, number_put};

use numbers::bytes::two_bytes;

// The number of two bytes at an offset.
pub(crate) fn number_at(s: &[u8], at: usize) -> usize
    requires { at + 2 ≤ length s.now }
    ensures { (result ≡ word_at 2 s.now at) × (result < 65536) }
{
    two_bytes(s[at], s[at + 1])
}

// The word of eight bytes at an offset.
pub(crate) fn word_at(s: &[u8], at: usize) -> u64
    requires { at + 8 ≤ length s.now }
    ensures { result ≡ word_at 8 s.now at }
{
    u64::from_le_bytes([
        s[at],
        s[at + 1],
        s[at + 2],
        s[at + 3],
        s[at + 4],
        s[at + 5],
        s[at + 6],
        s[at + 7],
    ])
}

// Stores a number in two bytes at an offset.
pub(crate) fn put_number(s: &mut [u8], at: usize, v: usize)
    requires in_bounds { at + 2 ≤ length s.old }
    requires fits { v < 65536 }
    ensures { s.new ≡ number_put 2 at v s.old }
{
    s[at..at + 2].copy_from_slice(&(v as u16).to_le_bytes());
}

// Stores a word in eight bytes at an offset.
pub(crate) fn put_word(s: &mut [u8], at: usize, v: u64)
    requires { at + 8 ≤ length s.old }
    ensures { s.new ≡ number_put 8 at v s.old }
{
    s[at..at + 8].copy_from_slice(&v.to_le_bytes());
}
