// Numbers of a record, whose bytes are known to stand there: a test for each byte would make one pass take
// twice as long (docs/DECISIONS.md). The crate entry has `number_at` too: a public function has no `requires`
// in this repository, so what reads known bytes cannot be shared.
ghost use Rattle.std.specs.Prelude.{◌≡◌, ◌+◌, ◌<◌, length};
ghost use Rattle.numbers.specs.Bytes.{number_at};

// The number at an offset that has two bytes.
pub(crate) fn number_at(s: &[u8], at: usize) -> u16
    requires { at + 1 < length s.now }
    ensures { result ≡ number_at s.now at }
{
    u16::from_le_bytes([s[at], s[at + 1]])
}
