// Numbers of a record, whose bytes are known to stand there: a test for each byte would make one pass take
// twice as long (docs/DECISIONS.md). The crate tag has `number_at` too: a public function has no `requires`
// in this repository, so what reads known bytes cannot be shared.
ghost use Rattle.std.specs.Prelude.{◌≡◌, true, cond, ◌+◌, ◌<◌, length};
ghost use Rattle.numbers.specs.Bytes.{number_at};

// The number at an offset that has two bytes.
pub(crate) fn number_at(s: &[u8], at: usize) -> u16
    requires { at + 1 < length s.now }
    ensures { result ≡ number_at s.now at }
{
    u16::from_le_bytes([s[at], s[at + 1]])
}

// The number at an offset, or 0 where there is none.
pub(crate) fn number_where(s: &[u8], at: usize, there: bool) -> u16
    requires { there ≡ true → at + 1 < length s.now }
    ensures { result ≡ cond there (number_at s.now at) 0 }
{
    if there { number_at(s, at) } else { 0 }
}
