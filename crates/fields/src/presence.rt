// The presence word: bit d says that an element at depth d has been closed since its parent opened.
ghost use Rattle.std.specs.Prelude.{◌≡◌};
ghost use Rattle.fields.specs.Fields.{present_word, cleared_below};
ghost use Rattle.numbers.specs.Bits.{in_word, with_bit};

use numbers::bits::{WORD_BITS, bit_at};

// A word with bit i set or cleared.
pub fn with_bit(w: u64, i: usize, on: bool) -> u64
    ensures { result ≡ with_bit (in_word i) on w }
{
    w - (((w >> (i % WORD_BITS)) % 2) << (i % WORD_BITS)) + ((on as u64) << (i % WORD_BITS))
}

// The last word of depth d, where presence bit d says that there is one; else 0.
pub fn present_word(presence: u64, d: usize, last: u64) -> u64
    ensures { result ≡ present_word presence d last }
{
    if bit_at(presence, d) { last } else { 0 }
}

// The presence word after opening at depth d: bit d + 1 is cleared, if there is one.
pub fn cleared_below(presence: u64, d: usize) -> u64
    ensures { result ≡ cleared_below d presence }
{
    if d < 63 {
        with_bit(presence, d + 1, false)
    } else {
        presence
    }
}
