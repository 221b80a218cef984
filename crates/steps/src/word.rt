// Bits of a mark word.
ghost use Rattle.std.specs.Prelude.{◌≡◌, ◌&&◌, ◌+◌, ◌*◌, ◌^◌, ◌%◌, ◌<◌};
ghost use Rattle.std.specs.Int.Bits.{bit_or};
ghost use Rattle.numbers.specs.Bits.{bit, bit_at, in_word};

use numbers::bits::WORD_BITS;

// Bit a of a word.
pub fn bit_in(w: u64, a: usize) -> bool
    ensures { result ≡ bit_at w (in_word a) }
{
    (w >> (a % WORD_BITS)) % 2 == 1
}

// Bit a of a word, where `there`, as a number. What is put into a word right away stays one, which is
// measured to be quicker than a test.
pub fn bit_where(w: u64, a: usize, there: bool) -> u64
    ensures { (result ≡ bit (there && bit_at w (in_word a))) × (result < 2) }
{
    (there as u64) & (w >> (a % WORD_BITS))
}

// The bits below i of a word, and bit i set or not.
pub fn low_with_bit(w: u64, i: usize, on: bool) -> u64
    ensures { result ≡ bit on * 2 ^ in_word i + w % 2 ^ in_word i }
{
    (w & ((1 << (i % WORD_BITS)) - 1)) | ((on as u64) << (i % WORD_BITS))
}

// A word with bit i set too, or as it was, by a number's lowest bit: no mask is needed.
pub fn put_low_bit(w: u64, i: usize, on: u64) -> u64
    ensures { result ≡ bit_or w (on % 2 * 2 ^ in_word i) }
{
    w | ((on % 2) << (i % WORD_BITS))
}

// The same by a test.
pub fn put_bit(w: u64, i: usize, on: bool) -> u64
    ensures { result ≡ bit_or w (bit on * 2 ^ in_word i) }
{
    put_low_bit(w, i, on as u64)
}
