// Kinds 7, 9, 11 and 13 at one element: what the element before, to which its column leads, has.
ghost use Rattle.std.specs.Prelude.{◌≡◌, ◌&&◌, ◌||◌, ◌*◌, ◌^◌, ◌<◌};
ghost use Rattle.std.specs.Int.Bits.{bit_or};
ghost use Rattle.numbers.specs.Bits.{bit, bit_at, in_word};
ghost use Rattle.steps.specs.Steps.{back_step};

use crate::word::{bit_where, put_low_bit};
use numbers::bits::WORD_BITS;

// As a number, whether the word w has bit b, or bit a and, where `there`, the word v bit i.
fn until_mark(a: usize, b: usize, i: usize, there: bool, v: u64, w: u64) -> u64
    ensures { (result ≡ bit (bit_at w (in_word b) || (bit_at w (in_word a) && (there && bit_at v (in_word i))))) × (result < 2) }
{
    ((w >> (b % WORD_BITS)) | ((w >> (a % WORD_BITS)) & ((there as u64) & (v >> (i % WORD_BITS)))))
        % 2
}

// The word of an element, with the mark of entry i: `there` says that its column leads on, to an
// element with the word v.
pub fn back_word(until: bool, a: usize, b: usize, i: usize, there: bool, v: u64, w: u64) -> u64
    ensures { result ≡ bit_or w (bit (back_step until (bit_at w (in_word a)) (bit_at w (in_word b)) (there && bit_at v (in_word a)) (there && bit_at v (in_word i))) * 2 ^ in_word i) }
{
    if until {
        put_low_bit(w, i, until_mark(a, b, i, there, v, w))
    } else {
        put_low_bit(w, i, bit_where(v, a, there))
    }
}
