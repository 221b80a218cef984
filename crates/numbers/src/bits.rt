// A bit of a word.
ghost use Rattle.std.specs.Prelude.{◌≡◌};
ghost use Rattle.numbers.specs.Bits.{bit_at};

// How many bits a mark word has.
pub const WORD_BITS: usize = 64;

// Bit a of a word; there is none past the last.
pub fn bit_at(w: u64, a: usize) -> bool
    ensures { result ≡ bit_at w a }
{
    let inside = a < WORD_BITS;
    if inside { (w >> a) % 2 == 1 } else { false }
}
