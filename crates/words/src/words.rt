// Bytes, fixed words and numbers at a cursor. It may stand past the end, where there is no byte.
ghost use Rattle.std.specs.Prelude.{◌≡◌, ◌≤◌, ◌<◌, length, drop, IfSome};
ghost use Rattle.paths.proofs.Descent.{agree};
ghost use Rattle.words.specs.Words.{head_of, fixed_at, digit_of, number_at};

// Why something is not read: what stands at this place, a byte or the end, cannot stand there. What
// stands before it may stay.
#[derive(Clone, Copy)]
pub struct Stray {
    pub place: usize,
}

// A number at a cursor: how many digits it has, and its value.
#[derive(Clone, Copy)]
pub(crate) struct Number {
    pub digits: usize,
    pub value: u16,
}

// The byte at the cursor, 0 where there is none.
pub fn byte_at(s: &[u8], at: usize) -> u8
    ensures { result ≡ head_of (drop at s.now) }
{
    if at < s.len() { s[at] } else { 0 }
}

// How many bytes of a word stand at the cursor.
fn agreed(s: &[u8], at: usize, word: &[u8]) -> usize
    ensures { result ≡ agree word.now (drop at s.now) }
{
    if s.len() <= at {
        return 0;
    }
    let most = word.len().min(s.len() - at);
    for i in 0..most {
        if s[at + i] != word[i] {
            return i;
        }
    }
    most
}

// The end of a fixed word. The bytes that agree give the place where it stops.
pub fn fixed_at(s: &[u8], at: usize, word: &[u8]) -> Result<usize, Stray>
    ensures { result ≡ fixed_at word.now s.now at }
{
    let k = agreed(s, at, word);
    if k == word.len() {
        Ok(at + k)
    } else {
        Err(Stray { place: at + k })
    }
}

// What the digit at the cursor counts, from that of `low` to 9.
fn digit_at(s: &[u8], at: usize, low: u8) -> Option<u16>
    requires { 48 ≤ low }
    ensures value { result ≡ digit_of low (drop at s.now) }
    ensures some { IfSome result (λ d. (d ≤ 9) × (at < length s.now)) }
{
    let b = byte_at(s, at);
    if (low <= b) & (b <= b'9') {
        Some((b - b'0') as u16)
    } else {
        None
    }
}

// A number of 1 to 3 digits, the first not 0.
pub(crate) fn numeral_at(s: &[u8], at: usize) -> Option<Number>
    ensures { result ≡ number_at (drop at s.now) }
{
    let one = digit_at(s, at, b'1')?;
    let Some(two) = digit_at(s, at + 1, b'0') else {
        return Some(Number {
            digits: 1,
            value: one,
        });
    };
    let Some(three) = digit_at(s, at + 2, b'0') else {
        return Some(Number {
            digits: 2,
            value: 10 * one + two,
        });
    };
    Some(Number {
        digits: 3,
        value: 10 * (10 * one + two) + three,
    })
}
