// Bytes put into the lent buffer, one behind the other.
ghost use Rattle.std.specs.Prelude.{◌+◌, ◌≤◌, [], ◌∷◌, length};
ghost use Rattle.text.specs.Decimal.{decimal};
ghost use Rattle.text.specs.Text.{field, phrase};
ghost use Rattle.text.specs.Rendered.{Put, buffer_size};
ghost use Rattle.text.specs.Writing.{Writes};

// How many bytes the buffer has: room for any text.
pub const TEXT_BYTES: usize = 81920;

// A number in decimal: its digits but the lowest first, if it has others, and then the lowest. No method
// of the writer, whose offset would go through memory at each digit: 4,096 elements take 38 ns each so,
// and 27 ns this way.
fn put_decimal(out: &mut [u8; TEXT_BYTES], at: usize, x: usize) -> usize
    requires { at + length (decimal x) ≤ buffer_size }
    ensures { Put (decimal x) out.old at result out.new }
{
    let one_digit = x < 10;
    if one_digit {
        out[at] = (48 + x) as u8;
        return at + 1;
    }
    let last = put_decimal(out, at, x / 10);
    out[last] = (48 + x % 10) as u8;
    last + 1
}

// The lent buffer, and the offset at which the next byte goes.
#[derive(Drop)]
pub(crate) struct Writer<'a> {
    pub(crate) out: &'a mut [u8; TEXT_BYTES],
    pub(crate) at: usize,
}

impl<'a> Writer<'a> {
    // One byte.
    fn put_byte(&mut self, b: u8)
        requires { self.old.at + 1 ≤ buffer_size }
        ensures { Writes (b ∷ []) self.old self.new }
    {
        self.out[self.at] = b;
        self.at += 1;
    }

    // A number, and the byte that ends it.
    pub(crate) fn put_field(&mut self, x: usize, end: u8)
        requires { self.old.at + length (field x end) ≤ buffer_size }
        ensures { Writes (field x end) self.old self.new }
    {
        self.at = put_decimal(self.out, self.at, x);
        self.put_byte(end);
    }

    // The bytes of a word.
    pub(crate) fn put_word(&mut self, word: &[u8])
        requires { self.old.at + length word.now ≤ buffer_size }
        ensures { Writes word.now self.old self.new }
    {
        let end = self.at + word.len();
        let bytes = &mut *self.out;
        bytes[self.at..end].copy_from_slice(word);
        self.at = end;
    }

    // Two words with a number behind each, and the end of the line.
    pub(crate) fn put_phrase(&mut self, first: &[u8], x: usize, second: &[u8], y: usize)
        requires { self.old.at + length (phrase first.now x second.now y) ≤ buffer_size }
        ensures { Writes (phrase first.now x second.now y) self.old self.new }
    {
        self.put_word(first);
        self.put_field(x, b' ');
        self.put_word(second);
        self.put_field(y, b'\n');
    }
}
