// All words of a buffer set to 0.
ghost use Rattle.std.specs.Prelude.{◌≡◌, length, replicate};

// Sets every word to 0.
pub fn clear(words: &mut [u64])
    ensures { words.new ≡ replicate (length words.old) 0 }
{
    words.fill(0);
}
