// What start leaves.
ghost use Rattle.std.specs.Prelude.{◌≡◌, length, replicate};

// Writes zeros. (`clear` of buffer is the same of words: the library's method, with a promise and edits here.)
pub fn clear(state: &mut [u8])
    ensures { state.new ≡ replicate (length state.old) 0 }
{
    state.fill(0);
}
