// The input of a program: what a reader has, as far as a buffer has room.
#![tactic(auto)]

ghost use Rattle.std.specs.Prelude.{IfOk};
ghost use Rattle.input.specs.Full.{ReadFully};

use std::io;
use std::io::Read;

// Reads until the buffer is full or the input ends, and returns how many bytes were read. A read that
// fails is an error: the input did not end there.
pub fn read_full<R: Read>(from: &mut R, buf: &mut [u8]) -> io::Result<usize>
    ensures { IfOk result (λ n. ReadFully (R.remaining from.old) (R.remaining from.new) n buf.new) }
{
    // Not `read_exact`, to which an input that ends sooner is an error.
    let mut done = 0;
    while done < buf.len() {
        let n = from.read(&mut buf[done..])?;
        if n == 0 {
            break;
        }
        done += n;
    }
    Ok(done)
}
