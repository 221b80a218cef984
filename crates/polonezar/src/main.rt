// The program: a rule and a report on standard input, the record on standard output.
//
// The input is a rule's length in two bytes, low byte first, the rule, and the report to the end;
// at most 65,536 bytes are read. What is printed is a proved function of these bytes (`put_printout`
// of the crate judge); `main` only moves them. A record that could not be written whole is said on
// standard error, and then the error that was met ends the program, with exit status 1.
#![tactic(auto)]

ghost use Rattle.std.specs.Prelude.{◌≤◌, IfOk, length};

use input::read_full;
use std::io;
use std::io::Read;

// Reads the input. Where nothing can be read at all, as with no standard input, it is empty. A read
// that fails later is an error: the input did not end there, so nothing is printed of that part.
fn read_input(from: &mut impl Read, buf: &mut [u8]) -> io::Result<usize>
    ensures { IfOk result (λ n. n ≤ length buf.new) }
{
    let first = from.read(buf).unwrap_or(0);
    if first == 0 {
        return Ok(0);
    }
    let more = read_full(from, &mut buf[first..])?;
    Ok(first + more)
}

fn main(rt: HostRuntime) -> io::Result<()> {
    let mut input = [0u8; 65536];
    let n = read_input(&mut rt.stdin(), &mut input)?;
    let mut out = [0u8; text::put::TEXT_BYTES];
    let m = judge::judge::put_printout(&input[..n], &mut out);
    rt.write_all(&out[..m]).inspect_err(|_| {
        // Where this cannot be said either, the error that ends the program is still the record's.
        let _ = eprintln!(rt;
            "polonezar: the record was not written whole; nothing may be decided by it"
        );
    })
}
