// Reads a page set of up to 65,536 bytes from standard input and writes its image to standard output, secure AVIC off. On a refusal it
// writes byte 3 and the refusal, on longer input byte 4. The work is program::put_output's; nothing is proved of what is read or written.
#![tactic(auto)]

ghost use Rattle.std.specs.Prelude.{IfOk, ◌≤◌, length};

use std::io;
use std::io::{Read, Write};

// One byte more than the longest input, so that a longer one is told.
const LONGEST: usize = 65537;

// A read or a write that fails ends the run with its error.
fn main(rt: HostRuntime) -> io::Result<()> {
    let mut input = [0u8; LONGEST];
    let n = read_full(&mut rt.stdin(), &mut input)?;
    let mut out = [0u8; program::ROOM];
    let m = program::put_output(&input[..n], &mut out);
    print(&mut rt.stdout(), &out, m)
}

// Reads until `buf` is full or the input ends, and tells how many bytes it put at the start of `buf`.
fn read_full<R: Read>(input: &mut R, buf: &mut [u8]) -> io::Result<usize>
    ensures { IfOk result (λ n. n ≤ length buf.new) }
{
    let mut done = 0;
    // kept as a while: one read may give fewer bytes than there is room, and the library's methods fail at an early end or need a `Vec`
    while done < buf.len() {
        let n = input.read(&mut buf[done..])?;
        if n == 0 {
            break;
        }
        done += n;
    }
    Ok(done)
}

// Writes the first `m` bytes of `out`.
fn print<W: Write>(output: &mut W, out: &[u8], m: usize) -> io::Result<()> {
    if m <= out.len() {
        output.write_all(&out[..m])?;
    }
    Ok(())
}
