// A refusal as one line of ASCII: writes the line of a number and its details into a lent buffer, and reads the number and details whose line bytes
// are.
#![tactic(auto)]

ghost use Rattle.std.specs.Prelude.{◌≡◌, ◌||◌, eqb, leb};
ghost use Rattle.bits.specs.Choice.{pick};
ghost use Rattle.lines.specs.Line.{is_none, most_s, writable};
ghost use Rattle.lines.specs.WriteLine.{write_line};
ghost use Rattle.lines.specs.ReadLine.{read_line};

use crate::bytes::LineDetails;
use crate::bytes::names::names_of;
use crate::bytes::put::put_line;
use buffer::Written;
use guess::guess_details;
use table::Refusal;

pub mod bytes;
mod digits;
mod guess;

// No line has more bytes.
const LONGEST: usize = 22;

// The greatest s: it has 8 bits.
const MOST_S: u32 = 255;

// Writes a line at the front of a lent buffer: how many bytes, or 9; none if there is no such line. A local array has room for every line and tells
// how long this one is.
pub fn write_line(d: LineDetails, out: &mut [u8]) -> Option<Written>
    ensures value { result ≡ (write_line d out.old).answer }
    ensures out_after { out.new ≡ (write_line d out.old).buffer }
{
    if !is_writable(d) {
        return None;
    }
    let mut bytes = [0u8; LONGEST];
    let n = put_line(d, &mut bytes);
    if out.len() < n {
        return Some(Err(Refusal::BufferTooShort));
    }
    put_line(d, out);
    Some(Ok(n))
}

// What the bytes say, if they are a line, the whole of them; none if there is no such line. The line of what they seem to say is written and
// compared.
pub fn read_line(line: &[u8]) -> Option<LineDetails>
    ensures { result ≡ read_line line.now }
{
    let d = guess_details(line);
    if is_writable(d) {
        let mut bytes = [0u8; LONGEST];
        let n = put_line(d, &mut bytes);
        if check::same(&bytes[..n], line) {
            return Some(d);
        }
    }
    None
}

// Whether the number is in use and names every detail that is set, and s has 8 bits.
fn is_writable(d: LineDetails) -> bool
    ensures { result ≡ writable d }
{
    let subleaf = d.subleaf;
    let named = names_of(d.number);
    named.used
        & may_have_leaf(named.leaf, d.leaf)
        & may_have_subleaf(named.subleaf, subleaf)
        & may_have_s(named.s, d.s)
}

fn may_have_leaf(named: bool, leaf: u32) -> bool
    ensures { result ≡ (named || eqb leaf 0) }
{
    if named {
        return true;
    }
    leaf == 0
}

fn may_have_subleaf(named: bool, subleaf: Option<u32>) -> bool
    ensures { result ≡ (named || is_none subleaf) }
{
    if named {
        return true;
    }
    match subleaf {
        None => true,
        Some(_) => false,
    }
}

fn may_have_s(named: bool, s: u32) -> bool
    ensures { result ≡ leb s (pick named most_s 0) }
{
    if named {
        return s <= MOST_S;
    }
    s == 0
}
