// Every lawful topology up to size seven: writes all inputs that the topology accepts into a lent buffer, five bytes each. Refusal 9 leaves the
// buffer as it was.
#![tactic(auto)]

ghost use Rattle.std.specs.Prelude.{◌≡◌, ◌+◌, ◌*◌, ◌≤◌, ◌<◌, length};
ghost use Rattle.topologies.specs.Topologies.{accepted_at, accepted_of, accepted_inputs, write_topologies};
ghost use Rattle.topologies.specs.ShortLaws.{single, counted};
ghost use Rattle.topologies.specs.TopologyWriteLaws.{Wrote};

use buffer::Written;
use table::Refusal;

// The bytes of the list; `list_bytes_lem` of specs/TopologyWriteLaws.antt counts them.
const LIST_BYTES: usize = 5095;

// s goes from 0 to 7.
const SIZES: u32 = 8;

// nc has eight bits, and so have lps and t.
const FIELD: u32 = 256;

// Writes the list at the front of a lent buffer. A buffer that is too short is refused, and stays as it was.
pub fn write_topologies(out: &mut [u8]) -> Written
    ensures { (result ≡ (write_topologies out.old).answer) × (out.new ≡ (write_topologies out.old).buffer) }
{
    if out.len() < LIST_BYTES {
        return Err(Refusal::BufferTooShort);
    }
    Ok(put_all(out))
}

// The sizes one after another.
fn put_all(out: &mut [u8]) -> usize
    requires { 5 * length accepted_inputs ≤ length out.old }
    ensures { Wrote out.old 0 accepted_inputs out.new result }
{
    let mut at = 0;
    for s in 0..SIZES {
        at = put_size(out, at, s);
    }
    at
}

// The inputs of one s, and the index after them.
fn put_size(out: &mut [u8], first: usize, s: u32) -> usize
    requires { (s < 8) × (first + 5 * length (accepted_of s) ≤ length out.old) }
    ensures { Wrote out.old first (accepted_of s) out.new result }
{
    let mut at = first;
    for nc in 0..FIELD {
        at = put_inputs(out, at, s, nc);
    }
    at
}

// The inputs of one s and one nc, and the index after them. From s = 1 on nc + 1 is at most 2^s.
fn put_inputs(out: &mut [u8], at: usize, s: u32, nc: u32) -> usize
    requires { (s < 8) × (nc < 256) × (at + 5 * length (accepted_at s nc) ≤ length out.old) }
    ensures { Wrote out.old at (accepted_at s nc) out.new result }
{
    if s == 0 {
        return put_legacy(out, at, nc);
    }
    let v = 1 << s;
    if nc < v {
        return put_counted(out, at, s, nc, v);
    }
    at
}

// The inputs of s = 0 and one nc: with nc = 0 those that tell of one processor by mt = 0, then those whose lps is nc + 1, which has eight bits.
fn put_legacy(out: &mut [u8], at: usize, nc: u32) -> usize
    requires { (nc < 256) × (at + 5 * length (accepted_at 0 nc) ≤ length out.old) }
    ensures { Wrote out.old at (accepted_at 0 nc) out.new result }
{
    if nc == 0 {
        let second = put(out, at, 0, 0, 0, 0, 0);
        let third = put(out, second, 0, 0, 1, 0, 0);
        return put_counted(out, third, 0, 0, 1);
    }
    if nc < 255 {
        return put_counted(out, at, 0, nc, nc + 1);
    }
    at
}

// The inputs that tell of v processors by lps, with mt = 1: t = 0, and t = 1 where it is below v.
fn put_counted(out: &mut [u8], at: usize, s: u32, nc: u32, v: u32) -> usize
    requires { (s < 256) × (nc < 256) × (v < 256) × (at + 5 * length (counted s nc v) ≤ length out.old) }
    ensures { Wrote out.old at (counted s nc v) out.new result }
{
    let second = put(out, at, s, nc, v, 1, 0);
    if 1 < v {
        return put(out, second, s, nc, v, 1, 1);
    }
    second
}

// Five bytes, and the index after them.
fn put(out: &mut [u8], at: usize, s: u32, nc: u32, lps: u32, mt: u32, t: u32) -> usize
    requires { (s < 256) × (nc < 256) × (lps < 256) × (mt < 256) × (t < 256) × (at + 5 ≤ length out.old) }
    ensures { Wrote out.old at (single s nc lps mt t) out.new result }
{
    let end = at + 5;
    out[at..end].copy_from_slice(&[s as u8, nc as u8, lps as u8, mt as u8, t as u8]);
    end
}
