// What any bytes would say if they were a line: the number and details that a line with these fields would have.
ghost use Rattle.std.specs.Prelude.{◌≡◌, ◌≤◌, drop};
ghost use Rattle.lines.specs.ReadLine.{field_if, after_if, subleaf_in, subleaf_if, guess};

use crate::bytes::LineDetails;
use crate::bytes::names::names_of;
use crate::digits::{Field, field_at};

// The number, and the details that it names.
pub fn guess_details(line: &[u8]) -> LineDetails
    ensures { result ≡ guess line.now }
{
    let first = field_at(line, 0, 10);
    let at = first.next;
    let named = names_of(first.value);
    let leaf = field_if(line, at, named.leaf, 16);
    let after_leaf = leaf.next;
    let subleaf = subleaf_if(line, after_leaf, named.subleaf);
    let s = field_if(line, after_leaf, named.s, 10);
    LineDetails {
        number: first.value,
        leaf: leaf.value,
        subleaf,
        s: s.value,
    }
}

// A detail's field, where it is named.
fn field_if(line: &[u8], at: usize, named: bool, base: u64) -> Field
    requires { base ≤ 16 }
    ensures value_value { result.value ≡ field_if named base (drop at line.now) }
    ensures line_value { drop result.next line.now ≡ after_if named (drop at line.now) }
{
    if named {
        return field_at(line, at, base);
    }
    Field { value: 0, next: at }
}

// The subleaf, where it is named and anything is left.
fn subleaf_if(line: &[u8], at: usize, named: bool) -> Option<u32>
    ensures { result ≡ subleaf_if named (drop at line.now) }
{
    if named {
        return subleaf_at(line, at);
    }
    None
}

fn subleaf_at(line: &[u8], at: usize) -> Option<u32>
    ensures { result ≡ subleaf_in (drop at line.now) }
{
    if at < line.len() {
        let subleaf = field_at(line, at, 10);
        return Some(subleaf.value);
    }
    None
}
