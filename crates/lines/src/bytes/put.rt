// Lines into lent bytes: stores what a line says at an index, and gives the index after it.
ghost use Rattle.std.specs.Prelude.{◌≡◌, ◌+◌, ◌≤◌, length};
ghost use Rattle.std.proofs.lemmas.List.Edits.{sets};
ghost use Rattle.lines.specs.Line.{leaf_field, subleaf_field, s_field, spaced, fields, line};

use crate::bytes::LineDetails;
use crate::bytes::names::names_of;
use crate::digits::{put_decimal, put_digits};

// Stores the line at the front of bytes that have room for it. Gives its length.
pub fn put_line(d: LineDetails, out: &mut [u8]) -> usize
    requires { length (line d) ≤ length out.old }
    ensures { (result ≡ length (line d)) × (out.new ≡ sets out.old 0 (line d)) }
{
    let at = put_decimal(out, 0, d.number);
    let end = put_fields(out, at, d);
    out[end] = b'\n';
    end + 1
}

// The details that the number names, each after a space.
fn put_fields(out: &mut [u8], at: usize, d: LineDetails) -> usize
    requires { at + length (fields d) ≤ length out.old }
    ensures { (result ≡ at + length (fields d)) × (out.new ≡ sets out.old at (fields d)) }
{
    let subleaf = d.subleaf;
    let named = names_of(d.number);
    let after_leaf = put_leaf(out, at, named.leaf, d.leaf);
    let after_subleaf = put_subleaf(out, after_leaf, named.subleaf, subleaf);
    put_s(out, after_subleaf, named.s, d.s)
}

// A leaf in eight hexadecimal capitals, where it is named.
fn put_leaf(out: &mut [u8], at: usize, named: bool, leaf: u32) -> usize
    requires { at + length (leaf_field named leaf) ≤ length out.old }
    ensures { (result ≡ at + length (leaf_field named leaf)) × (out.new ≡ sets out.old at (leaf_field named leaf)) }
{
    if named {
        out[at] = b' ';
        put_digits(out, at + 1, 8, 16, leaf);
        return at + 9;
    }
    at
}

// A subleaf, where it is named and there is one.
fn put_subleaf(out: &mut [u8], at: usize, named: bool, subleaf: Option<u32>) -> usize
    requires { at + length (subleaf_field named subleaf) ≤ length out.old }
    ensures { (result ≡ at + length (subleaf_field named subleaf)) × (out.new ≡ sets out.old at (subleaf_field named subleaf)) }
{
    if named {
        return match subleaf {
            None => at,
            Some(k) => put_spaced(out, at, k),
        };
    }
    at
}

// s, where it is named.
fn put_s(out: &mut [u8], at: usize, named: bool, s: u32) -> usize
    requires { at + length (s_field named s) ≤ length out.old }
    ensures { (result ≡ at + length (s_field named s)) × (out.new ≡ sets out.old at (s_field named s)) }
{
    if named {
        return put_spaced(out, at, s);
    }
    at
}

// A space and a decimal.
fn put_spaced(out: &mut [u8], at: usize, n: u32) -> usize
    requires { at + length (spaced n) ≤ length out.old }
    ensures { (result ≡ at + length (spaced n)) × (out.new ≡ sets out.old at (spaced n)) }
{
    out[at] = b' ';
    put_decimal(out, at + 1, n)
}
