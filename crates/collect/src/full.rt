// Full leaves, as bits of one number: no entry of them can add a row, because they are not kept or each of their places has a row. By one such bit
// the walk passes over an entry.
ghost use Rattle.std.specs.Prelude.{◌≡◌, true, ◌+◌, ◌<◌};
ghost use Rattle.masking.specs.Kept.{places};
ghost use Rattle.bits.specs.Bits.{has};
ghost use Rattle.collect.specs.Full.{leaf_number, RowsFrom, FullBy, Filled};

use bits::has_bit64;
use masking::{PLACES, place};
use memory::is_there;
use x86defs::{CpuidFunction, leaf};

// The bits of all leaves but those that a table keeps entries of.
pub const NOT_KEPT: u64 = 0x57D7_FFFF_FB9D_1153;

// Whether the bit of a leaf is set.
pub fn has_leaf(full: u64, leaf: CpuidFunction) -> bool
    ensures { result ≡ has (leaf_number leaf) full }
{
    has_bit64(full, leaf_number(leaf))
}

// The number of a leaf: the leaf turned left by one bit, of which the low six are taken. No two leaves that are kept have the same.
fn leaf_number(leaf: CpuidFunction) -> u32
    ensures value { result ≡ leaf_number leaf }
    ensures small { result < 64 }
{
    ((leaf.0 << 1) + (leaf.0 >> 31)) & 63
}

// The full leaves, with this one if it is full; one of its places has a row. The number is worked out in 64 bits: from 32 bits the compiler sees that
// it is `leaf_number`, and then makes the bit for every entry that is passed over, too.
pub fn with_leaf(full: u64, leaf: CpuidFunction, origins: &[u64; PLACES]) -> u64
    ensures { Filled leaf origins.now full result }
{
    if is_full(leaf, origins) {
        let n = leaf.0;
        let number = (2 * n as u64 + (n >> 31) as u64) & 63;
        return full | (1 << number);
    }
    full
}

// Whether a leaf that has a row has one at each of its places. Leaf Dh, which has 64, is never told as full.
fn is_full(leaf: CpuidFunction, origins: &[u64; PLACES]) -> bool
    ensures { FullBy leaf origins.now result }
{
    let n = leaf.0;
    match n {
        leaf::EXTENDED_TOPOLOGY_ENUMERATION => two_rows(origins, place::THREAD_LEVEL),
        leaf::EXTENDED_STATE_ENUMERATION => false,
        leaf::CACHE_TOPOLOGY_DEFINITION => {
            if two_rows(origins, place::CACHE_TOPOLOGY_0) {
                return two_rows(origins, place::CACHE_TOPOLOGY_0 + 2);
            }
            false
        }
        _ => true,
    }
}

// Whether this place and the next have rows.
fn two_rows(origins: &[u64; PLACES], place: usize) -> bool
    requires { place + 1 < places }
    ensures { result ≡ true → RowsFrom origins.now place 2 }
{
    let first = origins[place];
    if is_there(first) {
        let second = origins[place + 1];
        return is_there(second);
    }
    false
}
