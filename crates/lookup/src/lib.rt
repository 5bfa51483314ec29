// Lookup in a table in lent memory, as the source's leaf_result_ref: finds the row of a leaf and subleaf with its origin, enforcing or not, or
// nothing.
#![tactic(auto)]

ghost use Rattle.std.specs.Prelude.{◌≡◌, ◌+◌, ◌≤◌, ltb};
ghost use Rattle.bits.specs.Choice.{pick};
ghost use Rattle.masking.specs.Kept.{places};
ghost use Rattle.memory.specs.Held.{held_in};
ghost use Rattle.lookup.specs.Lookup.{at_place, span_of, place_alone, place_asked, found};

use masking::{PLACES, place, run};
use memory::{REGISTERS, is_there, row_at};
use x86defs::{CpuidFunction, CpuidResult, leaf};

// A row that is found, with the number of where it came from.
#[derive(Clone, Copy)]
pub struct FoundRow {
    pub row: CpuidResult,
    pub origin: u64,
}

// The row of a leaf, with or without a subleaf, in memory of any content. A leaf without subleaves is found under any subleaf, unless the caller
// enforces.
pub fn find(
    registers: &[u32; REGISTERS],
    origins: &[u64; PLACES],
    leaf: CpuidFunction,
    subleaf: Option<u32>,
    enforce_subleaf: bool,
) -> Option<FoundRow>
    ensures { result ≡ found (held_in registers.now origins.now) origins.now leaf subleaf enforce_subleaf }
{
    let place = place_asked(leaf, subleaf, enforce_subleaf)?;
    let origin = origins[place];
    if is_there(origin) {
        return Some(FoundRow {
            row: row_at(registers, place),
            origin,
        });
    }
    None
}

// The place that is asked for; none if the question has no answer. It is kept small, so that the compiler puts it into each function that looks up;
// and it gives no number for a question without an answer, which each of them would compare again.
pub fn place_asked(
    leaf: CpuidFunction,
    subleaf: Option<u32>,
    enforce_subleaf: bool,
) -> Option<usize>
    ensures { result ≡ at_place (place_asked leaf subleaf enforce_subleaf) }
{
    if let Some(k) = subleaf {
        let span = span_of(leaf);
        if span.count != 0 {
            return place_within(span, k);
        }
        if enforce_subleaf {
            return None;
        }
    }
    place_alone(leaf)
}

// The places of a leaf with subleaves: the first, and how many.
#[derive(Clone, Copy)]
pub struct Span {
    pub first: usize,
    pub count: u32,
}

// The places of the four leaves with subleaves; none for any other leaf.
fn span_of(leaf: CpuidFunction) -> Span
    ensures { result ≡ span_of leaf }
{
    let n = leaf.0;
    match n {
        leaf::EXTENDED_STATE_ENUMERATION => Span {
            first: run::EXTENDED_STATE.first,
            count: run::EXTENDED_STATE.count,
        },
        leaf::CACHE_TOPOLOGY_DEFINITION => Span {
            first: run::CACHE_TOPOLOGY.first,
            count: run::CACHE_TOPOLOGY.count,
        },
        leaf::EXTENDED_TOPOLOGY_ENUMERATION => Span {
            first: run::EXTENDED_TOPOLOGY.first,
            count: run::EXTENDED_TOPOLOGY.count,
        },
        leaf::EXTENDED_FEATURES => Span {
            first: run::EXTENDED_FEATURES.first,
            count: run::EXTENDED_FEATURES.count,
        },
        _ => Span { first: 0, count: 0 },
    }
}

// The place of a subleaf.
fn place_within(span: Span, subleaf: u32) -> Option<usize>
    requires { span.first + span.count ≤ places }
    ensures { result ≡ at_place (pick (ltb subleaf span.count) (span.first + subleaf) places) }
{
    if subleaf < span.count {
        return Some(span.first + subleaf as usize);
    }
    None
}

// The place of a leaf without subleaves, the two made here included; nowhere for a leaf with subleaves, and where no table has it.
fn place_alone(leaf: CpuidFunction) -> Option<usize>
    ensures { result ≡ at_place (place_alone leaf) }
{
    let n = leaf.0;
    if n < leaf::EXTENDED_MAX_FUNCTION {
        if n <= leaf::VERSION_AND_FEATURES {
            return Some(n as usize);
        }
        if n == leaf::MONITOR_MWAIT {
            return Some(place::MONITOR_MWAIT);
        }
        return None;
    }
    if n <= leaf::EXTENDED_ADDRESS_SPACE_SIZES {
        return Some(run::EXTENDED.first + (n - leaf::EXTENDED_MAX_FUNCTION) as usize);
    }
    if n < leaf::EXTENDED_TLB1GB_IDENTIFIERS {
        if n == leaf::EXTENDED_SVM_VERSION_AND_FEATURES {
            return Some(place::EXTENDED_SVM_VERSION_AND_FEATURES);
        }
        return None;
    }
    if n < leaf::PROCESSOR_TOPOLOGY_DEFINITION {
        if n <= leaf::EXTENDED_OPTIMIZATION_IDENTIFIERS {
            return Some(
                run::TLB_AND_OPTIMIZATION.first + (n - leaf::EXTENDED_TLB1GB_IDENTIFIERS) as usize,
            );
        }
        return None;
    }
    if n <= leaf::EXTENDED_SEV_FEATURES {
        return Some(
            run::PROCESSOR_TOPOLOGY_AND_SEV.first
                + (n - leaf::PROCESSOR_TOPOLOGY_DEFINITION) as usize,
        );
    }
    None
}
