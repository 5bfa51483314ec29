// Compares rows as demand 3 does, in lent memory: whether B's rows rise from those of A that count, by what is asked of them, or the first thing that
// fails.
ghost use Rattle.std.specs.Prelude.{◌≡◌, ◌<◌};
ghost use Rattle.masking.specs.Kept.{places};
ghost use Rattle.memory.specs.Memory.{rows_in};
ghost use Rattle.finish.specs.Kinds.{kinds_at};
ghost use Rattle.compare.specs.Registers.{registers_rise, subleaf_named};
ghost use Rattle.compare.specs.ByMasks.{outside, agreed_in, area_test};
ghost use Rattle.compare.specs.RowsCompared.{further_test, wanted_by, rises, row_compared, rows_compared};
ghost use Rattle.compare.specs.RowsComparedLaws.{row_with};

use crate::registers::{Register, RegistersRise, first_register, registers_rise};
use masking::{PLACES, place};
use memory::{REGISTERS, is_there, row_at};
use register_masks::{RowMasks, masks_at};
use table::subleaf_of;
use x86defs::{CpuidFunction, CpuidResult};

// What is asked of two rows: what the hypothesis asks of entries, or what the conclusion has of tables with these combined masks of A and B.
#[derive(Clone, Copy)]
pub enum Asked {
    Entries,
    Tables(u64, u64),
}

// What a comparison gives: B's rows rise from A's; B lacks a row of A's; a register of its row may not replace A's; it has a row that A has not,
// where it may not; or its combined mask lacks a bit of A's.
#[derive(Clone, Copy)]
pub enum RowsCompared {
    Rises,
    NoRow(CpuidFunction, Option<u32>),
    Differs(CpuidFunction, Option<u32>, Register),
    Beyond(CpuidFunction, Option<u32>),
    MaskLacks,
}

// Whether B's rows rise from A's, or the first thing that fails: the places by rising leaf and subleaf, at each first whether there is a row and then
// EAX, EBX, ECX, EDX; last the combined masks.
pub fn compare_rows(
    asked: Asked,
    a_registers: &[u32; REGISTERS],
    a_origins: &[u64; PLACES],
    b_registers: &[u32; REGISTERS],
    b_origins: &[u64; PLACES],
) -> RowsCompared
    ensures { result ≡ rows_compared (wanted_by asked) (rows_in a_registers.now a_origins.now)
        (rows_in b_registers.now b_origins.now) }
{
    for place in 0..PLACES {
        let in_a = is_there(a_origins[place]);
        let in_b = is_there(b_origins[place]);
        let a = row_at(a_registers, place);
        let b = row_at(b_registers, place);
        let found = compare_row(asked, place, in_a, a, in_b, b);
        if !is_yes(found) {
            return found;
        }
    }
    if masks_rise(asked) {
        return RowsCompared::Rises;
    }
    RowsCompared::MaskLacks
}

// The same of one place: a row of A's is in B's with registers that compare, and any other of B's may be there.
fn compare_row(
    asked: Asked,
    place: usize,
    in_a: bool,
    a: CpuidResult,
    in_b: bool,
    b: CpuidResult,
) -> RowsCompared
    requires { place < places }
    ensures { result ≡ row_compared (wanted_by asked) place (row_with in_a a) (row_with in_b b) }
{
    if in_a {
        if in_b {
            let rise = rows_rise(asked, place, a, b);
            if rise.eax & (rise.ebx & (rise.ecx & rise.edx)) {
                return RowsCompared::Rises;
            }
            return RowsCompared::Differs(
                masking::leaf_at(place),
                subleaf_named(place),
                first_register(rise),
            );
        }
        return RowsCompared::NoRow(masking::leaf_at(place), subleaf_named(place));
    }
    if in_b {
        if may_stand(asked, place) {
            return RowsCompared::Rises;
        }
        return RowsCompared::Beyond(masking::leaf_at(place), subleaf_named(place));
    }
    RowsCompared::Rises
}

fn is_yes(found: RowsCompared) -> bool
    ensures { result ≡ rises found }
{
    matches!(found, RowsCompared::Rises)
}

// Whether B's combined mask has all bits of A's: nothing is asked of entries.
fn masks_rise(asked: Asked) -> bool
    ensures { result ≡ (wanted_by asked).masks }
{
    match asked {
        Asked::Entries => true,
        Asked::Tables(a_mask, b_mask) => a_mask & b_mask == a_mask,
    }
}

// Whether B may have a row that A has not: any entry, and of a table the further states.
fn may_stand(asked: Asked, place: usize) -> bool
    ensures { result ≡ (wanted_by asked).beyond place }
{
    match asked {
        Asked::Entries => true,
        Asked::Tables(a_mask, b_mask) => is_further(place, a_mask, b_mask),
    }
}

// Whether a place is that of an extended state that B's mask has and A's has not.
fn is_further(place: usize, a_mask: u64, b_mask: u64) -> bool
    ensures { result ≡ further_test a_mask b_mask place }
{
    if place < place::EXTENDED_STATE_0 + 2 {
        return false;
    }
    if place < place::EXTENDED_STATE_0 + 64 {
        let k = (place - place::EXTENDED_STATE_0) as u32;
        if bits::has_bit64(b_mask, k) {
            return !bits::has_bit64(a_mask, k);
        }
        return false;
    }
    false
}

// Which registers of B's row may replace A's, by the masks of their place.
fn rows_rise(asked: Asked, place: usize, a: CpuidResult, b: CpuidResult) -> RegistersRise
    requires { place < places }
    ensures { result ≡ registers_rise (wanted_by asked).register (kinds_at place) a b }
{
    let masks = masks_at(place);
    let features = masks.features;
    let rise = registers_rise(features, agreed_bits(asked, masks), a, b);
    RegistersRise {
        eax: rise.eax,
        ebx: rise.ebx,
        ecx: area_rises(asked, place, a.ecx, b.ecx, rise.ecx),
        edx: rise.edx,
    }
}

// The bits in which two rows must agree: of tables all that are no features.
fn agreed_bits(asked: Asked, masks: RowMasks) -> CpuidResult
    ensures { result ≡ agreed_in asked masks }
{
    match asked {
        Asked::Entries => masks.agreed,
        Asked::Tables(_, _) => not_features(masks.features),
    }
}

// Whether B's ECX may replace A's, when this is its answer by the masks: the save area of D.0 may grow.
fn area_rises(asked: Asked, place: usize, a: u32, b: u32, by_masks: bool) -> bool
    ensures { result ≡ area_test asked place a b by_masks }
{
    match asked {
        Asked::Entries => by_masks,
        Asked::Tables(_, _) => {
            if place == place::EXTENDED_STATE_0 {
                return a <= b;
            }
            by_masks
        }
    }
}

// The bits of a row's registers that are no features.
fn not_features(features: CpuidResult) -> CpuidResult
    ensures { result ≡ outside features }
{
    CpuidResult {
        eax: !features.eax,
        ebx: !features.ebx,
        ecx: !features.ecx,
        edx: !features.edx,
    }
}

// The subleaf of a place, where its row carries one.
fn subleaf_named(place: usize) -> Option<u32>
    requires { place < places }
    ensures { result ≡ subleaf_named place }
{
    subleaf_of(masking::indexed_at(place), masking::subleaf_at(place))
}
