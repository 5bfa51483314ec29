// Masking in place: the first entries in lent memory are masked where they stand.
ghost use Rattle.std.specs.Prelude.{◌≡◌, ◌<◌, length};
ghost use Rattle.masking.specs.Masks.{apply_mask};
ghost use Rattle.masking.specs.MaskTable.{masks_of};
ghost use Rattle.masking.specs.Kept.{places};
ghost use Rattle.memory.specs.Memory.{row_of, put_row, rows_in, layout};
ghost use Rattle.collect.specs.FirstEntries.{mask_row};
ghost use Rattle.masking.specs.KeptTableLaws.{is_basic_masked, is_extended_masked};
ghost use Rattle.collect.specs.Mask.{Unmasked, Masked, legacy_row};

use crate::LEGACY_FEATURES;
use masking::masks::KeptLeaf;
use masking::{PLACES, place};
use memory::{REGISTERS, put_row, row_at};
use x86defs::CpuidResult;

// Each row masked by the row of the table of kept leaves that has its place, then bits 0 and 1 of D.0.EAX set. The places whose masks are all ones
// are left as they stand.
pub fn mask_rows(secure_avic: bool, registers: &mut [u32; REGISTERS], origins: &[u64; PLACES])
    requires { Unmasked registers.old origins.now }
    ensures { registers.new ≡ layout (λ i. (mask_row secure_avic i (rows_in registers.old origins.now i)).result) }
{
    mask_basic(secure_avic, registers);
    mask_extended(secure_avic, registers);
    let state = row_at(registers, place::EXTENDED_STATE_0);
    let there = memory::is_there(origins[place::EXTENDED_STATE_0]);
    let legacy = legacy_row(there, state);
    put_row(registers, place::EXTENDED_STATE_0, legacy);
}

// The rows of leaves below 80000000h masked. Each place is named with its row of the table, here and below: so every mask is a constant in the
// compiled code, and no table is written out.
fn mask_basic(secure_avic: bool, registers: &mut [u32; REGISTERS])
    requires { length registers.old ≡ 352 }
    ensures { Masked secure_avic registers.old registers.new is_basic_masked }
{
    let kept = masking::masks::kept_leaves(secure_avic);
    mask_place(registers, place::VENDOR_AND_MAX_FUNCTION, kept[0]);
    mask_place(registers, place::VERSION_AND_FEATURES, kept[1]);
    mask_place(registers, place::EXTENDED_FEATURES, kept[3]);
    mask_place(registers, place::EXTENDED_STATE_0, kept[5]);
    mask_place(registers, place::EXTENDED_STATE_1, kept[6]);
}

// The rows of leaves from 80000000h on masked.
fn mask_extended(secure_avic: bool, registers: &mut [u32; REGISTERS])
    requires { length registers.old ≡ 352 }
    ensures { Masked secure_avic registers.old registers.new is_extended_masked }
{
    let kept = masking::masks::kept_leaves(secure_avic);
    mask_place(registers, place::EXTENDED_MAX_FUNCTION, kept[8]);
    mask_place(registers, place::EXTENDED_VERSION_AND_FEATURES, kept[9]);
    mask_place(registers, place::EXTENDED_ADDRESS_SPACE_SIZES, kept[16]);
    mask_place(
        registers,
        place::EXTENDED_SVM_VERSION_AND_FEATURES,
        kept[17],
    );
    mask_place(registers, place::EXTENDED_TLB1GB_IDENTIFIERS, kept[18]);
    mask_place(
        registers,
        place::EXTENDED_OPTIMIZATION_IDENTIFIERS,
        kept[19],
    );
    mask_place(registers, place::PROCESSOR_TOPOLOGY_DEFINITION, kept[21]);
    mask_place(registers, place::EXTENDED_SEV_FEATURES, kept[22]);
}

// One row masked.
fn mask_place(registers: &mut [u32; REGISTERS], place: usize, kept: KeptLeaf)
    requires { place < places }
    ensures { registers.new ≡ put_row registers.old place (apply_mask (masks_of kept) (row_of registers.old place)) }
{
    let r = row_at(registers, place);
    let masked = masking::masks::apply_mask(kept, r);
    put_row(registers, place, masked);
}

// Row D.0, if there is one, with bits 0 and 1 of EAX set.
fn legacy_row(there: bool, r: CpuidResult) -> CpuidResult
    ensures { result ≡ legacy_row there r }
{
    if there {
        return CpuidResult {
            eax: r.eax | LEGACY_FEATURES,
            ebx: r.ebx,
            ecx: r.ecx,
            edx: r.edx,
        };
    }
    r
}
