// The bits of one first entry: the first of the 128 bits whose flip changes what building answers to the collected rows in lent memory.
ghost use Rattle.std.specs.Prelude.{◌≡◌, true, ◌<◌};
ghost use Rattle.masking.specs.Kept.{places};
ghost use Rattle.memory.specs.Memory.{rows_in};
ghost use Rattle.checks.specs.ExtendedState.{combined_mask};
ghost use Rattle.finish.specs.Finish.{finished};
ghost use Rattle.finish.specs.Stores.{Ready};
ghost use Rattle.rows.specs.Checked.{checked_rows};
ghost use Rattle.nearest.specs.SameVerdict.{same_from};
ghost use Rattle.nearest.specs.Irrelevant.{unflipped_in};
ghost use Rattle.nearest.specs.Tried.{TriedAt};
ghost use Rattle.nearest.specs.BitLaws.{first_bit};

use crate::flips::flip_bit;
use crate::search::irrelevant::{Unflipped, is_irrelevant, verdict_of};
use crate::search::{same_result, same_verdict};
use masking::PLACES;
use masking::masks::KeptLeaf;
use memory::{REGISTERS, put_row, row_at};
use rows::checked::{Checked, checks_from_invlpgb};
use rows::finish;
use table::Refusal;
use x86defs::CpuidResult;

const BITS: u32 = 128;

// The first of an entry's 128 result bits that decides at its row, by number: 32 times the register, and the bit. None is tried if no row there would
// change the answer. The rows are copied once, and each
// flip overwrites the row of the flip before.
pub fn first_bit(
    registers: &[u32; REGISTERS],
    origins: &[u64; PLACES],
    edition: u32,
    found: Unflipped,
    kept: KeptLeaf,
    place: usize,
    x: CpuidResult,
) -> Option<u32>
    requires { (place < places) × ((rows_in registers.now origins.now place).present ≡ true)
        × (found ≡ unflipped_in (rows_in registers.now origins.now)) }
    ensures { result ≡ first_bit edition (rows_in registers.now origins.now) kept place x }
{
    if is_irrelevant(found, place) {
        return None;
    }
    let checked = found.checked;
    let mut tried = *registers;
    for n in 0..BITS {
        let row = collect::masked_at(kept, place, flip_bit(x, n));
        put_row(&mut tried, place, row);
        if !keeps_answer(registers, origins, edition, checked, &tried, place) {
            return Some(n);
        }
    }
    None
}

// Whether other rows, which differ at one place at most, have the same answer. The row that was there changes nothing. Else the verdict decides, and
// the finished row at the place where both are accepted: finishing keeps in a row all that other rows depend on.
fn keeps_answer(
    registers: &[u32; REGISTERS],
    origins: &[u64; PLACES],
    edition: u32,
    found: Result<Checked, Refusal>,
    tried: &[u32; REGISTERS],
    place: usize,
) -> bool
    requires { TriedAt (rows_in registers.now origins.now) (rows_in tried.now origins.now) place
        × (found ≡ checked_rows (rows_in registers.now origins.now)) }
    ensures { result ≡ same_from edition (rows_in tried.now origins.now)
        (rows_in registers.now origins.now) }
{
    if same_result(row_at(registers, place), row_at(tried, place)) {
        return true;
    }
    let checked = checks_from_invlpgb(tried, origins);
    match checked {
        Err(r) => same_verdict(Err(r), verdict_of(found)),
        Ok(checked) => {
            let Ok(before) = found else {
                return false;
            };
            same_result(
                finished_row(tried, origins, edition, checked, place),
                finished_row(registers, origins, edition, before, place),
            )
        }
    }
}

// The row at a place of the table that accepted rows become, from what the checks worked out.
fn finished_row(
    registers: &[u32; REGISTERS],
    origins: &[u64; PLACES],
    edition: u32,
    checked: Checked,
    place: usize,
) -> CpuidResult
    requires { (place < places) × (checked.mask ≡ combined_mask (rows_in registers.now origins.now))
        × Ready (rows_in registers.now origins.now) checked.size checked.processors }
    ensures { result ≡ (finished edition (rows_in registers.now origins.now) place).result }
{
    let mut rows = *registers;
    let mut rows_origins = *origins;
    finish(&mut rows, &mut rows_origins, edition, checked);
    row_at(&rows, place)
}
