// Places whose registers decide nothing, whatever row stands there: what the checks find in the collected rows, and yes or no for a place.
ghost use Rattle.std.specs.Prelude.{◌≡◌};
ghost use Rattle.memory.specs.Memory.{rows_in};
ghost use Rattle.rows.specs.Checked.{verdict_of};
ghost use Rattle.nearest.specs.Irrelevant.{refuses, is_read, irrelevant_at, unflipped_in, irrelevant_by};

use checks::validate_invlpgb;
use masking::{PLACES, place};
use memory::{REGISTERS, combined_mask, row_at};
use rows::checked::{Checked, check_rows, validate_required};
use table::{Refusal, Verdict};

// What the checks find in the rows of a page set before any flip, once for all its entries: whether a required leaf is missing, whether INVLPGB is
// clear, the combined mask, and what all checks answer.
#[derive(Clone, Copy)]
pub struct Unflipped {
    pub missing: bool,
    pub clear: bool,
    pub mask: u64,
    pub checked: Result<Checked, Refusal>,
}

pub fn check_unflipped(registers: &[u32; REGISTERS], origins: &[u64; PLACES]) -> Unflipped
    ensures { result ≡ unflipped_in (rows_in registers.now origins.now) }
{
    let sizes = row_at(registers, place::EXTENDED_ADDRESS_SPACE_SIZES);
    Unflipped {
        missing: is_refused(validate_required(origins)),
        clear: is_refused(validate_invlpgb(sizes)),
        mask: combined_mask(registers),
        checked: check_rows(registers, origins),
    }
}

#[tactic(auto, using(crate::specs::SearchReturnLaws::refusal_told))]
fn is_refused(verdict: Verdict) -> bool
    ensures { result ≡ refuses verdict }
{
    verdict.is_err()
}

// Whether no row at a place would change the answer to the rows.
pub fn is_irrelevant(found: Unflipped, place: usize) -> bool
    ensures { result ≡ irrelevant_by found place }
{
    if found.missing {
        return true;
    }
    if found.clear {
        return place != place::EXTENDED_ADDRESS_SPACE_SIZES;
    }
    let checked = found.checked;
    irrelevant_at(is_refused(verdict_of(checked)), found.mask, place)
}

// The verdict of the checks.
pub fn verdict_of(checked: Result<Checked, Refusal>) -> Verdict
    ensures { result ≡ verdict_of checked }
{
    checked?;
    Ok(())
}

// The same once the required leaves are there and INVLPGB is set: D subleaves that the combined mask lacks, B.0 and B.1, and of a refused set each
// place that no check reads.
fn irrelevant_at(refused: bool, mask: u64, place: usize) -> bool
    ensures { result ≡ irrelevant_at refused mask place }
{
    if (place >= place::EXTENDED_STATE_0 + 2) & (place < place::EXTENDED_STATE_0 + 64) {
        return !bits::has_bit64(mask, (place - place::EXTENDED_STATE_0) as u32);
    }
    if (place == place::THREAD_LEVEL) | (place == place::CORE_LEVEL) {
        return true;
    }
    if is_read(place) {
        return false;
    }
    refused
}

// Whether a check reads registers at a place, of all but D subleaves from 2 up.
fn is_read(place: usize) -> bool
    ensures { result ≡ is_read place }
{
    ((place == place::VERSION_AND_FEATURES) | (place == place::PROCESSOR_TOPOLOGY_DEFINITION))
        | ((place == place::EXTENDED_ADDRESS_SPACE_SIZES)
            | ((place == place::EXTENDED_STATE_0) | (place == place::EXTENDED_STATE_1)))
}
