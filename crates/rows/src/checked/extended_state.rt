// The extended state, over rows of leaf Dh, which stay as they are: a missing subleaf, and the size of the save area.
ghost use Rattle.std.specs.Prelude.{◌≡◌, ◌+◌};
ghost use Rattle.checks.specs.ExtendedState.{grown, save_area, size_of};
ghost use Rattle.checks.specs.Checks.{components_of};
ghost use Rattle.rows.specs.Checked.{present_in, registers_in};

use checks::FROM_2;
use masking::{PLACES, place};
use memory::{REGISTERS, is_there, row_at};
use table::{Refusal, Verdict};
use x86defs::{CpuidFunction, CpuidResult, leaf};

// The smallest save area.
const XSAVE_MINIMUM_XSAVE_AREA_SIZE: u32 = 576;

// The lowest subleaf from 2 up that the mask needs and that has no row. `rest` is what is left of the mask from bit `k` up.
pub fn process_extended_state_subleaves(origins: &[u64; PLACES], mask: u64) -> Verdict
    ensures { result ≡ components_of (present_in origins.now) mask }
{
    let mut rest = mask & FROM_2;
    // kept as a while: the step is not one but the place of the next set bit
    while rest != 0 {
        let k = u64::trailing_zeros(rest);
        let origin = origins[place::EXTENDED_STATE_0 + k as usize];
        if is_there(origin) {
            rest = rest & (rest - 1);
        } else {
            return Err(Refusal::MissingRequiredResult(
                CpuidFunction(leaf::EXTENDED_STATE_ENUMERATION),
                Some(k),
            ));
        }
    }
    Ok(())
}

// The area so far, grown by a subleaf's size and offset if the mask has it.
fn grown(area: u32, used: bool, subleaf: CpuidResult) -> Option<u32>
    ensures { result ≡ size_of (grown area used (subleaf.eax + subleaf.ebx)) }
{
    if used {
        let left = 0xFFFFFFFF - subleaf.eax;
        if subleaf.ebx > left {
            return None;
        }
        let end = subleaf.eax + subleaf.ebx;
        if end > area {
            return Some(end);
        }
        return Some(area);
    }
    Some(area)
}

// The save area over any mask, of which `rest` is left from bit `k` up.
pub fn xsave_size(registers: &[u32; REGISTERS], mask: u64) -> Option<u32>
    ensures { result ≡ size_of (save_area (registers_in registers.now) mask) }
{
    let mut area: u32 = XSAVE_MINIMUM_XSAVE_AREA_SIZE;
    let mut rest = mask & FROM_2;
    // kept as a while: the step is not one but the place of the next set bit
    while rest != 0 {
        let place = place::EXTENDED_STATE_0 + u64::trailing_zeros(rest) as usize;
        let subleaf = row_at(registers, place);
        area = grown(area, true, subleaf)?;
        rest = rest & (rest - 1);
    }
    Some(area)
}
