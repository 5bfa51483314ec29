// One server of a pool by itself: building's verdict on its pages and, where it accepts, the masked first entries and where each stands, in lent
// memory.
ghost use Rattle.pool.specs.Server.{ServerIn};

use build::rows_into;
use masking::PLACES;
use memory::{REGISTERS, clear};
use rows::checked::{Checked, check_rows};
use table::{Choices, Verdict};

// The pages, walked once and judged: nothing is finished. A refusal leaves memory without rows.
pub fn server_into(
    pages: &[u8],
    choices: Choices,
    registers: &mut [u32; REGISTERS],
    origins: &mut [u64; PLACES],
) -> Verdict
    ensures { ServerIn choices pages.now result registers.new origins.new }
{
    clear(registers, origins);
    rows_into(pages, choices, registers, origins)?;
    let checked = check_rows(registers, origins);
    if let Err(r) = checked {
        clear(registers, origins);
        return Err(r);
    }
    Ok(())
}
