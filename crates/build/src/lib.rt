// Building: from pages and the caller's choices one table with its origins, in lent memory, or one refusal. `rows_into` is the first half of it, from
// pages to rows.
#![tactic(auto)]

ghost use Rattle.memory.specs.Memory.{Cleared};
ghost use Rattle.build.specs.Build.{answer, FrontIn, InMemory};

use collect::walk_pages;
use masking::PLACES;
use memory::{REGISTERS, clear};
use rows::finish_rows;
use table::edition::known_edition;
use table::{Choices, CpuidResults, Refusal, Verdict};

// The answer of the definition, specs/Build.antt: the verdict, the table, and where each row came from (document 02, P11), by the numbers of
// `memory::origins`. Kept as values beside a verdict: theorems speak of the table of a refusal, too, which has no rows.
#[derive(Clone, Copy)]
pub struct Built {
    pub verdict: Verdict,
    pub table: CpuidResults,
    pub origins: [u64; PLACES],
}

// The way in for all that starts from pages: refusal 15, 1, 2 or 17, or the masked first entries and where each stands. The memory comes without
// rows, and a refusal leaves it so.
pub fn rows_into(
    pages: &[u8],
    choices: Choices,
    registers: &mut [u32; REGISTERS],
    origins: &mut [u64; PLACES],
) -> Verdict
    requires { Cleared registers.old origins.old }
    ensures { FrontIn choices pages.now result registers.new origins.new }
{
    if known_edition(choices.edition) {
        return walk_pages(pages, choices.secure_avic, registers, origins);
    }
    Err(Refusal::UnknownEdition)
}

// Pages of any length, count and content, into memory that comes without rows: one table with its origins; or one refusal, and the memory is without
// rows again.
pub fn build_into(
    pages: &[u8],
    choices: Choices,
    registers: &mut [u32; REGISTERS],
    origins: &mut [u64; PLACES],
) -> Verdict
    requires { Cleared registers.old origins.old }
    ensures { InMemory (answer choices pages.now) result registers.new origins.new }
{
    rows_into(pages, choices, registers, origins)?;
    let verdict = finish_rows(registers, origins, choices.edition);
    if let Err(r) = verdict {
        clear(registers, origins);
        return Err(r);
    }
    Ok(())
}
