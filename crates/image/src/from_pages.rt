// Writes the image of the pages' table into a lent buffer. A refusal leaves the buffer as it was.
ghost use Rattle.std.specs.Prelude.{◌≡◌};
ghost use Rattle.image.specs.Write.{write};

use crate::write::write_rows;
use buffer::Written;
use build::build_into;
use masking::PLACES;
use memory::{REGISTERS, combined_mask};
use table::{Choices, Verdict};

// The bytes of the 26 rows that every accepted table has: 17 without a subleaf, of 21 bytes, and 9 with one, of 25.
const LEAST: usize = 582;

// Builds the table of the given pages and writes its image. Building's refusals come first, and leave the buffer as it was.
#[tactic(auto, using(crate::specs::RefusedLaws::refused_answer, crate::specs::RefusedLaws::refused_buffer, std::proofs::lemmas::Result::err_from_is_err_and))]
pub fn write_image(pages: &[u8], choices: Choices, out: &mut [u8]) -> Written
    ensures value { result ≡ (write choices pages.now out.old).answer }
    ensures out_after { out.new ≡ (write choices pages.now out.old).buffer }
{
    let mut registers: [u32; REGISTERS] = [0; REGISTERS];
    let mut origins: [u64; PLACES] = [0; PLACES];
    build_into(pages, choices, &mut registers, &mut origins)?;
    let mask = combined_mask(&registers);
    let n = LEAST + 25 * u64::count_ones(mask >> 2) as usize;
    write_rows(&registers, &origins, mask, n, out)
}
