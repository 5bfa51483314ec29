// Writes the image of a pool's table into a lent buffer, from the servers' page sets and their lengths. A refusal leaves the buffer as it was.
ghost use Rattle.std.specs.Prelude.{◌≡◌};
ghost use Rattle.pool.specs.WritePool.{write_pool};

use crate::pool_into;
use buffer::Written;
use image::write::write_table;
use masking::PLACES;
use memory::REGISTERS;
use table::{Choices, Verdict};

// The pool's refusals come first, and leave the buffer as it was.
#[tactic(auto, using(crate::specs::RefusedLaws::refused_answer, crate::specs::RefusedLaws::refused_buffer, std::proofs::lemmas::Result::err_from_is_err_and))]
pub fn write_pool_image(pages: &[u8], lengths: &[u64], choices: Choices, out: &mut [u8]) -> Written
    ensures value { result ≡ (write_pool choices pages.now lengths.now out.old).answer }
    ensures out_after { out.new ≡ (write_pool choices pages.now lengths.now out.old).buffer }
{
    let mut registers: [u32; REGISTERS] = [0; REGISTERS];
    let mut origins: [u64; PLACES] = [0; PLACES];
    let pooled = pool_into(pages, lengths, choices, &mut registers, &mut origins);
    pooled.verdict?;
    write_table(&registers, &origins, out)
}
