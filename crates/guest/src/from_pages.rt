// What one processor's guest sees of a page set: building's refusal, the guest's refusal, or the guest's table, in lent memory or as an image.
ghost use Rattle.std.specs.Prelude.{◌≡◌};
ghost use Rattle.build.specs.Build.{answer};
ghost use Rattle.guest.specs.Seen.{SeenIn};
ghost use Rattle.guest.specs.GuestPages.{guest_pages, write_guest};

use crate::{Processor, guest_table};
use buffer::Written;
use build::build_into;
use image::write::write_table;
use masking::PLACES;
use memory::{REGISTERS, clear};
use table::{Choices, Verdict};

// Builds the table of the given pages into lent memory, and makes it what the processor's guest sees. A refusal leaves the memory cleared.
pub fn guest_pages(
    pages: &[u8],
    choices: Choices,
    processor: Processor,
    registers: &mut [u32; REGISTERS],
    origins: &mut [u64; PLACES],
) -> Verdict
    ensures { SeenIn (guest_pages choices pages.now processor)
        (answer choices pages.now).origins result registers.new origins.new }
{
    clear(registers, origins);
    build_into(pages, choices, registers, origins)?;
    guest_table(registers, origins, processor)
}

// The same as an image at the front of `out`. A refusal leaves the buffer as it was.
pub fn write_guest_image(
    pages: &[u8],
    choices: Choices,
    processor: Processor,
    out: &mut [u8],
) -> Written
    ensures value { result ≡ (write_guest choices pages.now processor out.old).answer }
    ensures out_after { out.new ≡ (write_guest choices pages.now processor out.old).buffer }
{
    let mut registers: [u32; REGISTERS] = [0; REGISTERS];
    let mut origins: [u64; PLACES] = [0; PLACES];
    guest_pages(pages, choices, processor, &mut registers, &mut origins)?;
    write_table(&registers, &origins, out)
}
