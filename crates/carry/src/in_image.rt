// Carries a running table from one edition of the AVX rule to another as its image: lent bytes become the image under the edition wanted, or a
// refusal leaves them as they were.
ghost use Rattle.std.specs.Prelude.{◌≡◌};
ghost use Rattle.carry.specs.CarryImage.{carry_image};

use crate::carry;
use image::write::write_table;
use image_read::read_image;
use masking::PLACES;
use memory::REGISTERS;
use table::Verdict;

// A table under edition `from` that is handed over as its image, taken to edition `to` in place: where it is carried, the bytes become the image of
// the table under the edition wanted, which has as many. Any other bytes, and a table that is refused, stay as they were. The answer is none if the
// bytes are no image.
pub fn carry_image(image: &mut [u8], from: u32, to: u32, xcr0: u64, xss: u64) -> Option<Verdict>
    ensures value { result ≡ (carry_image image.old from to xcr0 xss).answer }
    ensures image_after { image.new ≡ (carry_image image.old from to xcr0 xss).buffer }
{
    let mut registers: [u32; REGISTERS] = [0; REGISTERS];
    let mut origins: [u64; PLACES] = [0; PLACES];
    if read_image(image, &mut registers, &mut origins) {
        let verdict = carry(&mut registers, &origins, from, to, xcr0, xss);
        if let Err(r) = verdict {
            return Some(Err(r));
        }
        let _ = write_table(&registers, &origins, image);
        return Some(Ok(()));
    }
    None
}
