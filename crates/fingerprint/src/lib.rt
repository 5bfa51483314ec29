// The fingerprint of a table in lent memory: the SHA-256 of its image, 32 bytes.
#![tactic(auto)]

ghost use Rattle.std.specs.Prelude.{◌≡◌};
ghost use Rattle.memory.specs.Held.{held_in};
ghost use Rattle.fingerprint.specs.Fingerprint.{fingerprint};

use image::image_length;
use image::write::write_table;
use masking::PLACES;
use memory::REGISTERS;
use sha256::sha256;

// Room for the image of a table of any content: 17 rows without a subleaf, of 21 bytes, and 71 with one, of 25.
const ROOM: usize = 2132;

// The fingerprint of a table of any content.
pub fn fingerprint(registers: &[u32; REGISTERS], origins: &[u64; PLACES], digest: &mut [u8; 32])
    ensures { digest.new ≡ fingerprint (held_in registers.now origins.now) }
{
    let mut bytes = [0u8; ROOM];
    let n = image_length(origins);
    let _ = write_table(registers, origins, &mut bytes);
    sha256(&bytes[..n], digest);
}
