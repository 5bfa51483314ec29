// The image of a table: writes the table's bytes into a lent buffer, from pages or from a table in lent memory. A refusal leaves the buffer as it
// was.
#![tactic(auto)]

ghost use Rattle.std.specs.Prelude.{◌≡◌, List, ℕ, ◌+◌, ◌≤◌, length};
ghost use Rattle.masking.specs.Kept.{places};
ghost use Rattle.memory.specs.Held.{held_in, flags};
ghost use Rattle.image.specs.Image.{image};
ghost use Rattle.image.specs.ImagePieces.{rows_among};
ghost use Rattle.image.specs.Components.{Components};

use masking::{PLACES, place};
use memory::is_there;

pub mod from_pages;
pub mod write;

// The first place of a leaf from 80000000h on.
const EXTENDED: usize = place::EXTENDED_MAX_FUNCTION;

// The first place of a component. Components are the subleaves of leaf Dh from 2 up.
const COMPONENTS: usize = place::EXTENDED_STATE_0 + 2;

// How many bytes the image of a table has.
pub fn image_length(origins: &[u64; PLACES]) -> usize
    ensures { (w : List ℕ) → result ≡ length (image (held_in w origins.now)) }
{
    length_with(origins, components_there(origins))
}

// The same where it is known which components have a row: 25 bytes for a row with a subleaf, 21 for one without.
pub fn length_with(origins: &[u64; PLACES], components: u64) -> usize
    requires { Components origins.now components }
    ensures { (w : List ℕ) → result ≡ length (image (held_in w origins.now)) }
{
    let whole = rows_among(
        origins,
        place::VENDOR_AND_MAX_FUNCTION,
        place::EXTENDED_FEATURES,
    ) + rows_among(origins, EXTENDED, place::CACHE_TOPOLOGY_0)
        + rows_among(origins, place::PROCESSOR_TOPOLOGY_DEFINITION, PLACES);
    let indexed = rows_among(origins, place::EXTENDED_FEATURES, COMPONENTS)
        + rows_among(
            origins,
            place::CACHE_TOPOLOGY_0,
            place::PROCESSOR_TOPOLOGY_DEFINITION,
        );
    21 * whole as usize + 25 * (indexed as usize + u64::count_ones(components >> 2) as usize)
}

// Which components have a row: bit k for subleaf k of leaf Dh. Bits 0 and 1 tell of subleaves 0 and 1, which are no components.
pub fn components_there(origins: &[u64; PLACES]) -> u64
    ensures { Components origins.now result }
{
    let mut components: u64 = 0;
    for k in (0..64).rev() {
        let origin = origins[place::EXTENDED_STATE_0 + k];
        components = 2 * components + is_there(origin) as u64;
    }
    components
}

// How many of the places from `first` up to `end` have a row. The count is a byte, so that many can be added at once.
pub fn rows_among(origins: &[u64; PLACES], first: usize, end: usize) -> u8
    requires { (first ≤ end) × (end ≤ places) }
    ensures { (result ≡ rows_among (flags origins.now) first end) × (result + first ≤ end) }
{
    let mut n = 0;
    for i in first..end {
        n += u8::from(is_there(origins[i]));
    }
    n
}
