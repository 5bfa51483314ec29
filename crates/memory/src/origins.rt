// Where rows came from, as numbers: the number of an entry, and an origin read back from its number.
ghost use Rattle.std.specs.Prelude.{◌≡◌, ◌+◌, ◌*◌, ◌-◌, ◌^◌, ◌<◌, ltb};
ghost use Rattle.bits.specs.Choice.{pick};
ghost use Rattle.memory.specs.Origin.{Origin, origin_number, origin_read};

pub const NONE: u64 = 0;

pub const MADE_HERE: u64 = 1;

// The origin of a row that was read from an image, which holds no origins.
pub const NOT_KNOWN: u64 = 3;

const ENTRIES_FROM: u64 = 4;

const MOST_ENTRIES: u64 = 64;

// An origin read back from its number: 0 none, 1 made here, 2 an entry, with the entry's page and its position there, 3 not known. Kept as numbers:
// C is given them as they stand.
#[derive(Clone, Copy)]
pub struct OriginRead {
    pub origin: u32,
    pub page: u64,
    pub position: u32,
}

// The number of the entry at a position of a page.
pub fn entry_number(page: usize, position: usize) -> u64
    requires { 4 + 64 * page + position < 2 ^ 64 }
    ensures { result ≡ origin_number (Origin.entry page position) }
{
    ENTRIES_FROM + MOST_ENTRIES * page as u64 + position as u64
}

// Reads an origin's number back. Page and position are worked out for every number, and are 0 below `ENTRIES_FROM`: so the compiler has no choice to
// make for each of them.
pub fn read_origin(number: u64) -> OriginRead
    ensures { result ≡ origin_read number }
{
    let place = entries_before(number);
    OriginRead {
        origin: case_of(number),
        page: place / MOST_ENTRIES,
        position: (place % MOST_ENTRIES) as u32,
    }
}

// Which of the four cases a number is.
fn case_of(number: u64) -> u32
    ensures { result ≡ pick (ltb number 4) number 2 }
{
    if number < ENTRIES_FROM {
        return number as u32;
    }
    2
}

// How many entries have lower numbers than this one's.
fn entries_before(number: u64) -> u64
    ensures { result ≡ number - 4 }
{
    if number < ENTRIES_FROM {
        return 0;
    }
    number - ENTRIES_FROM
}
