// Editions of the AVX rule (document 02, P7): which there are, and the bits that each further edition clears without YMM state.
ghost use Rattle.std.specs.Prelude.{◌≡◌};
ghost use Rattle.table.specs.Edition.{known_edition, bits_between, joined};
ghost use Rattle.table.specs.declared.edition.EditionBits.{EditionBits};

const EDITIONS: u32 = 2;

// Edition 2: F16C of 1.ECX; XOP and FMA4 of 80000001h.ECX.
const EDITION_2: EditionBits = EditionBits {
    version_ecx: 0x20000000,
    extended_version_ecx: 0x10800,
};

// Whether there is such an edition; where there is none, that is refusal 15.
pub fn known_edition(edition: u32) -> bool
    ensures { result ≡ known_edition edition }
{
    (1 <= edition) & (edition <= EDITIONS)
}

// Bits of 1.ECX and of 80000001h.ECX, as masks.
#[derive(Clone, Copy)]
pub struct EditionBits {
    pub version_ecx: u32,
    pub extended_version_ecx: u32,
}

impl EditionBits {
    // The bits that edition `to` clears and edition `from` leaves.
    pub fn between(from: u32, to: u32) -> Self
        ensures { result ≡ bits_between from to }
    {
        let none = Self {
            version_ecx: 0,
            extended_version_ecx: 0,
        };
        none.with((from < 2) & (2 <= to), EDITION_2)
    }

    // These bits, and those of an edition where it is asked for.
    fn with(self, asked: bool, row: EditionBits) -> Self
        ensures { result ≡ joined self asked row }
    {
        if asked {
            return Self {
                version_ecx: self.version_ecx | row.version_ecx,
                extended_version_ecx: self.extended_version_ecx | row.extended_version_ecx,
            };
        }
        self
    }
}
