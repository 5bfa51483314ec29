// Which bits of each register are features, and in which bits two servers must agree: two masks for each register of a place. In specs/ the join of
// two servers' entries for a pool.
#![tactic(auto)]

ghost use Rattle.std.specs.Prelude.{◌≡◌, ◌<◌};
ghost use Rattle.x86defs.specs.Functions.{cpuid_result};
ghost use Rattle.masking.specs.Kept.{places};
ghost use Rattle.finish.specs.Kinds.{kinds_at};
ghost use Rattle.register_masks.specs.RegisterMasks.{masks_of};

use masking::place;
use x86defs::CpuidResult;

// The masks of the four registers at a place.
#[derive(Clone, Copy)]
pub struct RowMasks {
    pub features: CpuidResult,
    pub agreed: CpuidResult,
}

const ALL: u32 = 0xFFFFFFFF;

// Bit 28 of 1.EDX, which is no feature.
const BIT_28: u32 = 0x10000000;

const ALL_BUT_BIT_28: u32 = 0xEFFFFFFF;

// Features of EAX, EBX, ECX and EDX, then what must agree of each.
fn masks(f0: u32, f1: u32, f2: u32, f3: u32, a0: u32, a1: u32, a2: u32, a3: u32) -> RowMasks
    ensures { result ≡ record { features = cpuid_result f0 f1 f2 f3; agreed = cpuid_result a0 a1 a2 a3 } }
{
    RowMasks {
        features: CpuidResult {
            eax: f0,
            ebx: f1,
            ecx: f2,
            edx: f3,
        },
        agreed: CpuidResult {
            eax: a0,
            ebx: a1,
            ecx: a2,
            edx: a3,
        },
    }
}

// The table: a dozen places have masks of their own, and everywhere else all bits must agree. It is a `match` since a constant array would be written
// out anew by each call. tests/gate/kinds.py writes its arms.
pub fn masks_at(place: usize) -> RowMasks
    requires { place < places }
    ensures { result ≡ masks_of (kinds_at place) }
{
    match place {
        place::VENDOR_AND_MAX_FUNCTION => masks(0, 0, 0, 0, 0, 0, 0, 0),
        place::VERSION_AND_FEATURES => masks(0, 0, ALL, ALL_BUT_BIT_28, ALL, ALL, 0, BIT_28),
        place::EXTENDED_FEATURES => masks(0, ALL, ALL, ALL, ALL, 0, 0, 0),
        place::THREAD_LEVEL => masks(0, 0, 0, 0, 0, 0, 0, 0),
        place::CORE_LEVEL => masks(0, 0, 0, 0, 0, 0, 0, 0),
        place::EXTENDED_STATE_0 => masks(ALL, 0, 0, 0, 0, ALL, 0, ALL),
        place::EXTENDED_STATE_1 => masks(ALL, 0, ALL, 0, 0, ALL, 0, ALL),
        place::EXTENDED_MAX_FUNCTION => masks(0, 0, 0, 0, 0, 0, 0, 0),
        place::EXTENDED_VERSION_AND_FEATURES => masks(0, 0, ALL, ALL, ALL, ALL, 0, 0),
        place::EXTENDED_ADDRESS_SPACE_SIZES => masks(0, ALL, 0, 0, ALL, 0, ALL, ALL),
        place::EXTENDED_OPTIMIZATION_IDENTIFIERS => masks(ALL, 0, 0, 0, 0, ALL, ALL, ALL),
        place::EXTENDED_SEV_FEATURES => masks(ALL, 0, 0, 0, 0, ALL, ALL, ALL),
        _ => masks(0, 0, 0, 0, ALL, ALL, ALL, ALL),
    }
}
