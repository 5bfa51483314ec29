// The masks of every kept leaf, as one constant table. `mask_row` gives the row of a place, and `apply_mask` masks an entry's registers by a row.
ghost use Rattle.std.specs.Prelude.{◌≡◌, ◌+◌, ◌-◌, ◌≤◌, ◌<◌, min};
ghost use Rattle.masking.specs.Masks.{secure_avic_mask, apply_mask};
ghost use Rattle.masking.specs.Kept.{places};
ghost use Rattle.masking.specs.MaskTable.{rows, table, masks_of, row_of_place};

use crate::{Run, place, run};
use x86defs::{CpuidFunction, CpuidResult, leaf};

// One row of the table: a leaf, its four masks, and whether the leaf has subleaves. Leaf Dh has three rows, for subleaf 0, for subleaf 1,
// and for subleaves 2 to 63.
#[derive(Clone, Copy)]
pub struct KeptLeaf {
    pub leaf: CpuidFunction,
    pub eax: u32,
    pub ebx: u32,
    pub ecx: u32,
    pub edx: u32,
    pub subleaf: bool,
}

// The bit that the secure-AVIC choice adds to the mask of 8000001Fh.EAX.
pub const SECURE_AVIC: u32 = 0x0400_0000;

// The last row of each stretch of places whose rows rise by one; the last of all is that of 8000001Fh. They are numbers and no fields of a `Run`
// where code compares them: a field of a constant struct has the whole struct written out at each use, which the check of the function pays for.
const TOPOLOGY_ROW: usize = run::EXTENDED_TOPOLOGY.last_row;

const STATE_ROW: usize = run::EXTENDED_STATE.last_row;

const CACHE_ROW: usize = run::CACHE_TOPOLOGY.last_row;

const SEV_ROW: usize = run::PROCESSOR_TOPOLOGY_AND_SEV.last_row;

// The table for a secure-AVIC choice. Call this once for all entries: the compiler writes the whole table out at each call.
pub fn kept_leaves(secure_avic: bool) -> [KeptLeaf; 23]
    ensures { result ≡ table secure_avic }
{
    let mut kept = KEPT_LEAVES;
    kept[SEV_ROW].eax = kept[SEV_ROW].eax | secure_avic_mask(secure_avic);
    kept
}

// What the secure-AVIC choice adds to the mask of 8000001Fh.EAX.
fn secure_avic_mask(secure_avic: bool) -> u32
    ensures { result ≡ secure_avic_mask secure_avic }
{
    if secure_avic { SECURE_AVIC } else { 0 }
}

// The row of the table that has the masks of a place. Each next place has the next row, but subleaves of one leaf share a row: B.0 and B.1,
// D.2 to D.63, 8000001Dh.0 to 8000001Dh.3.
pub fn mask_row(place: usize) -> usize
    requires { place < places }
    ensures value { result ≡ row_of_place place }
    ensures small { result < rows }
{
    if place < place::EXTENDED_STATE_0 {
        return row_from(run::BASIC, place, TOPOLOGY_ROW);
    }
    if place < place::EXTENDED_MAX_FUNCTION {
        return row_from(run::EXTENDED_STATE, place, STATE_ROW);
    }
    if place < place::PROCESSOR_TOPOLOGY_DEFINITION {
        return row_from(run::EXTENDED, place, CACHE_ROW);
    }
    row_from(run::PROCESSOR_TOPOLOGY_AND_SEV, place, SEV_ROW)
}

// The row of a place, counted from the first place and the first row of `run`; `last` if that is less. The place may belong to a later run.
fn row_from(run: Run, place: usize, last: usize) -> usize
    requires { (run.first ≤ place) × (place < places) × (run.row < rows) }
    ensures { result ≡ min (run.row + (place - run.first)) last }
{
    let row = run.row + (place - run.first);
    row.min(last)
}

// The bitwise and of each register with its mask.
pub fn apply_mask(m: KeptLeaf, r: CpuidResult) -> CpuidResult
    ensures { result ≡ apply_mask (masks_of m) r }
{
    CpuidResult {
        eax: r.eax & m.eax,
        ebx: r.ebx & m.ebx,
        ecx: r.ecx & m.ecx,
        edx: r.edx & m.edx,
    }
}

// The table of kept leaves (document 01, "Corners of masking.rs"). The contract of `kept_leaves` says that each mask is the one that
// specs/Masks.antt builds from named bits and fields.
const ONES: u32 = 0xFFFF_FFFF;

pub const KEPT_LEAVES: [KeptLeaf; 23] = [
    // the builder makes this row; no page entry is kept for it
    KeptLeaf {
        leaf: CpuidFunction(leaf::VENDOR_AND_MAX_FUNCTION),
        eax: 0,
        ebx: 0,
        ecx: 0,
        edx: 0,
        subleaf: false,
    },
    KeptLeaf {
        leaf: CpuidFunction(leaf::VERSION_AND_FEATURES),
        eax: 0x0FFF_3FFF,
        ebx: ONES,
        ecx: 0x7EDA_3203,
        edx: 0x178B_FBFF,
        subleaf: false,
    },
    KeptLeaf {
        leaf: CpuidFunction(leaf::MONITOR_MWAIT),
        eax: ONES,
        ebx: ONES,
        ecx: ONES,
        edx: ONES,
        subleaf: false,
    },
    KeptLeaf {
        leaf: CpuidFunction(leaf::EXTENDED_FEATURES),
        eax: ONES,
        ebx: 0xF1BF_27A9,
        ecx: 0x1A40_5FE6,
        edx: 0x0080_4110,
        subleaf: true,
    },
    KeptLeaf {
        leaf: CpuidFunction(leaf::EXTENDED_TOPOLOGY_ENUMERATION),
        eax: ONES,
        ebx: ONES,
        ecx: ONES,
        edx: ONES,
        subleaf: true,
    },
    // subleaf 0
    KeptLeaf {
        leaf: CpuidFunction(leaf::EXTENDED_STATE_ENUMERATION),
        eax: 0x0000_00E7,
        ebx: ONES,
        ecx: ONES,
        edx: 0,
        subleaf: true,
    },
    // subleaf 1
    KeptLeaf {
        leaf: CpuidFunction(leaf::EXTENDED_STATE_ENUMERATION),
        eax: 0x0000_000B,
        ebx: ONES,
        ecx: 0x0000_1800,
        edx: 0,
        subleaf: true,
    },
    // subleaves 2 to 63
    KeptLeaf {
        leaf: CpuidFunction(leaf::EXTENDED_STATE_ENUMERATION),
        eax: ONES,
        ebx: ONES,
        ecx: ONES,
        edx: ONES,
        subleaf: true,
    },
    // the builder makes this row; no page entry is kept for it
    KeptLeaf {
        leaf: CpuidFunction(leaf::EXTENDED_MAX_FUNCTION),
        eax: 0,
        ebx: 0,
        ecx: 0,
        edx: 0,
        subleaf: false,
    },
    // the masks of masking.rs and of snp.rs, joined by or
    KeptLeaf {
        leaf: CpuidFunction(leaf::EXTENDED_VERSION_AND_FEATURES),
        eax: 0x0FFF_3FFF,
        ebx: 0xF000_FFFF,
        ecx: 0x0041_0DF3,
        edx: 0xEFD3_FBFF,
        subleaf: false,
    },
    KeptLeaf {
        leaf: CpuidFunction(leaf::EXTENDED_BRANDING_STRING_1),
        eax: ONES,
        ebx: ONES,
        ecx: ONES,
        edx: ONES,
        subleaf: false,
    },
    KeptLeaf {
        leaf: CpuidFunction(leaf::EXTENDED_BRANDING_STRING_2),
        eax: ONES,
        ebx: ONES,
        ecx: ONES,
        edx: ONES,
        subleaf: false,
    },
    KeptLeaf {
        leaf: CpuidFunction(leaf::EXTENDED_BRANDING_STRING_3),
        eax: ONES,
        ebx: ONES,
        ecx: ONES,
        edx: ONES,
        subleaf: false,
    },
    KeptLeaf {
        leaf: CpuidFunction(leaf::EXTENDED_L1_CACHE_PARAMETERS),
        eax: ONES,
        ebx: ONES,
        ecx: ONES,
        edx: ONES,
        subleaf: false,
    },
    KeptLeaf {
        leaf: CpuidFunction(leaf::EXTENDED_L2_CACHE_PARAMETERS),
        eax: ONES,
        ebx: ONES,
        ecx: ONES,
        edx: ONES,
        subleaf: false,
    },
    KeptLeaf {
        leaf: CpuidFunction(leaf::EXTENDED_POWER_MANAGEMENT),
        eax: ONES,
        ebx: ONES,
        ecx: ONES,
        edx: ONES,
        subleaf: false,
    },
    // the masks of masking.rs and of snp.rs, joined by or
    KeptLeaf {
        leaf: CpuidFunction(leaf::EXTENDED_ADDRESS_SPACE_SIZES),
        eax: 0x0000_FFFF,
        ebx: 0x3112_D21F,
        ecx: 0x0000_F0FF,
        edx: ONES,
        subleaf: false,
    },
    KeptLeaf {
        leaf: CpuidFunction(leaf::EXTENDED_SVM_VERSION_AND_FEATURES),
        eax: 0x0000_00FF,
        ebx: 0,
        ecx: 0,
        edx: 0,
        subleaf: false,
    },
    KeptLeaf {
        leaf: CpuidFunction(leaf::EXTENDED_TLB1GB_IDENTIFIERS),
        eax: ONES,
        ebx: ONES,
        ecx: 0,
        edx: 0,
        subleaf: false,
    },
    KeptLeaf {
        leaf: CpuidFunction(leaf::EXTENDED_OPTIMIZATION_IDENTIFIERS),
        eax: 0x0000_0007,
        ebx: 0,
        ecx: 0,
        edx: 0,
        subleaf: false,
    },
    KeptLeaf {
        leaf: CpuidFunction(leaf::CACHE_TOPOLOGY_DEFINITION),
        eax: ONES,
        ebx: ONES,
        ecx: ONES,
        edx: ONES,
        subleaf: true,
    },
    KeptLeaf {
        leaf: CpuidFunction(leaf::PROCESSOR_TOPOLOGY_DEFINITION),
        eax: ONES,
        ebx: ONES,
        ecx: ONES,
        edx: 0,
        subleaf: false,
    },
    // without the secure-AVIC bit, which `kept_leaves` adds
    KeptLeaf {
        leaf: CpuidFunction(leaf::EXTENDED_SEV_FEATURES),
        eax: 0x0000_027F,
        ebx: 0x0000_FFFF,
        ecx: ONES,
        edx: ONES,
        subleaf: false,
    },
];
