// The layout of the 88 places: ten runs, each of which begins where the one before it ends. specs/Runs.antt ties them to the table of kept leaves.
use crate::masks::KEPT_LEAVES;
use crate::place;
use x86defs::CpuidFunction;

// A run of `count` places from `first` on. An indexed run has the subleaves of `leaf` from 0 on, any other run the leaves from `leaf` on. The
// first place has its row `row` in the table of kept leaves, which names its leaf and whether that has subleaves; each next place has the next row,
// but none has a row after `last_row`.
#[derive(Clone, Copy)]
pub struct Run {
    pub first: usize,
    pub count: u32,
    pub leaf: CpuidFunction,
    pub indexed: bool,
    pub row: usize,
    pub last_row: usize,
}

pub const BASIC: Run = Run {
    first: place::VENDOR_AND_MAX_FUNCTION,
    count: 2,
    leaf: CpuidFunction(KEPT_LEAVES[0].leaf.0),
    indexed: KEPT_LEAVES[0].subleaf,
    row: 0,
    last_row: 1,
};

pub const MONITOR_MWAIT: Run = Run {
    first: place::MONITOR_MWAIT,
    count: 1,
    leaf: CpuidFunction(KEPT_LEAVES[2].leaf.0),
    indexed: KEPT_LEAVES[2].subleaf,
    row: 2,
    last_row: 2,
};

pub const EXTENDED_FEATURES: Run = Run {
    first: place::EXTENDED_FEATURES,
    count: 1,
    leaf: CpuidFunction(KEPT_LEAVES[3].leaf.0),
    indexed: KEPT_LEAVES[3].subleaf,
    row: 3,
    last_row: 3,
};

pub const EXTENDED_TOPOLOGY: Run = Run {
    first: place::THREAD_LEVEL,
    count: 2,
    leaf: CpuidFunction(KEPT_LEAVES[4].leaf.0),
    indexed: KEPT_LEAVES[4].subleaf,
    row: 4,
    last_row: 4,
};

pub const EXTENDED_STATE: Run = Run {
    first: place::EXTENDED_STATE_0,
    count: 64,
    leaf: CpuidFunction(KEPT_LEAVES[5].leaf.0),
    indexed: KEPT_LEAVES[5].subleaf,
    row: 5,
    last_row: 7,
};

pub const EXTENDED: Run = Run {
    first: place::EXTENDED_MAX_FUNCTION,
    count: 9,
    leaf: CpuidFunction(KEPT_LEAVES[8].leaf.0),
    indexed: KEPT_LEAVES[8].subleaf,
    row: 8,
    last_row: 16,
};

pub const SVM: Run = Run {
    first: place::EXTENDED_SVM_VERSION_AND_FEATURES,
    count: 1,
    leaf: CpuidFunction(KEPT_LEAVES[17].leaf.0),
    indexed: KEPT_LEAVES[17].subleaf,
    row: 17,
    last_row: 17,
};

pub const TLB_AND_OPTIMIZATION: Run = Run {
    first: place::EXTENDED_TLB1GB_IDENTIFIERS,
    count: 2,
    leaf: CpuidFunction(KEPT_LEAVES[18].leaf.0),
    indexed: KEPT_LEAVES[18].subleaf,
    row: 18,
    last_row: 19,
};

pub const CACHE_TOPOLOGY: Run = Run {
    first: place::CACHE_TOPOLOGY_0,
    count: 4,
    leaf: CpuidFunction(KEPT_LEAVES[20].leaf.0),
    indexed: KEPT_LEAVES[20].subleaf,
    row: 20,
    last_row: 20,
};

pub const PROCESSOR_TOPOLOGY_AND_SEV: Run = Run {
    first: place::PROCESSOR_TOPOLOGY_DEFINITION,
    count: 2,
    leaf: CpuidFunction(KEPT_LEAVES[21].leaf.0),
    indexed: KEPT_LEAVES[21].subleaf,
    row: 21,
    last_row: 22,
};

// All runs in their order, for a walk over the places.
pub const RUNS: [Run; 10] = [
    BASIC,
    MONITOR_MWAIT,
    EXTENDED_FEATURES,
    EXTENDED_TOPOLOGY,
    EXTENDED_STATE,
    EXTENDED,
    SVM,
    TLB_AND_OPTIMIZATION,
    CACHE_TOPOLOGY,
    PROCESSOR_TOPOLOGY_AND_SEV,
];
