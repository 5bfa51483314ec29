// The 88 places of the kept leaves, and their masks: the place of a leaf and subleaf, and the masks of an entry's registers.
#![tactic(auto)]

ghost use Rattle.std.specs.Prelude.{◌≡◌, true, ◌+◌, ◌≤◌, ◌<◌, ltb};
ghost use Rattle.bits.specs.Choice.{pick};
ghost use Rattle.masking.specs.Kept.{places, place_of, leaf_at, indexed_at, subleaf_at};
ghost use Rattle.masking.specs.Place.{extended_max_function};
ghost use Rattle.masking.specs.Runs.{lawful_run, rows_tied};

pub mod masks;
pub mod place;
pub mod run;

pub use run::Run;
use x86defs::{CpuidFunction, leaf};

// How many places there are. `place_of` returns this number if an entry has no place.
pub const PLACES: usize = 88;

// The place of a page entry with this leaf and subleaf; 88 if the entry is filtered. `run_at` goes the other way, from a place to its run.
pub fn place_of(leaf: CpuidFunction, subleaf: u32) -> usize
    ensures value { result ≡ place_of leaf subleaf }
    ensures small { result ≤ places }
{
    let n = leaf.0;
    match n {
        leaf::VERSION_AND_FEATURES => place::VERSION_AND_FEATURES,
        leaf::MONITOR_MWAIT => place::MONITOR_MWAIT,
        leaf::EXTENDED_FEATURES => subleaf_place(run::EXTENDED_FEATURES, subleaf),
        leaf::EXTENDED_TOPOLOGY_ENUMERATION => subleaf_place(run::EXTENDED_TOPOLOGY, subleaf),
        leaf::EXTENDED_STATE_ENUMERATION => subleaf_place(run::EXTENDED_STATE, subleaf),
        leaf::EXTENDED_VERSION_AND_FEATURES..=leaf::EXTENDED_ADDRESS_SPACE_SIZES => {
            place::EXTENDED_MAX_FUNCTION + (n - leaf::EXTENDED_MAX_FUNCTION) as usize
        }
        leaf::EXTENDED_SVM_VERSION_AND_FEATURES => place::EXTENDED_SVM_VERSION_AND_FEATURES,
        leaf::EXTENDED_TLB1GB_IDENTIFIERS => place::EXTENDED_TLB1GB_IDENTIFIERS,
        leaf::EXTENDED_OPTIMIZATION_IDENTIFIERS => place::EXTENDED_OPTIMIZATION_IDENTIFIERS,
        leaf::CACHE_TOPOLOGY_DEFINITION => subleaf_place(run::CACHE_TOPOLOGY, subleaf),
        leaf::PROCESSOR_TOPOLOGY_DEFINITION => place::PROCESSOR_TOPOLOGY_DEFINITION,
        leaf::EXTENDED_SEV_FEATURES => place::EXTENDED_SEV_FEATURES,
        _ => PLACES,
    }
}

// The place of a subleaf in the run of its leaf; 88 if the run does not reach it.
fn subleaf_place(run: Run, subleaf: u32) -> usize
    requires { run.first + run.count ≤ places }
    ensures value { result ≡ pick (ltb subleaf run.count) (run.first + subleaf) places }
    ensures small { result ≤ places }
{
    if subleaf < run.count {
        run.first + subleaf as usize
    } else {
        PLACES
    }
}

// The run that a place belongs to.
pub fn run_at(place: usize) -> Run
    requires { place < places }
    ensures { (lawful_run result ≡ true) × (result.first ≤ place) × (place < result.first + result.count) × (rows_tied result ≡ true) }
{
    if place < place::EXTENDED_MAX_FUNCTION {
        return basic_run_at(place);
    }
    extended_run_at(place)
}

// The run of a place whose leaf is below 80000000h.
fn basic_run_at(place: usize) -> Run
    requires { place < extended_max_function }
    ensures { (lawful_run result ≡ true) × (result.first ≤ place) × (place < result.first + result.count) × (rows_tied result ≡ true) }
{
    if place < place::MONITOR_MWAIT {
        run::BASIC
    } else if place < place::EXTENDED_FEATURES {
        run::MONITOR_MWAIT
    } else if place < place::THREAD_LEVEL {
        run::EXTENDED_FEATURES
    } else if place < place::EXTENDED_STATE_0 {
        run::EXTENDED_TOPOLOGY
    } else {
        run::EXTENDED_STATE
    }
}

// The run of a place whose leaf is 80000000h or above.
fn extended_run_at(place: usize) -> Run
    requires { (extended_max_function ≤ place) × (place < places) }
    ensures { (lawful_run result ≡ true) × (result.first ≤ place) × (place < result.first + result.count) × (rows_tied result ≡ true) }
{
    if place < place::EXTENDED_SVM_VERSION_AND_FEATURES {
        run::EXTENDED
    } else if place < place::EXTENDED_TLB1GB_IDENTIFIERS {
        run::SVM
    } else if place < place::CACHE_TOPOLOGY_0 {
        run::TLB_AND_OPTIMIZATION
    } else if place < place::PROCESSOR_TOPOLOGY_DEFINITION {
        run::CACHE_TOPOLOGY
    } else {
        run::PROCESSOR_TOPOLOGY_AND_SEV
    }
}

// The leaf of a place.
pub fn leaf_at(place: usize) -> CpuidFunction
    requires { place < places }
    ensures { result ≡ leaf_at place }
{
    let run = run_at(place);
    let leaf = run.leaf;
    if run.indexed {
        leaf
    } else {
        CpuidFunction(leaf.0 + (place - run.first) as u32)
    }
}

// Whether the row of a place carries a subleaf.
pub fn indexed_at(place: usize) -> bool
    requires { place < places }
    ensures { result ≡ indexed_at place }
{
    run_at(place).indexed
}

// The subleaf of a place; 0 if its row carries none.
pub fn subleaf_at(place: usize) -> u32
    requires { place < places }
    ensures { result ≡ subleaf_at place }
{
    let run = run_at(place);
    if run.indexed {
        (place - run.first) as u32
    } else {
        0
    }
}
