// The words of an answer: the caller's choices, refusals, the verdict and the table; and a verdict's number and details as plain numbers.
#![tactic(auto)]

ghost use Rattle.std.specs.Prelude.{◌≡◌};
ghost use Rattle.table.specs.Numbers.{subleaf_of};
ghost use Rattle.table.specs.declared.Refusal.TheVariants.{TopologyInconsistent};

use masking::PLACES;
use topology::TopologyError;
use x86defs::{CpuidFunction, CpuidResult};

pub mod edition;
pub mod numbers;

// What a caller chooses: whether secure AVIC is kept (document 01, "Corners of masking.rs"), and the edition of the AVX rule (document 02, P7).
#[derive(Clone, Copy)]
pub struct Choices {
    pub secure_avic: bool,
    pub edition: u32,
}

// The subleaf that is named, or none.
pub fn subleaf_of(named: bool, number: u32) -> Option<u32>
    ensures { result ≡ subleaf_of named number }
{
    named.then_some(number)
}

// Why no table is given, or no answer from one. specs/Refusal.antt has the number and the details of each.
#[derive(Clone, Copy)]
pub enum Refusal {
    PagesLength,
    PageCount,
    MissingRequiredResult(CpuidFunction, Option<u32>),
    InvlpgbUnavailable,
    SaveAreaOverflow,
    TopologyInconsistent(TopologyError),
    BufferTooShort,
    ListLength,
    ListRows,
    ListFields,
    StateBeyondTable,
    CompactSizeTooLarge,
    UnknownEdition,
    EditionBack,
    ReservedBytes(CpuidFunction),
    PoolSets,
    PoolDiffers,
    NothingDecides,
}

impl From<TopologyError> for Refusal {
    ghost from_gives = { λ e result. result ≡ TopologyInconsistent e };

    fn from(e: TopologyError) -> Self {
        Refusal::TopologyInconsistent(e)
    }
}

// Accepted, or refused by the first check that fails.
pub type Verdict = Result<(), Refusal>;

// A table: which of the 88 places have a row, the rows' registers, how many rows there are, and the combined mask.
#[derive(Clone, Copy)]
pub struct CpuidResults {
    pub present: [bool; PLACES],
    pub results: [CpuidResult; PLACES],
    pub row_count: usize,
    pub max_extended_state: u64,
}
