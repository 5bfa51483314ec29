// An answer as plain numbers: document 01's number and details of a verdict, for callers in C and for the program.
ghost use Rattle.std.specs.Prelude.{◌≡◌};
ghost use Rattle.table.specs.Numbers.{numbers_of, topology_numbers, leaf_numbers, refusal_numbers};

use crate::{Refusal, Verdict};
use topology::TopologyError;

// Number 0 means accepted. A leaf, subleaf or s that the number does not name is 0; `has_subleaf` is 1 if a subleaf is named. Kept as a flag and
// a number: C is given them as they stand.
#[derive(Clone, Copy, PartialEq, Eq)]
pub struct AnswerNumbers {
    pub number: u8,
    pub leaf: u32,
    pub has_subleaf: u32,
    pub subleaf: u32,
    pub s: u8,
}

// A number by itself, or with s.
fn with_s(number: u8, s: u8) -> AnswerNumbers
    ensures { result ≡ record { number = number; leaf = 0; has_subleaf = 0; subleaf = 0; s = s } }
{
    AnswerNumbers {
        number,
        leaf: 0,
        has_subleaf: 0,
        subleaf: 0,
        s,
    }
}

impl From<TopologyError> for AnswerNumbers {
    ghost from_gives = { λ e result. result ≡ topology_numbers e };

    fn from(e: TopologyError) -> Self {
        match e {
            TopologyError::Hyperthreading(s) => with_s(6, s),
            TopologyError::ProcessorCount(s) => with_s(7, s),
            TopologyError::ThreadsPerUnit => with_s(8, 0),
        }
    }
}

// A number with a leaf and its subleaf.
pub fn at_leaf(number: u8, leaf: u32, subleaf: Option<u32>) -> AnswerNumbers
    ensures { result ≡ leaf_numbers number leaf subleaf }
{
    match subleaf {
        None => AnswerNumbers {
            number,
            leaf,
            has_subleaf: 0,
            subleaf: 0,
            s: 0,
        },
        Some(k) => AnswerNumbers {
            number,
            leaf,
            has_subleaf: 1,
            subleaf: k,
            s: 0,
        },
    }
}

// Document 01's number and details of a refusal.
impl From<Refusal> for AnswerNumbers {
    ghost from_gives = { λ refusal result. result ≡ refusal_numbers refusal };

    fn from(refusal: Refusal) -> Self {
        match refusal {
            Refusal::PagesLength => with_s(1, 0),
            Refusal::PageCount => with_s(2, 0),
            Refusal::MissingRequiredResult(leaf, subleaf) => at_leaf(3, leaf.0, subleaf),
            Refusal::InvlpgbUnavailable => with_s(4, 0),
            Refusal::SaveAreaOverflow => with_s(5, 0),
            Refusal::TopologyInconsistent(e) => AnswerNumbers::from(e),
            Refusal::BufferTooShort => with_s(9, 0),
            Refusal::ListLength => with_s(10, 0),
            Refusal::ListRows => with_s(11, 0),
            Refusal::ListFields => with_s(12, 0),
            Refusal::StateBeyondTable => with_s(13, 0),
            Refusal::CompactSizeTooLarge => with_s(14, 0),
            Refusal::UnknownEdition => with_s(15, 0),
            Refusal::EditionBack => with_s(16, 0),
            Refusal::ReservedBytes(leaf) => at_leaf(17, leaf.0, None),
            Refusal::PoolSets => with_s(18, 0),
            Refusal::PoolDiffers => with_s(19, 0),
            Refusal::NothingDecides => with_s(20, 0),
        }
    }
}

// The same of a verdict: number 0 where it is accepted.
impl From<Verdict> for AnswerNumbers {
    ghost from_gives = { λ verdict result. result ≡ numbers_of verdict };

    fn from(verdict: Verdict) -> Self {
        match verdict {
            Ok(()) => with_s(0, 0),
            Err(refusal) => AnswerNumbers::from(refusal),
        }
    }
}
