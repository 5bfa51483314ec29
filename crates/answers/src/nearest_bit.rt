// The nearest bit as C and Rust are given it (document 02, P13): a struct of plain numbers.
ghost use Rattle.std.specs.Prelude.{◌≡◌};
ghost use Rattle.answers.specs.NearestAnswers.{nearest_numbers};

use nearest::flips::Flip;
use table::Refusal;
use table::numbers::AnswerNumbers;

#[repr(C)]
#[derive(Clone, Copy)]
pub struct SnpCpuidNearest {
    pub number: u32,
    pub leaf: u32,
    pub has_subleaf: u32,
    pub subleaf: u32,
    pub s: u32,
    pub entry: u32,
    pub page: u64,
    pub register_index: u32,
    pub bit: u32,
}

// The answer as numbers.
impl From<Result<Flip, Refusal>> for SnpCpuidNearest {
    ghost from_gives = { λ answer result. result ≡ nearest_numbers answer };

    fn from(answer: Result<Flip, Refusal>) -> Self {
        match answer {
            Ok(flip) => SnpCpuidNearest {
                number: 0,
                leaf: 0,
                has_subleaf: 0,
                subleaf: 0,
                s: 0,
                entry: flip.entry,
                page: flip.page as u64,
                register_index: flip.register,
                bit: flip.bit,
            },
            Err(refusal) => {
                let numbers = AnswerNumbers::from(refusal);
                SnpCpuidNearest {
                    number: numbers.number as u32,
                    leaf: numbers.leaf,
                    has_subleaf: numbers.has_subleaf,
                    subleaf: numbers.subleaf,
                    s: numbers.s as u32,
                    entry: 0,
                    page: 0,
                    register_index: 0,
                    bit: 0,
                }
            }
        }
    }
}
