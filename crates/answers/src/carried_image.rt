// A carried image's answer as C and Rust are given it (document 02, P8): a struct of plain numbers.
ghost use Rattle.std.specs.Prelude.{◌≡◌};
ghost use Rattle.answers.specs.CarriedAnswers.{carried_numbers};

use table::Verdict;
use table::numbers::AnswerNumbers;

#[repr(C)]
#[derive(Clone, Copy)]
pub struct SnpCpuidCarried {
    pub is_image: u32,
    pub number: u32,
}

// What carrying an image answers, as numbers.
impl From<Option<Verdict>> for SnpCpuidCarried {
    ghost from_gives = { λ answer result. result ≡ carried_numbers answer };

    fn from(answer: Option<Verdict>) -> Self {
        match answer {
            None => SnpCpuidCarried {
                is_image: 0,
                number: 0,
            },
            Some(verdict) => {
                let numbers = AnswerNumbers::from(verdict);
                SnpCpuidCarried {
                    is_image: 1,
                    number: numbers.number as u32,
                }
            }
        }
    }
}
