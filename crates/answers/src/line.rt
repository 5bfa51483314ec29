// Lines of refusals as C and Rust are given them: what writing and reading one answers, as structs of plain numbers.
ghost use Rattle.std.specs.Prelude.{◌≡◌};
ghost use Rattle.answers.specs.LineAnswers.{line_written_numbers, line_read_numbers};

use crate::SnpCpuidWritten;
use buffer::Written;
use lines::bytes::LineDetails;

#[repr(C)]
#[derive(Clone, Copy)]
pub struct SnpCpuidLineWritten {
    pub is_line: u32,
    pub number: u32,
    pub length: u64,
}

#[repr(C)]
#[derive(Clone, Copy)]
pub struct SnpCpuidLineRead {
    pub is_line: u32,
    pub number: u32,
    pub leaf: u32,
    pub has_subleaf: u32,
    pub subleaf: u32,
    pub s: u32,
}

// A line's answer in writing as numbers.
impl From<Option<Written>> for SnpCpuidLineWritten {
    ghost from_gives = { λ answer result. result ≡ line_written_numbers answer };

    fn from(answer: Option<Written>) -> Self {
        match answer {
            Some(written) => {
                let numbers = SnpCpuidWritten::from(written);
                SnpCpuidLineWritten {
                    is_line: 1,
                    number: numbers.number,
                    length: numbers.length,
                }
            }
            None => SnpCpuidLineWritten {
                is_line: 0,
                number: 0,
                length: 0,
            },
        }
    }
}

// What a line says as numbers.
impl From<Option<LineDetails>> for SnpCpuidLineRead {
    ghost from_gives = { λ read result. result ≡ line_read_numbers read };

    fn from(read: Option<LineDetails>) -> Self {
        match read {
            Some(d) => {
                let subleaf = d.subleaf;
                let numbers = table::numbers::at_leaf(0, d.leaf, subleaf);
                SnpCpuidLineRead {
                    is_line: 1,
                    number: d.number,
                    leaf: d.leaf,
                    has_subleaf: numbers.has_subleaf,
                    subleaf: numbers.subleaf,
                    s: d.s,
                }
            }
            None => SnpCpuidLineRead {
                is_line: 0,
                number: 0,
                leaf: 0,
                has_subleaf: 0,
                subleaf: 0,
                s: 0,
            },
        }
    }
}
