// What a pool of servers gives, as C and Rust are given it (document 02, P12): the answer's parts as a struct of plain numbers.
ghost use Rattle.std.specs.Prelude.{◌≡◌, ◌^◌, ◌<◌};
ghost use Rattle.answers.specs.PoolAnswers.{pooled_given};

use table::Verdict;
use table::numbers::AnswerNumbers;

#[repr(C)]
#[derive(Clone, Copy)]
pub struct SnpCpuidPooled {
    pub number: u32,
    pub leaf: u32,
    pub has_subleaf: u32,
    pub subleaf: u32,
    pub s: u32,
    pub server: u32,
    pub row_count: u64,
    pub max_extended_state: u64,
}

// What a pool gives, as numbers: the verdict's, whose refusal it is, how many rows there are and the combined mask.
pub fn pooled_numbers(
    verdict: Verdict,
    server: usize,
    row_count: usize,
    max_extended_state: u64,
) -> SnpCpuidPooled
    requires { server < 2 ^ 32 }
    ensures { result ≡ pooled_given verdict server row_count max_extended_state }
{
    let numbers = AnswerNumbers::from(verdict);
    SnpCpuidPooled {
        number: numbers.number as u32,
        leaf: numbers.leaf,
        has_subleaf: numbers.has_subleaf,
        subleaf: numbers.subleaf,
        s: numbers.s as u32,
        server: server as u32,
        row_count: row_count as u64,
        max_extended_state,
    }
}
