// Which bits decide: the first of an entry's 128 bits whose flip changes building's answer to the 88 rows in lent memory, or that none does.
ghost use Rattle.std.specs.Prelude.{◌≡◌};
ghost use Rattle.nearest.specs.SameVerdict.{same_result, same_numbers, same_verdict};

use table::Verdict;
use table::numbers::AnswerNumbers;
use x86defs::CpuidResult;

pub mod decisive;
pub mod irrelevant;

// Whether two verdicts are the same: the number and its details.
pub fn same_verdict(v: Verdict, w: Verdict) -> bool
    ensures { result ≡ same_verdict v w }
{
    same_numbers(AnswerNumbers::from(v), AnswerNumbers::from(w))
}

fn same_numbers(a: AnswerNumbers, b: AnswerNumbers) -> bool
    ensures { result ≡ same_numbers a b }
{
    a == b
}

// Whether four registers are the same.
pub fn same_result(a: CpuidResult, b: CpuidResult) -> bool
    ensures { result ≡ same_result a b }
{
    a == b
}
