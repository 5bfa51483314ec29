// The answer to the 88 rows, in specs/: the checks in order, then the rule of each place, and laws of the finished table. In code the struct of that
// answer, and the rules of single rows (`features`).
#![tactic(auto)]

use table::{CpuidResults, Verdict};

pub mod features;

// The result of building from the rows: accepted with their table, or refused with an empty one. Kept as two values: document 01 has the table of a
// refusal, too, all zeros.
#[derive(Clone, Copy)]
pub struct RowsBuilt {
    pub verdict: Verdict,
    pub table: CpuidResults,
}
