// How many rows an accepted table has, 26 to 32, and how many bytes its image, 582 to 732. The row count of a table follows from its verdict and
// mask.
#![tactic(auto)]

ghost use Rattle.std.specs.Prelude.{◌≡◌};
ghost use Rattle.counts.specs.BuiltRows.{built_rows};

use table::Verdict;

// The rows that every accepted table has.
const ALWAYS: usize = 26;

// How many rows stand in the table that building gives with a verdict: where it is accepted, one more for each bit of its combined mask from 2 up.
pub fn built_rows(verdict: Verdict, mask: u64) -> usize
    ensures { result ≡ built_rows verdict mask }
{
    match verdict {
        Ok(()) => ALWAYS + u64::count_ones(mask >> 2) as usize,
        Err(_r) => 0,
    }
}
