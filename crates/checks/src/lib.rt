// The checks of document 01, each with its verdict, in specs/. In code those of one row: the masks of the extended state, and the verdict on INVLPGB.
#![tactic(auto)]

ghost use Rattle.std.specs.Prelude.{◌≡◌};
ghost use Rattle.checks.specs.Checks.{invlpgb_of};

use table::{Refusal, Verdict};
use x86defs::{CpuidResult, invlpgb};

mod extended_state;

pub use extended_state::{FROM_2, max_extended_state, max_xss};

// Whether 80000008h.EBX has INVLPGB.
pub fn validate_invlpgb(sizes: CpuidResult) -> Verdict
    ensures { result ≡ invlpgb_of sizes }
{
    if invlpgb(sizes.ebx) {
        return Ok(());
    }
    Err(Refusal::InvlpgbUnavailable)
}
