// The masks of the extended state, from rows D.0 and D.1.
ghost use Rattle.std.specs.Prelude.{◌≡◌};
ghost use Rattle.std.specs.Int.Bits.{bit_or};
ghost use Rattle.checks.specs.ExtendedState.{xss_of};

use x86defs::{CpuidResult, xsave_c, xsave_s};

// The bits of a mask from 2 up: bits 0 and 1 stand for the legacy area, and have no subleaf of their own.
pub const FROM_2: u64 = 0xFFFF_FFFF_FFFF_FFFC;

// XSS, from the row of D.1: none unless it has XSAVEC and XSAVES both.
pub fn max_xss(subleaf1: CpuidResult) -> u32
    ensures { result ≡ xss_of subleaf1 }
{
    if xsave_c(subleaf1.eax) & xsave_s(subleaf1.eax) {
        return subleaf1.ecx;
    }
    0
}

// The combined mask.
pub fn max_extended_state(xfem: u32, xss: u32) -> u64
    ensures { result ≡ bit_or xfem xss }
{
    xfem as u64 | xss as u64
}
