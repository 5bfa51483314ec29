// The registers of two rows: whether each register of B's row may replace A's, by the masks of the place, and the first that may not.
ghost use Rattle.std.specs.Prelude.{◌≡◌};
ghost use Rattle.compare.specs.Registers.{first_to_fail, order};
ghost use Rattle.compare.specs.ByMasks.{passes, passes_by};

use x86defs::CpuidResult;

#[derive(Clone, Copy)]
pub enum Register {
    Eax,
    Ebx,
    Ecx,
    Edx,
}

// EAX to EDX as 0 to 3.
impl From<Register> for u32 {
    ghost from_gives = { λ register result. result ≡ order register };

    fn from(register: Register) -> Self {
        match register {
            Register::Eax => 0,
            Register::Ebx => 1,
            Register::Ecx => 2,
            Register::Edx => 3,
        }
    }
}

// Which registers of B's row may replace A's.
#[derive(Clone, Copy)]
pub struct RegistersRise {
    pub eax: bool,
    pub ebx: bool,
    pub ecx: bool,
    pub edx: bool,
}

// Whether B's register may replace A's: the two are equal in the features that A has, and in the bits that must agree.
fn register_rises(features: u32, agreed: u32, a: u32, b: u32) -> bool
    ensures { result ≡ passes features agreed a b }
{
    let asked = a & features | agreed;
    a & asked == b & asked
}

// Which registers of B's row may replace A's, by the masks of its four registers.
pub fn registers_rise(
    features: CpuidResult,
    agreed: CpuidResult,
    a: CpuidResult,
    b: CpuidResult,
) -> RegistersRise
    ensures { result ≡ passes_by features agreed a b }
{
    RegistersRise {
        eax: register_rises(features.eax, agreed.eax, a.eax, b.eax),
        ebx: register_rises(features.ebx, agreed.ebx, a.ebx, b.ebx),
        ecx: register_rises(features.ecx, agreed.ecx, a.ecx, b.ecx),
        edx: register_rises(features.edx, agreed.edx, a.edx, b.edx),
    }
}

// The first register that fails: EDX where the other three do not.
pub fn first_register(rise: RegistersRise) -> Register
    ensures { result ≡ first_to_fail rise }
{
    if !rise.eax {
        return Register::Eax;
    }
    if !rise.ebx {
        return Register::Ebx;
    }
    if !rise.ecx {
        return Register::Ecx;
    }
    Register::Edx
}
