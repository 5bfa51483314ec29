// Flips one bit of four registers, by the bit's number; specs/ has all flips of a page set in order.
ghost use Rattle.std.specs.Prelude.{◌≡◌, ◌/◌, ◌%◌, ◌<◌};
ghost use Rattle.nearest.specs.OneBit.{one_bit, xor_result};

use x86defs::CpuidResult;

// One result bit: page, entry, register (0 to 3: EAX, EBX, ECX, EDX) and bit. The register is kept as a number: an entry's 128 bits are numbered,
// 32 a register.
#[derive(Clone, Copy)]
pub struct Flip {
    pub page: usize,
    pub entry: u32,
    pub register: u32,
    pub bit: u32,
}

// Registers with one of their 128 bits flipped, by its number: 32 times the register, and the bit.
pub fn flip_bit(x: CpuidResult, n: u32) -> CpuidResult
    requires { n < 128 }
    ensures { result ≡ xor_result x (one_bit (n / 32) (n % 32)) }
{
    let m = 1 << (n % 32);
    let register = n / 32;
    if register == 0 {
        return CpuidResult {
            eax: x.eax ^ m,
            ebx: x.ebx,
            ecx: x.ecx,
            edx: x.edx,
        };
    }
    if register == 1 {
        return CpuidResult {
            eax: x.eax,
            ebx: x.ebx ^ m,
            ecx: x.ecx,
            edx: x.edx,
        };
    }
    if register == 2 {
        return CpuidResult {
            eax: x.eax,
            ebx: x.ebx,
            ecx: x.ecx ^ m,
            edx: x.edx,
        };
    }
    CpuidResult {
        eax: x.eax,
        ebx: x.ebx,
        ecx: x.ecx,
        edx: x.edx ^ m,
    }
}
