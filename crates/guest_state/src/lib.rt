// Extended state in use, over a table in lent memory: whether the table allows an XCR0 and XSS (refusals 13 and 14), the compacted size and the size
// of the save area.
#![tactic(auto)]

ghost use Rattle.std.specs.Prelude.{◌≡◌, true, ◌+◌, ◌≤◌, ◌<◌, ◌^◌};
ghost use Rattle.masking.specs.Kept.{places};
ghost use Rattle.rows.specs.Checked.{registers_in};
ghost use Rattle.guest_state.specs.Compact.{placed, compact_size};
ghost use Rattle.guest_state.specs.State.{within_test, allowed, compact_register, save_register};
ghost use Rattle.guest_state.specs.InUse.{read_rows, in_use};

use checks::{FROM_2, max_xss};
use masking::{PLACES, place};
use memory::{REGISTERS, is_there, row_at};
use rows::checked::xsave_size;
use table::Refusal;
use x86defs::{CpuidResult, xsave_c, xsave_s};

// The size of the legacy area and the header of the save area, with which the compacted one begins.
const HEADER_END: u64 = 576;

// The largest number that a register holds.
const LARGEST: u64 = 0xFFFFFFFF;

// The compacted size (D.1.EBX), if the memory's own rows of leaf Dh allow XCR0 and XSS; else refusal 13 or 14. An absent row may be read as zeros.
pub fn state_in_use(
    registers: &[u32; REGISTERS],
    origins: &[u64; PLACES],
    absent_as_zero: bool,
    xcr0: u64,
    xss: u64,
) -> Result<u32, Refusal>
    ensures { result ≡ in_use (read_rows absent_as_zero registers.now origins.now) xcr0 xss }
{
    let subleaf0 = read_row(registers, origins, absent_as_zero, place::EXTENDED_STATE_0);
    let subleaf1 = read_row(registers, origins, absent_as_zero, place::EXTENDED_STATE_1);
    if is_allowed(subleaf0.eax, max_xss(subleaf1), xcr0, xss) {
        let size = compact_register(registers, origins, absent_as_zero, xcr0, xss);
        if size > LARGEST {
            return Err(Refusal::CompactSizeTooLarge);
        }
        return Ok(size as u32);
    }
    Err(Refusal::StateBeyondTable)
}

// Whether XCR0 has bit 0, and XCR0 and XSS only bits that the table has.
fn is_allowed(xfem: u32, max_xss: u32, xcr0: u64, xss: u64) -> bool
    ensures { result ≡ allowed xfem max_xss xcr0 xss }
{
    let x87 = bits::has_bit64(xcr0, 0);
    let user = is_within(xcr0, xfem as u64);
    let supervisor = is_within(xss, max_xss as u64);
    x87 & (user & supervisor)
}

// Whether every bit of `x` is in `y`.
fn is_within(x: u64, y: u64) -> bool
    ensures { result ≡ within_test x y }
{
    x & y == x
}

// The registers of a place.
pub fn read_row(
    registers: &[u32; REGISTERS],
    origins: &[u64; PLACES],
    absent_as_zero: bool,
    place: usize,
) -> CpuidResult
    requires { place < places }
    ensures { result ≡ (read_rows absent_as_zero registers.now origins.now place).result }
{
    if absent_as_zero {
        let origin = origins[place];
        if is_there(origin) {
            return row_at(registers, place);
        }
        return CpuidResult {
            eax: 0,
            ebx: 0,
            ecx: 0,
            edx: 0,
        };
    }
    row_at(registers, place)
}

// D.1.EBX before it is held to 32 bits: 0 where the processor compacts nothing.
fn compact_register(
    registers: &[u32; REGISTERS],
    origins: &[u64; PLACES],
    absent_as_zero: bool,
    xcr0: u64,
    xss: u64,
) -> u64
    ensures { result ≡ compact_register (read_rows absent_as_zero registers.now origins.now) xcr0 xss }
{
    let subleaf1 = read_row(registers, origins, absent_as_zero, place::EXTENDED_STATE_1);
    if xsave_c(subleaf1.eax) | xsave_s(subleaf1.eax) {
        return compact_size(registers, origins, absent_as_zero, xcr0 | xss);
    }
    0
}

// The compacted area over any mask, from its lowest subleaf up; `rest` has the bits that are left. There are at most 62 subleaves of less than 2^32
// bytes and 63 bytes of alignment, so it never wraps.
fn compact_size(
    registers: &[u32; REGISTERS],
    origins: &[u64; PLACES],
    absent_as_zero: bool,
    mask: u64,
) -> u64
    ensures { result ≡ compact_size (read_rows absent_as_zero registers.now origins.now) mask }
{
    let mut size: u64 = HEADER_END;
    let mut rest = mask & FROM_2;
    // kept as a while: the step is not one but the place of the next set bit
    while rest != 0 {
        let place = place::EXTENDED_STATE_0 + u64::trailing_zeros(rest) as usize;
        let subleaf = read_row(registers, origins, absent_as_zero, place);
        size = place_component(subleaf, size);
        rest = rest & (rest - 1);
    }
    size
}

// The compacted area so far, with one more subleaf behind it.
fn place_component(subleaf: CpuidResult, size: u64) -> u64
    requires { size < 2 ^ 40 }
    ensures value { result ≡ placed true subleaf size }
    ensures small { result ≤ size + 2 ^ 33 }
{
    if bits::has_bit(subleaf.ecx, 1) {
        return (size + 63) / 64 * 64 + subleaf.eax as u64;
    }
    size + subleaf.eax as u64
}

// D.0.EBX, held to 32 bits.
pub fn save_register(registers: &[u32; REGISTERS], xcr0: u64) -> u32
    ensures { result ≡ save_register (registers_in registers.now) xcr0 }
{
    xsave_size(registers, xcr0).unwrap_or(0xFFFFFFFF)
}
