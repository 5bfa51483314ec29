// Carries a running table, in lent memory or as its image, from one edition of the AVX rule to another, under one processor's state. A refusal leaves
// it as it was.
#![tactic(auto)]

ghost use Rattle.std.specs.Prelude.{◌≡◌};
ghost use Rattle.bits.specs.Choice.{pick};
ghost use Rattle.table.specs.Table.{row_in};
ghost use Rattle.memory.specs.Memory.{layout};
ghost use Rattle.memory.specs.Held.{held_in};
ghost use Rattle.carry.specs.Carry.{without_bits, carried_table, carry};
ghost use Rattle.carry.specs.CarriedInPlace.{CarriedIn};

use guest_state::{read_row, state_in_use};
use masking::{PLACES, place};
use memory::{REGISTERS, is_there, put_row, row_at};
use table::edition::{EditionBits, known_edition};
use table::{CpuidResults, Refusal, Verdict};
use x86defs::CpuidResult;

pub mod in_image;

// Accepted with the table under the edition wanted, or refused with an empty one: the answer of the definition, specs/Carry.antt.
#[derive(Clone, Copy)]
pub struct Carried {
    pub verdict: Verdict,
    pub table: CpuidResults,
}

// The memory's table under edition `from`, with a processor's XCR0 and XSS, taken to edition `to`. A refusal leaves the memory as it was.
pub fn carry(
    registers: &mut [u32; REGISTERS],
    origins: &[u64; PLACES],
    from: u32,
    to: u32,
    xcr0: u64,
    xss: u64,
) -> Verdict
    ensures { CarriedIn (carry (held_in registers.old origins.now) from to xcr0 xss) result
        registers.old origins.now registers.new }
{
    if known_edition(from) & known_edition(to) {} else {
        return Err(Refusal::UnknownEdition);
    }
    if to < from {
        return Err(Refusal::EditionBack);
    }
    state_in_use(registers, origins, true, xcr0, xss)?;
    let subleaf0 = read_row(registers, origins, true, place::EXTENDED_STATE_0);
    let bits = EditionBits::between(from, to);
    clear_bits(
        registers,
        origins,
        bits,
        (from == to) | bits::has_bit(subleaf0.eax, 2),
    );
    Ok(())
}

// The bits cleared in rows 1 and 80000001h, unless they are kept. Nothing else changes.
fn clear_bits(
    registers: &mut [u32; REGISTERS],
    origins: &[u64; PLACES],
    bits: EditionBits,
    keep: bool,
)
    ensures { registers.new
        ≡ layout (λ i. (row_in (carried_table bits keep (held_in registers.old origins.now)) i).result) }
{
    let has_version = origins[place::VERSION_AND_FEATURES];
    let has_extended = origins[place::EXTENDED_VERSION_AND_FEATURES];
    let version = row_at(registers, place::VERSION_AND_FEATURES);
    let extended = row_at(registers, place::EXTENDED_VERSION_AND_FEATURES);
    let cleared = clear_ecx(is_there(has_version), keep, bits.version_ecx, version);
    put_row(registers, place::VERSION_AND_FEATURES, cleared);
    let cleared = clear_ecx(
        is_there(has_extended),
        keep,
        bits.extended_version_ecx,
        extended,
    );
    put_row(registers, place::EXTENDED_VERSION_AND_FEATURES, cleared);
}

// ECX of a row that is there without the bits of `m`, unless they are kept.
fn clear_ecx(present: bool, keep: bool, m: u32, r: CpuidResult) -> CpuidResult
    ensures { result ≡ pick present (without_bits keep m r) r }
{
    if present {
        let ecx = bits::clear_unless(keep, m, r.ecx);
        return CpuidResult { ecx, ..r };
    }
    r
}
