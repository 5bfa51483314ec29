// What one processor's guest sees, of pages or of a table in lent memory: one row, the guest's table or its image, or a refusal.
#![tactic(auto)]

ghost use Rattle.std.specs.Prelude.{◌≡◌, Bool, true, Option, ℕ};
ghost use Rattle.bits.specs.Choice.{pick};
ghost use Rattle.table.specs.Rows.{row};
ghost use Rattle.memory.specs.Held.{held_in};
ghost use Rattle.x86defs.specs.declared.CpuidFunction.{CpuidFunction};
ghost use Rattle.lookup.specs.Lookup.{place_asked, at_place, is_place, found};
ghost use Rattle.rows.specs.Checked.{registers_in};
ghost use Rattle.guest_state.specs.State.{save_register};
ghost use Rattle.guest.specs.Guest.{osxsave_seen, version_seen, level_seen, size_seen, seen_at, guest_answer};
ghost use Rattle.guest.specs.Seen.{table_with, guest_found_in, SeenIn};

use guest_state::{save_register, state_in_use};
use lookup::{FoundRow, place_asked};
use masking::{PLACES, place};
use memory::{REGISTERS, clear, is_there, put_row, row_at};
use table::{CpuidResults, Refusal, Verdict};
use x86defs::{CpuidFunction, CpuidResult};

pub mod from_pages;

// Leaf 1 ECX: the number of bit XSAVE, and bit OSXSAVE.
const XSAVE_BIT: u32 = 26;

const OSXSAVE: u32 = 0x08000000;

// A processor: its x2APIC number, XCR0, XSS, and whether OSXSAVE is on.
#[derive(Clone, Copy)]
pub struct Processor {
    pub x2apic: u32,
    pub xcr0: u64,
    pub xss: u64,
    pub osxsave: bool,
}

// Accepted with the guest's table, or refused with an empty one. Kept as two values: theorems speak of the table of a refusal, too.
#[derive(Clone, Copy)]
pub struct GuestAnswer {
    pub verdict: Verdict,
    pub table: CpuidResults,
}

// What the guest of a processor reads: refusal 13 or 14 on its state, or the row that is asked for, as it sees it.
pub fn guest_find(
    registers: &[u32; REGISTERS],
    origins: &[u64; PLACES],
    processor: Processor,
    leaf: CpuidFunction,
    subleaf: Option<u32>,
    enforce_subleaf: bool,
) -> Result<Option<FoundRow>, Refusal>
    ensures { result ≡ guest_found_in (guest_answer (held_in registers.now origins.now) processor)
        origins.now leaf subleaf enforce_subleaf }
{
    let size = state_in_use(registers, origins, false, processor.xcr0, processor.xss)?;
    let asked = place_asked(leaf, subleaf, enforce_subleaf);
    Ok(seen_row(registers, origins, processor, size, asked))
}

// The row as the guest sees it where D.1.EBX is `size`, for a caller that kept the size which `state_in_use` gave when XCR0 or XSS last changed:
// then it is what `guest_find` finds (`kept_found`). Any size has an answer.
pub fn find_kept(
    registers: &[u32; REGISTERS],
    origins: &[u64; PLACES],
    processor: Processor,
    size: u32,
    leaf: CpuidFunction,
    subleaf: Option<u32>,
    enforce_subleaf: bool,
) -> Option<FoundRow>
    ensures { result ≡ found (table_with (held_in registers.now origins.now) processor size)
        origins.now leaf subleaf enforce_subleaf }
{
    let asked = place_asked(leaf, subleaf, enforce_subleaf);
    seen_row(registers, origins, processor, size, asked)
}

// The row of the place that is asked for, as the guest sees it, where it is there. `find_kept` and `guest_find` ask for the place themselves: so this
// is small enough for the compiler to put it into both.
fn seen_row(
    registers: &[u32; REGISTERS],
    origins: &[u64; PLACES],
    processor: Processor,
    size: u32,
    asked: Option<usize>,
) -> Option<FoundRow>
    requires { is_place asked ≡ true }
    ensures { (l : CpuidFunction) (sub : Option ℕ) (enforce : Bool) → asked ≡ at_place (place_asked l sub enforce)
        → result ≡ found (table_with (held_in registers.now origins.now) processor size) origins.now l sub enforce }
{
    let place = asked?;
    let origin = origins[place];
    if is_there(origin) {
        let r = row_at(registers, place);
        return Some(FoundRow {
            row: seen_at(registers, processor, size, place, r),
            origin,
        });
    }
    None
}

// The row of a place as the guest sees it: five differ. Most places stand after these, and one comparison tells them.
fn seen_at(
    registers: &[u32; REGISTERS],
    processor: Processor,
    size: u32,
    place: usize,
    r: CpuidResult,
) -> CpuidResult
    ensures { result ≡ seen_at processor (save_register (registers_in registers.now) processor.xcr0) size place (row r) }
{
    if place > place::EXTENDED_STATE_1 {
        return r;
    }
    match place {
        place::VERSION_AND_FEATURES => see_version(true, processor, r),
        place::THREAD_LEVEL => see_level(true, processor, r),
        place::CORE_LEVEL => see_level(true, processor, r),
        place::EXTENDED_STATE_0 => see_size(true, save_register(registers, processor.xcr0), r),
        place::EXTENDED_STATE_1 => see_size(true, size, r),
        _ => r,
    }
}

// The table becomes what the guest of a processor sees of it. A refusal clears it.
pub fn guest_table(
    registers: &mut [u32; REGISTERS],
    origins: &mut [u64; PLACES],
    processor: Processor,
) -> Verdict
    ensures { SeenIn (guest_answer (held_in registers.old origins.old) processor)
        origins.old result registers.new origins.new }
{
    let state = state_in_use(registers, origins, false, processor.xcr0, processor.xss);
    match state {
        Err(r) => {
            clear(registers, origins);
            Err(r)
        }
        Ok(size) => {
            put_seen(registers, origins, processor, size);
            Ok(())
        }
    }
}

// The five rows that differ, in place. `size` is D.1.EBX.
fn put_seen(
    registers: &mut [u32; REGISTERS],
    origins: &[u64; PLACES],
    processor: Processor,
    size: u32,
)
    ensures { held_in registers.new origins.now
        ≡ table_with (held_in registers.old origins.now) processor size }
{
    let area = save_register(registers, processor.xcr0);
    let version = row_at(registers, place::VERSION_AND_FEATURES);
    let threads = row_at(registers, place::THREAD_LEVEL);
    let cores = row_at(registers, place::CORE_LEVEL);
    let subleaf0 = row_at(registers, place::EXTENDED_STATE_0);
    let subleaf1 = row_at(registers, place::EXTENDED_STATE_1);
    let of_version = origins[place::VERSION_AND_FEATURES];
    let of_threads = origins[place::THREAD_LEVEL];
    let of_cores = origins[place::CORE_LEVEL];
    let of_subleaf0 = origins[place::EXTENDED_STATE_0];
    let of_subleaf1 = origins[place::EXTENDED_STATE_1];
    let seen = see_version(is_there(of_version), processor, version);
    put_row(registers, place::VERSION_AND_FEATURES, seen);
    let seen = see_level(is_there(of_threads), processor, threads);
    put_row(registers, place::THREAD_LEVEL, seen);
    let seen = see_level(is_there(of_cores), processor, cores);
    put_row(registers, place::CORE_LEVEL, seen);
    let seen = see_size(is_there(of_subleaf0), area, subleaf0);
    put_row(registers, place::EXTENDED_STATE_0, seen);
    let seen = see_size(is_there(of_subleaf1), size, subleaf1);
    put_row(registers, place::EXTENDED_STATE_1, seen);
}

// Leaf 1, where it is there.
fn see_version(present: bool, processor: Processor, r: CpuidResult) -> CpuidResult
    ensures { result ≡ pick present (version_seen processor r) r }
{
    if present {
        let ebx = (r.ebx & 0xFFFFFF) | ((processor.x2apic & 0xFF) << 24);
        let ecx = see_osxsave(processor.osxsave, r.ecx);
        return CpuidResult {
            eax: r.eax,
            ebx,
            ecx,
            edx: r.edx,
        };
    }
    r
}

// Leaf 1 ECX: bit 27 set where OSXSAVE is on and bit 26 is set, else clear.
fn see_osxsave(osxsave: bool, ecx: u32) -> u32
    ensures { result ≡ osxsave_seen osxsave ecx }
{
    if osxsave & bits::has_bit(ecx, XSAVE_BIT) {
        return ecx | OSXSAVE;
    }
    ecx & !OSXSAVE
}

// B.0 or B.1, where it is there.
fn see_level(present: bool, processor: Processor, r: CpuidResult) -> CpuidResult
    ensures { result ≡ pick present (level_seen processor r) r }
{
    if present {
        return CpuidResult {
            eax: r.eax,
            ebx: r.ebx,
            ecx: r.ecx,
            edx: processor.x2apic,
        };
    }
    r
}

// D.0 or D.1, where it is there.
fn see_size(present: bool, size: u32, r: CpuidResult) -> CpuidResult
    ensures { result ≡ pick present (size_seen size r) r }
{
    if present {
        return CpuidResult {
            eax: r.eax,
            ebx: size,
            ecx: r.ecx,
            edx: r.edx,
        };
    }
    r
}
