// Answers as C and Rust are given them: structs of plain numbers, each documented in include/snp_cpuid.h, from the answers of the crates below.
#![tactic(auto)]

ghost use Rattle.std.specs.Prelude.{◌≡◌};
ghost use Rattle.memory.specs.Held.{held_in, mask_held};
ghost use Rattle.counts.specs.BuiltRows.{built_rows};
ghost use Rattle.answers.specs.Answers.{processor_of, built_given, held_numbers, counts_of, read_with, state_numbers, guest_found_with, guest_found_numbers, found_numbers, found_at, first_given, written_numbers};

use buffer::Written;
use counts::built_rows;
use guest::Processor;
use lookup::{FoundRow, find};
use masking::PLACES;
use memory::origins::read_origin;
use memory::{REGISTERS, combined_mask, row_count};
use table::numbers::AnswerNumbers;
use table::{Refusal, Verdict};
use x86defs::CpuidFunction;

pub mod carried_image;
pub mod comparison;
pub mod line;
pub mod nearest_bit;
pub mod pool_answer;

#[repr(C)]
#[derive(Clone, Copy)]
pub struct SnpCpuidBuilt {
    pub number: u32,
    pub leaf: u32,
    pub has_subleaf: u32,
    pub subleaf: u32,
    pub s: u32,
    pub row_count: u64,
    pub max_extended_state: u64,
}

#[repr(C)]
#[derive(Clone, Copy)]
pub struct SnpCpuidFound {
    pub found: u32,
    pub eax: u32,
    pub ebx: u32,
    pub ecx: u32,
    pub edx: u32,
    pub origin: u32,
    pub page: u64,
    pub entry: u32,
}

#[repr(C)]
#[derive(Clone, Copy)]
pub struct SnpCpuidWritten {
    pub number: u32,
    pub leaf: u32,
    pub has_subleaf: u32,
    pub subleaf: u32,
    pub s: u32,
    pub length: u64,
}

#[repr(C)]
#[derive(Clone, Copy)]
pub struct SnpCpuidFirst {
    pub number: u32,
    pub leaf: u32,
    pub has_subleaf: u32,
    pub subleaf: u32,
    pub s: u32,
    pub found: u32,
    pub page: u64,
    pub entry: u32,
}

// What a processor's guest reads: 13 or 14 and zeros, or number 0 with what a lookup gives.
#[repr(C)]
#[derive(Clone, Copy)]
pub struct SnpCpuidGuestFound {
    pub number: u32,
    pub found: u32,
    pub eax: u32,
    pub ebx: u32,
    pub ecx: u32,
    pub edx: u32,
    pub origin: u32,
    pub page: u64,
    pub entry: u32,
}

// Whether a table gives a state: 13 or 14, or number 0 with the compacted size of the save area.
#[repr(C)]
#[derive(Clone, Copy)]
pub struct SnpCpuidState {
    pub number: u32,
    pub size: u32,
}

// How many rows a table has, and its combined mask.
#[repr(C)]
#[derive(Clone, Copy)]
pub struct SnpCpuidCounts {
    pub row_count: u64,
    pub max_extended_state: u64,
}

// Whether bytes are a table's image, with the table's counts.
#[repr(C)]
#[derive(Clone, Copy)]
pub struct SnpCpuidRead {
    pub is_image: u32,
    pub row_count: u64,
    pub max_extended_state: u64,
}

// The processor that a caller describes.
pub fn processor(x2apic: u32, xcr0: u64, xss: u64, osxsave: bool) -> Processor
    ensures { result ≡ processor_of x2apic xcr0 xss osxsave }
{
    Processor {
        x2apic,
        xcr0,
        xss,
        osxsave,
    }
}

// What building gives, as numbers: the verdict's, then how many rows there are and the combined mask.
pub fn built_numbers(verdict: Verdict, row_count: usize, max_extended_state: u64) -> SnpCpuidBuilt
    ensures { result ≡ built_given verdict row_count max_extended_state }
{
    let numbers = AnswerNumbers::from(verdict);
    SnpCpuidBuilt {
        number: numbers.number as u32,
        leaf: numbers.leaf,
        has_subleaf: numbers.has_subleaf,
        subleaf: numbers.subleaf,
        s: numbers.s as u32,
        row_count: row_count as u64,
        max_extended_state,
    }
}

// A verdict with the count of rows and the combined mask of the table that building left with it in memory. No row is counted: the mask tells how
// many there are.
pub fn built_table_numbers(verdict: Verdict, registers: &[u32; REGISTERS]) -> SnpCpuidBuilt
    ensures { result ≡ built_given verdict (built_rows verdict (mask_held registers.now)) (mask_held registers.now) }
{
    let mask = combined_mask(registers);
    built_numbers(verdict, built_rows(verdict, mask), mask)
}

// A row that was found as numbers, with its origin; or all zeros.
impl From<Option<FoundRow>> for SnpCpuidFound {
    ghost from_gives = { λ found result. result ≡ found_numbers found };

    fn from(found: Option<FoundRow>) -> Self {
        match found {
            Some(found) => {
                let r = found.row;
                let read = read_origin(found.origin);
                SnpCpuidFound {
                    found: 1,
                    eax: r.eax,
                    ebx: r.ebx,
                    ecx: r.ecx,
                    edx: r.edx,
                    origin: read.origin,
                    page: read.page,
                    entry: read.position,
                }
            }
            None => SnpCpuidFound {
                found: 0,
                eax: 0,
                ebx: 0,
                ecx: 0,
                edx: 0,
                origin: 0,
                page: 0,
                entry: 0,
            },
        }
    }
}

// The row that `leaf_result_ref` finds in a table for a leaf and a subleaf, and where it came from.
pub fn found_at(
    registers: &[u32; REGISTERS],
    origins: &[u64; PLACES],
    leaf: u32,
    subleaf: Option<u32>,
    enforce_subleaf: bool,
) -> SnpCpuidFound
    ensures { result ≡ found_at (held_in registers.now origins.now) origins.now leaf subleaf enforce_subleaf }
{
    SnpCpuidFound::from(find(
        registers,
        origins,
        CpuidFunction(leaf),
        subleaf,
        enforce_subleaf,
    ))
}

// What a processor's guest reads, as numbers.
impl From<Result<Option<FoundRow>, Refusal>> for SnpCpuidGuestFound {
    ghost from_gives = { λ answer result. result ≡ guest_found_numbers answer };

    fn from(answer: Result<Option<FoundRow>, Refusal>) -> Self {
        match answer {
            Err(refusal) => guest_found_with(
                AnswerNumbers::from(refusal).number as u32,
                SnpCpuidFound::from(None),
            ),
            Ok(found) => guest_found_with(0, SnpCpuidFound::from(found)),
        }
    }
}

// A number, and what a lookup gives.
fn guest_found_with(number: u32, f: SnpCpuidFound) -> SnpCpuidGuestFound
    ensures { result ≡ guest_found_with number f }
{
    SnpCpuidGuestFound {
        number,
        found: f.found,
        eax: f.eax,
        ebx: f.ebx,
        ecx: f.ecx,
        edx: f.edx,
        origin: f.origin,
        page: f.page,
        entry: f.entry,
    }
}

// Whether a table gives a state, as numbers.
impl From<Result<u32, Refusal>> for SnpCpuidState {
    ghost from_gives = { λ state result. result ≡ state_numbers state };

    fn from(state: Result<u32, Refusal>) -> Self {
        match state {
            Err(refusal) => {
                let numbers = AnswerNumbers::from(refusal);
                SnpCpuidState {
                    number: numbers.number as u32,
                    size: 0,
                }
            }
            Ok(size) => SnpCpuidState { number: 0, size },
        }
    }
}

// How many rows a table has, and its combined mask.
pub fn table_counts(registers: &[u32; REGISTERS], origins: &[u64; PLACES]) -> SnpCpuidCounts
    ensures { result ≡ counts_of (held_in registers.now origins.now) }
{
    SnpCpuidCounts {
        row_count: row_count(origins) as u64,
        max_extended_state: combined_mask(registers),
    }
}

// Whether bytes are a table's image, as numbers, with the counts of the table that was read.
pub fn read_numbers(
    is_image: bool,
    registers: &[u32; REGISTERS],
    origins: &[u64; PLACES],
) -> SnpCpuidRead
    ensures { result ≡ read_with is_image (held_in registers.now origins.now) }
{
    let counts = table_counts(registers, origins);
    SnpCpuidRead {
        is_image: is_image as u32,
        row_count: counts.row_count,
        max_extended_state: counts.max_extended_state,
    }
}

// A verdict with the count of rows and the combined mask of a table of any content.
pub fn table_numbers(
    verdict: Verdict,
    registers: &[u32; REGISTERS],
    origins: &[u64; PLACES],
) -> SnpCpuidBuilt
    ensures { result ≡ held_numbers verdict (held_in registers.now origins.now) }
{
    built_numbers(verdict, row_count(origins), combined_mask(registers))
}

// Where a first entry stands, from its number: found where the pages are lawful and have one.
pub fn first_numbers(verdict: Verdict, number: u64) -> SnpCpuidFirst
    ensures { result ≡ first_given verdict number }
{
    let numbers = AnswerNumbers::from(verdict);
    let read = read_origin(number);
    SnpCpuidFirst {
        number: numbers.number as u32,
        leaf: numbers.leaf,
        has_subleaf: numbers.has_subleaf,
        subleaf: numbers.subleaf,
        s: numbers.s as u32,
        found: read.origin / 2,
        page: read.page,
        entry: read.position,
    }
}

// A write's answer as numbers.
impl From<Written> for SnpCpuidWritten {
    ghost from_gives = { λ written result. result ≡ written_numbers written };

    fn from(written: Written) -> Self {
        match written {
            Ok(n) => SnpCpuidWritten {
                number: 0,
                leaf: 0,
                has_subleaf: 0,
                subleaf: 0,
                s: 0,
                length: n as u64,
            },
            Err(refusal) => {
                let numbers = AnswerNumbers::from(refusal);
                SnpCpuidWritten {
                    number: numbers.number as u32,
                    leaf: numbers.leaf,
                    has_subleaf: numbers.has_subleaf,
                    subleaf: numbers.subleaf,
                    s: numbers.s as u32,
                    length: 0,
                }
            }
        }
    }
}
