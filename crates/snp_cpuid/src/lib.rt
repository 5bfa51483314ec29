// The library's functions for C and Rust, over numbers and slices. include/snp_cpuid.h documents each call.
#![tactic(auto)]

ghost use Rattle.std.specs.Prelude.{◌≡◌};
ghost use Rattle.build.specs.Build.{answer};
ghost use Rattle.image.specs.Write.{write};
ghost use Rattle.collect.specs.FirstEntry.{first_entry_of};
ghost use Rattle.compare.specs.Compare.{compared};
ghost use Rattle.table.specs.Numbers.{subleaf_of};
ghost use Rattle.answers.specs.Answers.{choices_of, built_numbers, written_numbers};
ghost use Rattle.answers.specs.ComparedAnswers.{compared_numbers};
ghost use Rattle.snp_cpuid.specs.Exports.{found_in, first_numbers};

use answers::comparison::SnpCpuidCompared;
use answers::{
    SnpCpuidBuilt, SnpCpuidFirst, SnpCpuidFound, SnpCpuidWritten, built_table_numbers,
    first_numbers, found_at,
};
use build::build_into;
use masking::PLACES;
use memory::REGISTERS;
use table::{Choices, subleaf_of};
use x86defs::CpuidFunction;

pub mod carry_exports;
pub mod fingerprint_exports;
pub mod guest_exports;
pub mod kvm;
pub mod line_exports;
pub mod nearest_exports;
pub mod pool_exports;
pub mod table_exports;
pub mod topology_exports;

// Builds the table of the given pages.
pub fn snp_cpuid_build(pages: &[u8], secure_avic: bool, edition: u32) -> SnpCpuidBuilt
    ensures { result ≡ built_numbers (answer (choices_of secure_avic edition) pages.now) }
{
    let choices = Choices {
        secure_avic,
        edition,
    };
    let mut registers: [u32; REGISTERS] = [0; REGISTERS];
    let mut origins: [u64; PLACES] = [0; PLACES];
    let verdict = build_into(pages, choices, &mut registers, &mut origins);
    built_table_numbers(verdict, &registers)
}

// Builds, and looks a row up as leaf_result_ref does; with the row it tells where it came from.
pub fn snp_cpuid_lookup(
    pages: &[u8],
    secure_avic: bool,
    edition: u32,
    leaf: u32,
    has_subleaf: bool,
    subleaf: u32,
    enforce_subleaf: bool,
) -> SnpCpuidFound
    ensures { result ≡ found_in (answer (choices_of secure_avic edition) pages.now) leaf (subleaf_of has_subleaf subleaf) enforce_subleaf }
{
    let choices = Choices {
        secure_avic,
        edition,
    };
    let mut registers: [u32; REGISTERS] = [0; REGISTERS];
    let mut origins: [u64; PLACES] = [0; PLACES];
    let _ = build_into(pages, choices, &mut registers, &mut origins);
    let named = subleaf_of(has_subleaf, subleaf);
    found_at(&registers, &origins, leaf, named, enforce_subleaf)
}

// Where the first counted entry of a leaf and subleaf stands, whether or not the pages give a table.
pub fn snp_cpuid_first_entry(pages: &[u8], leaf: u32, subleaf: u32) -> SnpCpuidFirst
    ensures { result ≡ first_numbers (first_entry_of pages.now (record { 0 = leaf }) subleaf) }
{
    let first = collect::first_entry(pages, CpuidFunction(leaf), subleaf);
    let verdict = first.verdict;
    first_numbers(verdict, first.origin)
}

// Builds, and writes the image at the front of `out`.
pub fn snp_cpuid_write_image(
    pages: &[u8],
    secure_avic: bool,
    edition: u32,
    out: &mut [u8],
) -> SnpCpuidWritten
    ensures value { result ≡ written_numbers (write (choices_of secure_avic edition) pages.now out.old).answer }
    ensures out_after { out.new ≡ (write (choices_of secure_avic edition) pages.now out.old).buffer }
{
    let choices = Choices {
        secure_avic,
        edition,
    };
    SnpCpuidWritten::from(image::from_pages::write_image(pages, choices, out))
}

// Whether a guest of the server with pages `a` may move to the one with pages `b`, or the first thing in the way.
pub fn snp_cpuid_compare(a: &[u8], b: &[u8], secure_avic: bool, edition: u32) -> SnpCpuidCompared
    ensures { result ≡ compared_numbers (compared (choices_of secure_avic edition) a.now b.now) }
{
    let choices = Choices {
        secure_avic,
        edition,
    };
    SnpCpuidCompared::from(compare::compare(a, b, choices))
}
