// The static library for C and Rust: each function of crate snp_cpuid as a symbol of its name, with the same clauses. include/snp_cpuid.h
// documents each call.
#![tactic(auto)]

ghost use Rattle.std.specs.Prelude.{◌≡◌};
ghost use Rattle.build.specs.Build.{answer};
ghost use Rattle.image.specs.Write.{write};
ghost use Rattle.collect.specs.FirstEntry.{first_entry_of};
ghost use Rattle.compare.specs.Compare.{compared};
ghost use Rattle.table.specs.Numbers.{subleaf_of};
ghost use Rattle.answers.specs.Answers.{choices_of, built_numbers, written_numbers};
ghost use Rattle.answers.specs.ComparedAnswers.{compared_numbers};
ghost use Rattle.snp_cpuid.specs.Exports.{found_in, first_numbers};

use answers::comparison::SnpCpuidCompared;
use answers::{SnpCpuidBuilt, SnpCpuidFirst, SnpCpuidFound, SnpCpuidWritten};

mod carry_exports;
mod fingerprint_exports;
mod guest_exports;
mod kvm;
mod line_exports;
mod nearest_exports;
mod pool_exports;
mod table_exports;
mod topology_exports;

// Builds the table of the given pages.
#[unsafe(no_mangle)]
pub extern "C" fn snp_cpuid_build(pages: &[u8], secure_avic: bool, edition: u32) -> SnpCpuidBuilt
    ensures { result ≡ built_numbers (answer (choices_of secure_avic edition) pages.now) }
{
    snp_cpuid::snp_cpuid_build(pages, secure_avic, edition)
}

// Builds, and looks a row up as leaf_result_ref does; with the row it tells where it came from.
#[unsafe(no_mangle)]
pub extern "C" fn snp_cpuid_lookup(
    pages: &[u8],
    secure_avic: bool,
    edition: u32,
    leaf: u32,
    has_subleaf: bool,
    subleaf: u32,
    enforce_subleaf: bool,
) -> SnpCpuidFound
    ensures { result ≡ found_in (answer (choices_of secure_avic edition) pages.now) leaf (subleaf_of has_subleaf subleaf) enforce_subleaf }
{
    snp_cpuid::snp_cpuid_lookup(
        pages,
        secure_avic,
        edition,
        leaf,
        has_subleaf,
        subleaf,
        enforce_subleaf,
    )
}

// Where the first counted entry of a leaf and subleaf stands, whether or not the pages give a table.
#[unsafe(no_mangle)]
pub extern "C" fn snp_cpuid_first_entry(pages: &[u8], leaf: u32, subleaf: u32) -> SnpCpuidFirst
    ensures { result ≡ first_numbers (first_entry_of pages.now (record { 0 = leaf }) subleaf) }
{
    snp_cpuid::snp_cpuid_first_entry(pages, leaf, subleaf)
}

// Builds, and writes the image at the front of `out`.
#[unsafe(no_mangle)]
pub extern "C" fn snp_cpuid_write_image(
    pages: &[u8],
    secure_avic: bool,
    edition: u32,
    out: &mut [u8],
) -> SnpCpuidWritten
    ensures value { result ≡ written_numbers (write (choices_of secure_avic edition) pages.now out.old).answer }
    ensures out_after { out.new ≡ (write (choices_of secure_avic edition) pages.now out.old).buffer }
{
    snp_cpuid::snp_cpuid_write_image(pages, secure_avic, edition, out)
}

// Whether a guest of the server with pages `a` may move to the one with pages `b`, or the first thing in the way.
#[unsafe(no_mangle)]
pub extern "C" fn snp_cpuid_compare(
    a: &[u8],
    b: &[u8],
    secure_avic: bool,
    edition: u32,
) -> SnpCpuidCompared
    ensures { result ≡ compared_numbers (compared (choices_of secure_avic edition) a.now b.now) }
{
    snp_cpuid::snp_cpuid_compare(a, b, secure_avic, edition)
}
