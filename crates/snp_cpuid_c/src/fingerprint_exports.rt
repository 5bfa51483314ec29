// The fingerprint of a table, from pages and of a table that the caller keeps, for C and Rust.
ghost use Rattle.std.specs.Prelude.{◌≡◌};
ghost use Rattle.memory.specs.Held.{held_in};
ghost use Rattle.build.specs.Build.{answer};
ghost use Rattle.fingerprint.specs.Fingerprint.{fingerprint};
ghost use Rattle.answers.specs.Answers.{choices_of, counts_of, built_numbers};

use answers::{SnpCpuidBuilt, SnpCpuidCounts};
use masking::PLACES;
use memory::REGISTERS;

// Builds, and gives the table's fingerprint; a refusal has the table without rows, whose image is no bytes.
#[unsafe(no_mangle)]
pub extern "C" fn snp_cpuid_fingerprint(
    pages: &[u8],
    secure_avic: bool,
    edition: u32,
    digest: &mut [u8; 32],
) -> SnpCpuidBuilt
    ensures value { result ≡ built_numbers (answer (choices_of secure_avic edition) pages.now) }
    ensures digest_after { digest.new ≡ fingerprint (answer (choices_of secure_avic edition) pages.now).table }
{
    snp_cpuid::fingerprint_exports::snp_cpuid_fingerprint(pages, secure_avic, edition, digest)
}

// The fingerprint of a table of any content, and its counts: a table without rows has the fingerprint of no bytes.
#[unsafe(no_mangle)]
pub extern "C" fn snp_cpuid_table_fingerprint(
    registers: &[u32; REGISTERS],
    origins: &[u64; PLACES],
    digest: &mut [u8; 32],
) -> SnpCpuidCounts
    ensures value { result ≡ counts_of (held_in registers.now origins.now) }
    ensures digest_after { digest.new ≡ fingerprint (held_in registers.now origins.now) }
{
    snp_cpuid::fingerprint_exports::snp_cpuid_table_fingerprint(registers, origins, digest)
}
