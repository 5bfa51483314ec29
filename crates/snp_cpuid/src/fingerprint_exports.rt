// The fingerprint of a table, from pages and of a table that the caller keeps, for C and Rust.
ghost use Rattle.std.specs.Prelude.{◌≡◌};
ghost use Rattle.memory.specs.Held.{held_in};
ghost use Rattle.build.specs.Build.{answer};
ghost use Rattle.fingerprint.specs.Fingerprint.{fingerprint};
ghost use Rattle.answers.specs.Answers.{choices_of, counts_of, built_numbers};

use answers::{SnpCpuidBuilt, SnpCpuidCounts, table_counts, table_numbers};
use build::build_into;
use fingerprint::fingerprint;
use masking::PLACES;
use memory::REGISTERS;
use table::Choices;

// Builds, and gives the table's fingerprint; a refusal has the table without rows, whose image is no bytes.
pub fn snp_cpuid_fingerprint(
    pages: &[u8],
    secure_avic: bool,
    edition: u32,
    digest: &mut [u8; 32],
) -> SnpCpuidBuilt
    ensures value { result ≡ built_numbers (answer (choices_of secure_avic edition) pages.now) }
    ensures digest_after { digest.new ≡ fingerprint (answer (choices_of secure_avic edition) pages.now).table }
{
    let choices = Choices {
        secure_avic,
        edition,
    };
    let mut registers: [u32; REGISTERS] = [0; REGISTERS];
    let mut origins: [u64; PLACES] = [0; PLACES];
    let verdict = build_into(pages, choices, &mut registers, &mut origins);
    fingerprint(&registers, &origins, digest);
    table_numbers(verdict, &registers, &origins)
}

// The fingerprint of a table of any content, and its counts: a table without rows has the fingerprint of no bytes.
pub fn snp_cpuid_table_fingerprint(
    registers: &[u32; REGISTERS],
    origins: &[u64; PLACES],
    digest: &mut [u8; 32],
) -> SnpCpuidCounts
    ensures value { result ≡ counts_of (held_in registers.now origins.now) }
    ensures digest_after { digest.new ≡ fingerprint (held_in registers.now origins.now) }
{
    fingerprint(registers, origins, digest);
    table_counts(registers, origins)
}
