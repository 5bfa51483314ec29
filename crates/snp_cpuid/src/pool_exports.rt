// One table for a pool of servers, for C and Rust: document 02, P12. Page sets end to end and their lengths in, plain numbers or an image out.
ghost use Rattle.std.specs.Prelude.{◌≡◌};
ghost use Rattle.pool.specs.Pool.{pooled};
ghost use Rattle.pool.specs.WritePool.{write_pool};
ghost use Rattle.table.specs.Numbers.{subleaf_of};
ghost use Rattle.answers.specs.Answers.{choices_of, written_numbers};
ghost use Rattle.answers.specs.PoolAnswers.{pooled_numbers};
ghost use Rattle.snp_cpuid.specs.PoolExports.{pooled_found, PooledIn};

use answers::pool_answer::{SnpCpuidPooled, pooled_numbers};
use answers::{SnpCpuidFound, SnpCpuidWritten, found_at};
use masking::PLACES;
use memory::{REGISTERS, combined_mask, row_count};
use pool::pool_into;
use pool::write::write_pool_image;
use table::{Choices, subleaf_of};

// Builds one table for servers whose page sets stand end to end.
pub fn snp_cpuid_pool(
    pages: &[u8],
    lengths: &[u64],
    secure_avic: bool,
    edition: u32,
) -> SnpCpuidPooled
    ensures { result ≡ pooled_numbers (pooled (choices_of secure_avic edition) pages.now lengths.now) }
{
    let choices = Choices {
        secure_avic,
        edition,
    };
    let mut registers: [u32; REGISTERS] = [0; REGISTERS];
    let mut origins: [u64; PLACES] = [0; PLACES];
    let pooled = pool_into(pages, lengths, choices, &mut registers, &mut origins);
    let verdict = pooled.verdict;
    pooled_numbers(
        verdict,
        pooled.server,
        row_count(&origins),
        combined_mask(&registers),
    )
}

// Builds one table for servers whose page sets stand end to end into the caller's memory; a refusal leaves a table without rows.
pub fn snp_cpuid_table_pool(
    pages: &[u8],
    lengths: &[u64],
    secure_avic: bool,
    edition: u32,
    registers: &mut [u32; REGISTERS],
    origins: &mut [u64; PLACES],
) -> SnpCpuidPooled
    ensures value { result ≡ pooled_numbers (pooled (choices_of secure_avic edition) pages.now lengths.now) }
    ensures pooled_in { PooledIn (pooled (choices_of secure_avic edition) pages.now lengths.now) registers.new origins.new }
{
    let choices = Choices {
        secure_avic,
        edition,
    };
    let pooled = pool_into(pages, lengths, choices, registers, origins);
    let verdict = pooled.verdict;
    pooled_numbers(
        verdict,
        pooled.server,
        row_count(origins),
        combined_mask(registers),
    )
}

// Builds, and looks a row up as leaf_result_ref does; with the row it tells where it stood in the first server's pages.
pub fn snp_cpuid_pool_lookup(
    pages: &[u8],
    lengths: &[u64],
    secure_avic: bool,
    edition: u32,
    leaf: u32,
    has_subleaf: bool,
    subleaf: u32,
    enforce_subleaf: bool,
) -> SnpCpuidFound
    ensures { result ≡ pooled_found (pooled (choices_of secure_avic edition) pages.now lengths.now) leaf (subleaf_of has_subleaf subleaf) enforce_subleaf }
{
    let choices = Choices {
        secure_avic,
        edition,
    };
    let mut registers: [u32; REGISTERS] = [0; REGISTERS];
    let mut origins: [u64; PLACES] = [0; PLACES];
    pool_into(pages, lengths, choices, &mut registers, &mut origins);
    let named = subleaf_of(has_subleaf, subleaf);
    found_at(&registers, &origins, leaf, named, enforce_subleaf)
}

// Builds, and writes the image of the pool's table at the front of `out`.
pub fn snp_cpuid_write_pool_image(
    pages: &[u8],
    lengths: &[u64],
    secure_avic: bool,
    edition: u32,
    out: &mut [u8],
) -> SnpCpuidWritten
    ensures value { result ≡ written_numbers (write_pool (choices_of secure_avic edition) pages.now lengths.now out.old).answer }
    ensures out_after { out.new ≡ (write_pool (choices_of secure_avic edition) pages.now lengths.now out.old).buffer }
{
    let choices = Choices {
        secure_avic,
        edition,
    };
    SnpCpuidWritten::from(write_pool_image(pages, lengths, choices, out))
}
