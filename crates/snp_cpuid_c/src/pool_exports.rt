// One table for a pool of servers, for C and Rust. Page sets end to end and their lengths in, plain numbers or an image out.
ghost use Rattle.std.specs.Prelude.{◌≡◌};
ghost use Rattle.pool.specs.Pool.{pooled};
ghost use Rattle.pool.specs.WritePool.{write_pool};
ghost use Rattle.table.specs.Numbers.{subleaf_of};
ghost use Rattle.answers.specs.Answers.{choices_of, written_numbers};
ghost use Rattle.answers.specs.PoolAnswers.{pooled_numbers};
ghost use Rattle.snp_cpuid.specs.PoolExports.{pooled_found, PooledIn};

use answers::pool_answer::SnpCpuidPooled;
use answers::{SnpCpuidFound, SnpCpuidWritten};
use masking::PLACES;
use memory::REGISTERS;

// Builds one table for servers whose page sets stand end to end.
#[unsafe(no_mangle)]
pub extern "C" fn snp_cpuid_pool(
    pages: &[u8],
    lengths: &[u64],
    secure_avic: bool,
    edition: u32,
) -> SnpCpuidPooled
    ensures { result ≡ pooled_numbers (pooled (choices_of secure_avic edition) pages.now lengths.now) }
{
    snp_cpuid::pool_exports::snp_cpuid_pool(pages, lengths, secure_avic, edition)
}

// Builds one table for servers whose page sets stand end to end into the caller's memory; a refusal leaves a table without rows.
#[unsafe(no_mangle)]
pub extern "C" fn snp_cpuid_table_pool(
    pages: &[u8],
    lengths: &[u64],
    secure_avic: bool,
    edition: u32,
    registers: &mut [u32; REGISTERS],
    origins: &mut [u64; PLACES],
) -> SnpCpuidPooled
    ensures value { result ≡ pooled_numbers (pooled (choices_of secure_avic edition) pages.now lengths.now) }
    ensures pooled_in { PooledIn (pooled (choices_of secure_avic edition) pages.now lengths.now) registers.new origins.new }
{
    snp_cpuid::pool_exports::snp_cpuid_table_pool(
        pages,
        lengths,
        secure_avic,
        edition,
        registers,
        origins,
    )
}

// Builds, and looks a row up as leaf_result_ref does; with the row it tells where it stood in the first server's pages.
#[unsafe(no_mangle)]
pub extern "C" fn snp_cpuid_pool_lookup(
    pages: &[u8],
    lengths: &[u64],
    secure_avic: bool,
    edition: u32,
    leaf: u32,
    has_subleaf: bool,
    subleaf: u32,
    enforce_subleaf: bool,
) -> SnpCpuidFound
    ensures { result ≡ pooled_found (pooled (choices_of secure_avic edition) pages.now lengths.now) leaf (subleaf_of has_subleaf subleaf) enforce_subleaf }
{
    snp_cpuid::pool_exports::snp_cpuid_pool_lookup(
        pages,
        lengths,
        secure_avic,
        edition,
        leaf,
        has_subleaf,
        subleaf,
        enforce_subleaf,
    )
}

// Builds, and writes the image of the pool's table at the front of `out`.
#[unsafe(no_mangle)]
pub extern "C" fn snp_cpuid_write_pool_image(
    pages: &[u8],
    lengths: &[u64],
    secure_avic: bool,
    edition: u32,
    out: &mut [u8],
) -> SnpCpuidWritten
    ensures value { result ≡ written_numbers (write_pool (choices_of secure_avic edition) pages.now lengths.now out.old).answer }
    ensures out_after { out.new ≡ (write_pool (choices_of secure_avic edition) pages.now lengths.now out.old).buffer }
{
    snp_cpuid::pool_exports::snp_cpuid_write_pool_image(pages, lengths, secure_avic, edition, out)
}
