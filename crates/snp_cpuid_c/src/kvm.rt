// Lists for and from KVM, for C and Rust.
ghost use Rattle.std.specs.Prelude.{◌≡◌};
ghost use Rattle.kvm_import.specs.Import.{read_list};
ghost use Rattle.kvm_export.specs.Export.{write_list};
ghost use Rattle.answers.specs.Answers.{choices_of, written_numbers};

use answers::SnpCpuidWritten;

// Builds, and writes the table's struct kvm_cpuid2 at the front of `out`.
#[unsafe(no_mangle)]
pub extern "C" fn snp_cpuid_write_kvm(
    pages: &[u8],
    secure_avic: bool,
    edition: u32,
    out: &mut [u8],
) -> SnpCpuidWritten
    ensures value { result ≡ written_numbers (write_list (choices_of secure_avic edition) pages.now out.old).answer }
    ensures out_after { out.new ≡ (write_list (choices_of secure_avic edition) pages.now out.old).buffer }
{
    snp_cpuid::kvm::snp_cpuid_write_kvm(pages, secure_avic, edition, out)
}

// Reads a struct kvm_cpuid2 into two pages at the front of `out`.
#[unsafe(no_mangle)]
pub extern "C" fn snp_cpuid_read_kvm(list: &[u8], out: &mut [u8]) -> SnpCpuidWritten
    ensures value { result ≡ written_numbers (read_list list.now out.old).answer }
    ensures out_after { out.new ≡ (read_list list.now out.old).buffer }
{
    snp_cpuid::kvm::snp_cpuid_read_kvm(list, out)
}
