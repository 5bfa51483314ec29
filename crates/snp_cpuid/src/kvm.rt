// Lists for and from KVM, for C and Rust: document 02, P2.
ghost use Rattle.std.specs.Prelude.{◌≡◌};
ghost use Rattle.kvm_import.specs.Import.{read_list};
ghost use Rattle.kvm_export.specs.Export.{write_list};
ghost use Rattle.answers.specs.Answers.{choices_of, written_numbers};

use answers::SnpCpuidWritten;
use table::Choices;

// Builds, and writes the table's struct kvm_cpuid2 at the front of `out`.
pub fn snp_cpuid_write_kvm(
    pages: &[u8],
    secure_avic: bool,
    edition: u32,
    out: &mut [u8],
) -> SnpCpuidWritten
    ensures value { result ≡ written_numbers (write_list (choices_of secure_avic edition) pages.now out.old).answer }
    ensures out_after { out.new ≡ (write_list (choices_of secure_avic edition) pages.now out.old).buffer }
{
    let choices = Choices {
        secure_avic,
        edition,
    };
    SnpCpuidWritten::from(kvm_export::write_list(pages, choices, out))
}

// Reads a struct kvm_cpuid2 into two pages at the front of `out`.
pub fn snp_cpuid_read_kvm(list: &[u8], out: &mut [u8]) -> SnpCpuidWritten
    ensures value { result ≡ written_numbers (read_list list.now out.old).answer }
    ensures out_after { out.new ≡ (read_list list.now out.old).buffer }
{
    SnpCpuidWritten::from(kvm_import::read_list(list, out))
}
