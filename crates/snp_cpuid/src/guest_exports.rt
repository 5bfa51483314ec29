// What one processor's guest sees, for C and Rust: pages and the processor's numbers in, plain numbers or an image out.
ghost use Rattle.std.specs.Prelude.{◌≡◌};
ghost use Rattle.guest.specs.GuestPages.{guest_pages, write_guest};
ghost use Rattle.table.specs.Numbers.{subleaf_of};
ghost use Rattle.answers.specs.Answers.{choices_of, processor_of, written_numbers};
ghost use Rattle.snp_cpuid.specs.GuestExports.{guest_numbers, guest_found};

use answers::{SnpCpuidBuilt, SnpCpuidFound, SnpCpuidWritten, found_at, processor, table_numbers};
use masking::PLACES;
use memory::REGISTERS;
use table::{Choices, subleaf_of};

// Builds the table of the given pages, and tells whether the table allows the processor's state.
pub fn snp_cpuid_guest_build(
    pages: &[u8],
    secure_avic: bool,
    edition: u32,
    x2apic: u32,
    xcr0: u64,
    xss: u64,
    osxsave: bool,
) -> SnpCpuidBuilt
    ensures { result ≡ guest_numbers (guest_pages (choices_of secure_avic edition) pages.now (processor_of x2apic xcr0 xss osxsave)) }
{
    let v = processor(x2apic, xcr0, xss, osxsave);
    let choices = Choices {
        secure_avic,
        edition,
    };
    let mut registers: [u32; REGISTERS] = [0; REGISTERS];
    let mut origins: [u64; PLACES] = [0; PLACES];
    let verdict = guest::from_pages::guest_pages(pages, choices, v, &mut registers, &mut origins);
    table_numbers(verdict, &registers, &origins)
}

// Builds, and looks a row up in the guest's table as leaf_result_ref does in the paravisor's, whose row's origin it has.
pub fn snp_cpuid_guest_lookup(
    pages: &[u8],
    secure_avic: bool,
    edition: u32,
    x2apic: u32,
    xcr0: u64,
    xss: u64,
    osxsave: bool,
    leaf: u32,
    has_subleaf: bool,
    subleaf: u32,
    enforce_subleaf: bool,
) -> SnpCpuidFound
    ensures { result ≡ guest_found (choices_of secure_avic edition) pages.now (processor_of x2apic xcr0 xss osxsave) leaf (subleaf_of has_subleaf subleaf) enforce_subleaf }
{
    let v = processor(x2apic, xcr0, xss, osxsave);
    let choices = Choices {
        secure_avic,
        edition,
    };
    let mut registers: [u32; REGISTERS] = [0; REGISTERS];
    let mut origins: [u64; PLACES] = [0; PLACES];
    let _ = guest::from_pages::guest_pages(pages, choices, v, &mut registers, &mut origins);
    let named = subleaf_of(has_subleaf, subleaf);
    found_at(&registers, &origins, leaf, named, enforce_subleaf)
}

// Builds, and writes the image of the guest's table at the front of `out`.
pub fn snp_cpuid_write_guest_image(
    pages: &[u8],
    secure_avic: bool,
    edition: u32,
    x2apic: u32,
    xcr0: u64,
    xss: u64,
    osxsave: bool,
    out: &mut [u8],
) -> SnpCpuidWritten
    ensures value { result ≡ written_numbers (write_guest (choices_of secure_avic edition) pages.now (processor_of x2apic xcr0 xss osxsave) out.old).answer }
    ensures out_after { out.new ≡ (write_guest (choices_of secure_avic edition) pages.now (processor_of x2apic xcr0 xss osxsave) out.old).buffer }
{
    let v = processor(x2apic, xcr0, xss, osxsave);
    let choices = Choices {
        secure_avic,
        edition,
    };
    SnpCpuidWritten::from(guest::from_pages::write_guest_image(pages, choices, v, out))
}
