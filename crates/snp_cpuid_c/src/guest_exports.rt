// What one processor's guest sees, for C and Rust: pages and the processor's numbers in, plain numbers or an image out.
ghost use Rattle.std.specs.Prelude.{◌≡◌};
ghost use Rattle.guest.specs.GuestPages.{guest_pages, write_guest};
ghost use Rattle.table.specs.Numbers.{subleaf_of};
ghost use Rattle.answers.specs.Answers.{choices_of, processor_of, written_numbers};
ghost use Rattle.snp_cpuid.specs.GuestExports.{guest_numbers, guest_found};

use answers::{SnpCpuidBuilt, SnpCpuidFound, SnpCpuidWritten};

// Builds the table of the given pages, and tells whether the table allows the processor's state.
#[unsafe(no_mangle)]
pub extern "C" fn snp_cpuid_guest_build(
    pages: &[u8],
    secure_avic: bool,
    edition: u32,
    x2apic: u32,
    xcr0: u64,
    xss: u64,
    osxsave: bool,
) -> SnpCpuidBuilt
    ensures { result ≡ guest_numbers (guest_pages (choices_of secure_avic edition) pages.now (processor_of x2apic xcr0 xss osxsave)) }
{
    snp_cpuid::guest_exports::snp_cpuid_guest_build(
        pages,
        secure_avic,
        edition,
        x2apic,
        xcr0,
        xss,
        osxsave,
    )
}

// Builds, and looks a row up in the guest's table as leaf_result_ref does in the paravisor's, whose row's origin it has.
#[unsafe(no_mangle)]
pub extern "C" fn snp_cpuid_guest_lookup(
    pages: &[u8],
    secure_avic: bool,
    edition: u32,
    x2apic: u32,
    xcr0: u64,
    xss: u64,
    osxsave: bool,
    leaf: u32,
    has_subleaf: bool,
    subleaf: u32,
    enforce_subleaf: bool,
) -> SnpCpuidFound
    ensures { result ≡ guest_found (choices_of secure_avic edition) pages.now (processor_of x2apic xcr0 xss osxsave) leaf (subleaf_of has_subleaf subleaf) enforce_subleaf }
{
    snp_cpuid::guest_exports::snp_cpuid_guest_lookup(
        pages,
        secure_avic,
        edition,
        x2apic,
        xcr0,
        xss,
        osxsave,
        leaf,
        has_subleaf,
        subleaf,
        enforce_subleaf,
    )
}

// Builds, and writes the image of the guest's table at the front of `out`.
#[unsafe(no_mangle)]
pub extern "C" fn snp_cpuid_write_guest_image(
    pages: &[u8],
    secure_avic: bool,
    edition: u32,
    x2apic: u32,
    xcr0: u64,
    xss: u64,
    osxsave: bool,
    out: &mut [u8],
) -> SnpCpuidWritten
    ensures value { result ≡ written_numbers (write_guest (choices_of secure_avic edition) pages.now (processor_of x2apic xcr0 xss osxsave) out.old).answer }
    ensures out_after { out.new ≡ (write_guest (choices_of secure_avic edition) pages.now (processor_of x2apic xcr0 xss osxsave) out.old).buffer }
{
    snp_cpuid::guest_exports::snp_cpuid_write_guest_image(
        pages,
        secure_avic,
        edition,
        x2apic,
        xcr0,
        xss,
        osxsave,
        out,
    )
}
