// What the architecture's manuals name: leaf numbers, and the fields and bits of each register, each with the function that reads it.
#![tactic(auto)]

ghost use Rattle.std.specs.Prelude.{◌≡◌, ◌<◌};
ghost use Rattle.bits.specs.Bits.{bit, has};
ghost use Rattle.x86defs.specs.Fields.{cut};
ghost use Rattle.x86defs.specs.Fields.Field.{nc, apic_core_id_size, lps_per_package, threads_per_compute_unit};
ghost use Rattle.x86defs.specs.VersionAndFeaturesEdx;
ghost use Rattle.x86defs.specs.VersionAndFeaturesEdx.VersionAndFeaturesEdx.{mt_per_socket};
ghost use Rattle.x86defs.specs.ExtendedAddressSpaceSizesEbx;
ghost use Rattle.x86defs.specs.ExtendedAddressSpaceSizesEbx.ExtendedAddressSpaceSizesEbx.{invlpgb, ibpb};
ghost use Rattle.x86defs.specs.ExtendedStateEnumerationSubleaf1Eax;
ghost use Rattle.x86defs.specs.ExtendedStateEnumerationSubleaf1Eax.ExtendedStateEnumerationSubleaf1Eax.{xsave_c, xsave_s};
ghost use Rattle.x86defs.specs.ExtendedSevFeaturesEax;
ghost use Rattle.x86defs.specs.ExtendedSevFeaturesEax.ExtendedSevFeaturesEax.{tsc_aux_virtualization};

pub mod leaf;

// A leaf, the value of EAX going in. A subleaf is a plain u32, so one is never taken for the other.
#[derive(Clone, Copy, PartialEq, Eq)]
pub struct CpuidFunction(pub u32);

// The four registers that come out.
#[derive(Clone, Copy, PartialEq, Eq)]
pub struct CpuidResult {
    pub eax: u32,
    pub ebx: u32,
    pub ecx: u32,
    pub edx: u32,
}

// ---- fields

// 80000008h.ECX: one less than the number of threads in the package.
pub fn nc(ecx: u32) -> u32
    ensures value { result ≡ cut nc ecx }
    ensures small { result < 256 }
{
    ecx & 0xFF
}

// 80000008h.ECX: how many bits of an APIC number tell the threads of a package apart; 0 where the older fields say it.
pub fn apic_core_id_size(ecx: u32) -> u32
    ensures value { result ≡ cut apic_core_id_size ecx }
    ensures small { result < 16 }
{
    (ecx >> 12) & 0xF
}

// 1.EBX: the number of logical processors in the package.
pub fn lps_per_package(ebx: u32) -> u32
    ensures value { result ≡ cut lps_per_package ebx }
    ensures small { result < 256 }
{
    (ebx >> 16) & 0xFF
}

// 8000001Eh.EBX: one less than the number of threads in a compute unit.
pub fn threads_per_compute_unit(ebx: u32) -> u32
    ensures value { result ≡ cut threads_per_compute_unit ebx }
    ensures small { result < 256 }
{
    (ebx >> 8) & 0xFF
}

// 1.EDX: 1 where the package has several threads, by the bit that the APM calls HTT.
pub fn mt_per_socket(edx: u32) -> u32
    ensures value { result ≡ bit (VersionAndFeaturesEdx.position mt_per_socket) edx }
    ensures small { result < 2 }
{
    (edx >> 28) & 1
}

// ---- feature bits

// 80000008h.EBX: whether INVLPGB is there.
pub fn invlpgb(ebx: u32) -> bool
    ensures { result ≡ has (ExtendedAddressSpaceSizesEbx.position invlpgb) ebx }
{
    bits::has_bit(ebx, 3)
}

// 80000008h.EBX: whether the barrier for indirect branches is there.
pub fn ibpb(ebx: u32) -> bool
    ensures { result ≡ has (ExtendedAddressSpaceSizesEbx.position ibpb) ebx }
{
    bits::has_bit(ebx, 12)
}

// D.1.EAX: whether XSAVEC is there.
pub fn xsave_c(eax: u32) -> bool
    ensures { result ≡ has (ExtendedStateEnumerationSubleaf1Eax.position xsave_c) eax }
{
    bits::has_bit(eax, 1)
}

// D.1.EAX: whether XSAVES is there.
pub fn xsave_s(eax: u32) -> bool
    ensures { result ≡ has (ExtendedStateEnumerationSubleaf1Eax.position xsave_s) eax }
{
    bits::has_bit(eax, 3)
}

// 8000001Fh.EAX: whether TSC_AUX is virtualized.
pub fn tsc_aux_virtualization(eax: u32) -> bool
    ensures { result ≡ has (ExtendedSevFeaturesEax.position tsc_aux_virtualization) eax }
{
    bits::has_bit(eax, 9)
}
