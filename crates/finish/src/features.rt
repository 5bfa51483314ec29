// Feature rows: how finishing changes a masked row, by what other rows enable.
ghost use Rattle.std.specs.Prelude.{◌≡◌};
ghost use Rattle.x86defs.specs.Functions.{cpuid_result};
ghost use Rattle.finish.specs.Finish.{has_ymm, has_avx512, has_cet, ymm_clears, version_ecx, features_ebx, features_ecx, features_edx, extended_version_ecx, extended_version_edx, address_sizes_ebx, unless_no_xss};
ghost use Rattle.finish.specs.FeaturesInCode.{clears_with, enabled_with, enabled_from};

use checks::max_xss;
use table::edition::EditionBits;
use x86defs::{CpuidResult, ibpb, tsc_aux_virtualization};

// The clear masks: the bits cleared where the YMM state is absent, in every edition of the rule, and without AVX-512 state.
const YMM_VERSION_ECX: u32 = 0x10001000;

const YMM_FEATURES_EBX: u32 = 0x20;

const YMM_FEATURES_ECX: u32 = 0x700;

const AVX512_FEATURES_EBX: u32 = 0xD0230000;

const AVX512_FEATURES_ECX: u32 = 0x5842;

const AVX512_FEATURES_EDX: u32 = 0x800100;

// CET without both of its XSS bits; RDPID and RDTSCP without TSC_AUX; IBRS and STIBP without IBPB.
const CET_SS: u32 = 0x80;

const RD_PID: u32 = 0x400000;

const RDTSCP: u32 = 0x8000000;

const IBRS_AND_STIBP: u32 = 0xC000;

// Always set.
const BTC_NO: u32 = 0x20000000;

const HYPERVISOR_PRESENT: u32 = 0x80000000;

// The bits cleared when the YMM state is absent, one mask for each register.
#[derive(Clone, Copy)]
pub struct YmmClears {
    pub version_ecx: u32,
    pub features_ebx: u32,
    pub features_ecx: u32,
    pub extended_version_ecx: u32,
}

impl YmmClears {
    // By the edition of the rule.
    pub fn of(edition: u32) -> Self
        ensures { clears_with result ≡ ymm_clears edition }
    {
        let further = EditionBits::between(1, edition);
        Self {
            version_ecx: further.version_ecx | YMM_VERSION_ECX,
            features_ebx: YMM_FEATURES_EBX,
            features_ecx: YMM_FEATURES_ECX,
            extended_version_ecx: further.extended_version_ecx,
        }
    }
}

// The facts that switch feature bits of other rows on or off.
#[derive(Clone, Copy)]
pub struct Enabled {
    pub xfem: u32,
    pub xss: u32,
    pub tsc_aux: bool,
}

impl Enabled {
    // From the rows of D.0, D.1 and 8000001Fh.
    pub fn new(subleaf0: CpuidResult, subleaf1: CpuidResult, sev: CpuidResult) -> Self
        ensures { enabled_with result ≡ enabled_from subleaf0 subleaf1 sev }
    {
        Self {
            xfem: subleaf0.eax,
            xss: max_xss(subleaf1),
            tsc_aux: tsc_aux_virtualization(sev.eax),
        }
    }

    fn has_ymm(self) -> bool
        ensures { result ≡ has_ymm (enabled_with self) }
    {
        bits::has_bit(self.xfem, 2)
    }

    // AVX-512 needs YMM too.
    fn has_avx512(self) -> bool
        ensures { result ≡ has_avx512 (enabled_with self) }
    {
        bits::has_bit(self.xfem, 2)
            & (bits::has_bit(self.xfem, 5)
                & (bits::has_bit(self.xfem, 6) & bits::has_bit(self.xfem, 7)))
    }

    // Both of its XSS bits.
    fn has_cet(self) -> bool
        ensures { result ≡ has_cet (enabled_with self) }
    {
        bits::has_bit(self.xss, 11) & bits::has_bit(self.xss, 12)
    }
}

// Leaf 1.
pub fn version_and_features(y: YmmClears, e: Enabled, r: CpuidResult) -> CpuidResult
    ensures { result ≡ cpuid_result r.eax r.ebx (version_ecx (clears_with y) (enabled_with e) r.ecx) r.edx }
{
    let ecx = bits::clear_unless(e.has_ymm(), y.version_ecx, r.ecx) | HYPERVISOR_PRESENT;
    CpuidResult { ecx, ..r }
}

// Leaf 7.
pub fn extended_features(y: YmmClears, e: Enabled, r: CpuidResult) -> CpuidResult
    ensures { result ≡ cpuid_result r.eax (features_ebx (clears_with y) (enabled_with e) r.ebx)
        (features_ecx (clears_with y) (enabled_with e) r.ecx) (features_edx (enabled_with e) r.edx) }
{
    let ymm = e.has_ymm();
    let avx512 = e.has_avx512();
    let ymm_ebx = bits::clear_unless(ymm, y.features_ebx, r.ebx);
    let ebx = bits::clear_unless(avx512, AVX512_FEATURES_EBX, ymm_ebx);
    let cet_ecx = bits::clear_unless(e.has_cet(), CET_SS, r.ecx);
    let ymm_ecx = bits::clear_unless(ymm, y.features_ecx, cet_ecx);
    let avx512_ecx = bits::clear_unless(avx512, AVX512_FEATURES_ECX, ymm_ecx);
    let ecx = bits::clear_unless(e.tsc_aux, RD_PID, avx512_ecx);
    let edx = bits::clear_unless(avx512, AVX512_FEATURES_EDX, r.edx);
    CpuidResult { ebx, ecx, edx, ..r }
}

// D.1: nothing of XSS where XSS is 0.
pub fn extended_state_1(e: Enabled, r: CpuidResult) -> CpuidResult
    ensures { result ≡ cpuid_result r.eax r.ebx (unless_no_xss (enabled_with e) r.ecx) (unless_no_xss (enabled_with e) r.edx) }
{
    if e.xss == 0 {
        return CpuidResult {
            ecx: 0,
            edx: 0,
            ..r
        };
    }
    r
}

// Leaf 80000001h.
pub fn extended_version_and_features(y: YmmClears, e: Enabled, r: CpuidResult) -> CpuidResult
    ensures { result ≡ cpuid_result r.eax r.ebx (extended_version_ecx (clears_with y) (enabled_with e) r.ecx)
        (extended_version_edx (enabled_with e) r.edx) }
{
    let ecx = bits::clear_unless(e.has_ymm(), y.extended_version_ecx, r.ecx);
    let edx = bits::clear_unless(e.tsc_aux, RDTSCP, r.edx);
    CpuidResult { ecx, edx, ..r }
}

// Leaf 80000008h.
pub fn update_extended_address_space_sizes(r: CpuidResult) -> CpuidResult
    ensures { result ≡ cpuid_result r.eax (address_sizes_ebx r.ebx) r.ecx r.edx }
{
    let ebx = bits::clear_unless(ibpb(r.ebx), IBRS_AND_STIBP, r.ebx | BTC_NO);
    CpuidResult { ebx, ..r }
}
