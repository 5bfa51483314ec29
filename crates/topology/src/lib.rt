// The processor topology: from five numbers of the masked rows the number of processors, or what is inconsistent; from that number the two rows of
// leaf Bh.
#![tactic(auto)]

ghost use Rattle.std.specs.Prelude.{◌≡◌, ◌&&◌, ◌+◌, ◌<◌, eqb, leb};
ghost use Rattle.topology.specs.Topology.{inputs, threads_in, topology_of, shift_of, thread_level, core_level};

use x86defs::CpuidResult;

// The source's reasons, with the size of the core part of an APIC number (s) where it names one.
#[derive(Clone, Copy)]
pub enum TopologyError {
    Hyperthreading(u8),
    ProcessorCount(u8),
    ThreadsPerUnit,
}

// The number of logical processors in a socket (v), or a reason to refuse, from s = 80000008h.ECX bits 12-15, nc = its bits 0-7, lps = 1.EBX bits
// 16-23, mt = 1.EDX bit 28, t = 8000001Eh.EBX bits 8-15. The numbers are wider than their fields, so nc + 1 is 256 where it is.
pub fn extended_topology(s: u32, nc: u32, lps: u32, mt: u32, t: u32) -> Result<u32, TopologyError>
    requires { (s < 16) × (nc < 256) }
    ensures { result ≡ topology_of (inputs s nc lps mt t) }
{
    let size = s as u8;
    if s == 0 {
        if mt == 0 {
            if one_processor(nc, lps) {
                return threads_in(1, t);
            }
            return Err(TopologyError::Hyperthreading(size));
        }
        if lps == nc + 1 {
            return threads_in(lps, t);
        }
        return Err(TopologyError::ProcessorCount(size));
    }
    let v = 1 << s;
    if s < 8 {
        if counts_agree(nc, lps, v) {
            if mt == 1 {
                return threads_in(v, t);
            }
            return Err(TopologyError::Hyperthreading(size));
        }
        return Err(TopologyError::ProcessorCount(size));
    }
    threads_in(v, t)
}

// Whether the older fields tell of one processor.
fn one_processor(nc: u32, lps: u32) -> bool
    ensures { result ≡ (eqb nc 0 && leb lps 1) }
{
    nc == 0 && lps <= 1
}

// Whether the older fields agree with v processors: lps is v, and nc + 1 at most v.
fn counts_agree(nc: u32, lps: u32, v: u32) -> bool
    requires { nc < 256 }
    ensures { result ≡ (leb (nc + 1) v && eqb lps v) }
{
    nc + 1 <= v && lps == v
}

// The last check: t above 1, or at least v, is inconsistent.
fn threads_in(v: u32, t: u32) -> Result<u32, TopologyError>
    ensures { result ≡ threads_in v t }
{
    if 1 < t {
        return Err(TopologyError::ThreadsPerUnit);
    }
    if v <= t {
        return Err(TopologyError::ThreadsPerUnit);
    }
    Ok(v)
}

// How many bits number v processors: the least k with 2^k at least v; 0 where v is 0. The leading zeros of v - 1 give it.
pub fn x2_apic_shift(v: u32) -> u32
    ensures { result ≡ shift_of v }
{
    if v == 0 {
        return 0;
    }
    32 - u32::leading_zeros(v - 1)
}

// ECX of leaf Bh: the number of the level, and from bit 8 on its type, 1 for threads and 2 for cores.
const LEVEL_SMT: u32 = 0x100;

const LEVEL_CORE: u32 = 0x201;

// B.0, the level of threads. SMT is on if t is 1.
pub fn thread_level(t: u32) -> CpuidResult
    ensures { result ≡ thread_level t }
{
    if t == 1 {
        CpuidResult {
            eax: 1,
            ebx: 2,
            ecx: LEVEL_SMT,
            edx: 0,
        }
    } else {
        CpuidResult {
            eax: 0,
            ebx: 1,
            ecx: LEVEL_SMT,
            edx: 0,
        }
    }
}

// B.1, the level of cores.
pub fn core_level(v: u32) -> CpuidResult
    ensures { result ≡ core_level v }
{
    CpuidResult {
        eax: x2_apic_shift(v),
        ebx: v,
        ecx: LEVEL_CORE,
        edx: 0,
    }
}
