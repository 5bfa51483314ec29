// The list that KVM takes and gives, struct kvm_cpuid2: its bytes in specs/, its sizes here, and what fills a stretch of a lent buffer with zeros.
#![tactic(auto)]

ghost use Rattle.std.specs.Prelude.{◌≡◌, ◌-◌, ◌≤◌, length, replicate};
ghost use Rattle.std.proofs.lemmas.List.Edits.{sets};

// The count and the zero word.
pub const HEAD_SIZE: usize = 8;

// Function, index, flags, EAX, EBX, ECX, EDX and three zero words.
pub const ROW_SIZE: usize = 40;

// Zeros from `from` up to `end`.
pub fn put_zeros(out: &mut [u8], from: usize, end: usize)
    requires { (from ≤ end) × (end ≤ length out.old) }
    ensures { out.new ≡ sets out.old from (replicate (end - from) 0) }
{
    out[from..end].fill(0);
}
