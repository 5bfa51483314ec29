// Lent buffers: stores numbers and registers at an index, the lowest byte first. What a write answers is said here too.
#![tactic(auto)]

ghost use Rattle.std.specs.Prelude.{◌≡◌, ◌+◌, ◌≤◌, length};
ghost use Rattle.std.proofs.lemmas.List.Edits.{sets};
ghost use Rattle.buffer.specs.Front.{word_bytes, register_bytes};

use table::Refusal;
use x86defs::CpuidResult;

// How many bytes were written, or why none was.
pub type Written = Result<usize, Refusal>;

// EAX, EBX, ECX, EDX.
pub fn put_registers(out: &mut [u8], at: usize, r: CpuidResult)
    requires { at + 16 ≤ length out.old }
    ensures { out.new ≡ sets out.old at (register_bytes r) }
{
    put_word(out, at, r.eax);
    put_word(out, at + 4, r.ebx);
    put_word(out, at + 8, r.ecx);
    put_word(out, at + 12, r.edx);
}

// A number as four bytes, the lowest first.
pub fn put_word(out: &mut [u8], at: usize, x: u32)
    requires { at + 4 ≤ length out.old }
    ensures { out.new ≡ sets out.old at (word_bytes x) }
{
    out[at..at + 4].copy_from_slice(&x.to_le_bytes());
}
