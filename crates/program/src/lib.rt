// The program's output: the image of the input's pages, or the bytes that say why there is none.
#![tactic(auto)]

ghost use Rattle.std.specs.Prelude.{◌≡◌, [], ◌∷◌, ◌++◌, length, drop};
ghost use Rattle.buffer.specs.Front.{write_front};
ghost use Rattle.program.specs.Output.{output};
ghost use Rattle.program.specs.ProgramBytes.{code_of, number_bytes};
ghost use Rattle.program.specs.ProgramFits.{room};

use buffer::{Written, put_word};
use build::build_into;
use image::write::write_table;
use masking::PLACES;
use memory::REGISTERS;
use table::numbers::AnswerNumbers;
use table::{Choices, Refusal, Verdict};

const LONGEST_INPUT: usize = 65536;

// Secure AVIC off, edition 1.
const CHOICES: Choices = Choices {
    secure_avic: false,
    edition: 1,
};

const REFUSAL_BYTES: usize = 11;

// Room for every output: an image has 732 bytes at the most.
pub const ROOM: usize = 1024;

// Document 01's bytes for an input of any length, at the front of a buffer in which there is always room for them, and how many they are.
pub fn put_output(input: &[u8], out: &mut [u8; ROOM]) -> usize
    ensures value { (result ≡ length (output input.now)) × (out.new ≡ output input.now ++ drop result out.old) }
    ensures kept { length out.new ≡ room }
{
    write_output(input, out).unwrap_or(0)
}

// Document 01's bytes for an input of any length, at the front of a lent buffer that has room for them.
pub fn write_output(input: &[u8], out: &mut [u8]) -> Written
    ensures { (result ≡ (write_front (output input.now) out.old).answer)
        × (out.new ≡ (write_front (output input.now) out.old).buffer) }
{
    if input.len() > LONGEST_INPUT {
        return put_too_long(out);
    }
    let mut registers: [u32; REGISTERS] = [0; REGISTERS];
    let mut origins: [u64; PLACES] = [0; PLACES];
    let verdict = build_into(input, CHOICES, &mut registers, &mut origins);
    if let Err(refusal) = verdict {
        return put_refusal(AnswerNumbers::from(refusal), out);
    }
    write_table(&registers, &origins, out)
}

// Byte 4.
fn put_too_long(out: &mut [u8]) -> Written
    ensures { (result ≡ (write_front (4 ∷ []) out.old).answer) × (out.new ≡ (write_front (4 ∷ []) out.old).buffer) }
{
    if out.len() < 1 {
        return Err(Refusal::BufferTooShort);
    }
    out[0] = 4;
    Ok(1)
}

// Byte 3, the number, leaf, subleaf (none FFFFFFFFh), s.
fn put_refusal(numbers: AnswerNumbers, out: &mut [u8]) -> Written
    ensures { (result ≡ (write_front (number_bytes numbers) out.old).answer)
        × (out.new ≡ (write_front (number_bytes numbers) out.old).buffer) }
{
    if out.len() < REFUSAL_BYTES {
        return Err(Refusal::BufferTooShort);
    }
    out[0] = 3;
    out[1] = numbers.number;
    put_word(out, 2, numbers.leaf);
    put_word(out, 6, subleaf_code(numbers));
    out[10] = numbers.s;
    Ok(REFUSAL_BYTES)
}

// The subleaf, or FFFFFFFFh for none.
fn subleaf_code(numbers: AnswerNumbers) -> u32
    ensures { result ≡ code_of numbers }
{
    if numbers.has_subleaf == 0 {
        return 0xFFFF_FFFF;
    }
    numbers.subleaf
}
