// Writes a table as a list for KVM into a lent buffer, from pages or from a table in lent memory. A refusal leaves the buffer as it was.
#![tactic(auto)]

ghost use Rattle.std.specs.Prelude.{◌≡◌, true, ◌+◌, ◌^◌, ◌≤◌, ◌<◌, length};
ghost use Rattle.std.proofs.lemmas.List.Edits.{sets};
ghost use Rattle.memory.specs.Held.{held_in};
ghost use Rattle.buffer.specs.Front.{write_front};
ghost use Rattle.buffer.specs.OnwardLaws.{Onward};
ghost use Rattle.masking.specs.Runs.{lawful_run};
ghost use Rattle.kvm_export.specs.Export.{list_of, write_list};
ghost use Rattle.kvm_export.specs.ExportPieces.{row_bytes, run_row, rows_left};

use buffer::{Written, put_registers, put_word};
use build::build_into;
use image::rows_among;
use kvm_list::{HEAD_SIZE, ROW_SIZE, put_zeros};
use masking::run::RUNS;
use masking::{PLACES, Run};
use memory::{REGISTERS, is_there, row_at};
use table::{Choices, Refusal, Verdict};
use x86defs::{CpuidFunction, CpuidResult};

// Builds the table of the given pages and writes its list. Building's refusals come first, and leave the buffer as it was.
pub fn write_list(pages: &[u8], choices: Choices, out: &mut [u8]) -> Written
    ensures value { result ≡ (write_list choices pages.now out.old).answer }
    ensures out_after { out.new ≡ (write_list choices pages.now out.old).buffer }
{
    let mut registers: [u32; REGISTERS] = [0; REGISTERS];
    let mut origins: [u64; PLACES] = [0; PLACES];
    build_into(pages, choices, &mut registers, &mut origins)?;
    write_table(&registers, &origins, out)
}

// Writes a table's list at the front of a lent buffer. A buffer that is too short is refused, and stays as it was.
pub fn write_table(registers: &[u32; REGISTERS], origins: &[u64; PLACES], out: &mut [u8]) -> Written
    ensures { (result ≡ (write_front (list_of (held_in registers.now origins.now)) out.old).answer)
        × (out.new ≡ (write_front (list_of (held_in registers.now origins.now)) out.old).buffer) }
{
    let n = rows_among(origins, 0, PLACES) as usize;
    let size = HEAD_SIZE + ROW_SIZE * n;
    if out.len() < size {
        return Err(Refusal::BufferTooShort);
    }
    put_word(out, 0, n as u32);
    put_word(out, 4, 0);
    put_rows(registers, origins, out);
    Ok(size)
}

// Writes the rows of a table one after another, after the head, run by run, so that the leaf is at hand.
fn put_rows(registers: &[u32; REGISTERS], origins: &[u64; PLACES], out: &mut [u8])
    requires { 8 + length (rows_left (held_in registers.now origins.now) 0) ≤ length out.old }
    ensures { out.new ≡ sets out.old 8 (rows_left (held_in registers.now origins.now) 0) }
{
    let mut at = HEAD_SIZE;
    for run in &RUNS {
        at = put_run(registers, origins, *run, out, at);
    }
}

// Writes the rows of a run's places, from index `from` on, and gives the index after them.
fn put_run(
    registers: &[u32; REGISTERS],
    origins: &[u64; PLACES],
    run: Run,
    out: &mut [u8],
    from: usize,
) -> usize
    requires { (lawful_run run ≡ true) × (from + length (rows_left (held_in registers.now origins.now) run.first) ≤ length out.old) }
    ensures { Onward (rows_left (held_in registers.now origins.now))
        out.old from run.first out.new result (run.first + run.count) }
{
    let mut at = from;
    for k in 0..run.count {
        let place = run.first + k as usize;
        let origin = origins[place];
        let r = row_at(registers, place);
        at = put_place(out, at, run, k, is_there(origin), r);
    }
    at
}

// Writes the row of the `k`-th place of a run, if it is there, and gives the index after it.
fn put_place(out: &mut [u8], at: usize, run: Run, k: u32, present: bool, r: CpuidResult) -> usize
    requires { (run.leaf.0 + k < 2 ^ 32) × (at + length (run_row run k present r) ≤ length out.old) }
    ensures { (result ≡ at + length (run_row run k present r)) × (out.new ≡ sets out.old at (run_row run k present r)) }
{
    if present {
        let leaf = run.leaf;
        if run.indexed {
            put_row(out, at, leaf, k, 1, r);
            return at + ROW_SIZE;
        }
        put_row(out, at, CpuidFunction(leaf.0 + k), 0, 0, r);
        return at + ROW_SIZE;
    }
    at
}

// Function, index, flags, the four registers and three zero words.
fn put_row(out: &mut [u8], at: usize, leaf: CpuidFunction, index: u32, flags: u32, r: CpuidResult)
    requires { at + 40 ≤ length out.old }
    ensures { out.new ≡ sets out.old at (row_bytes leaf.0 index flags r) }
{
    put_word(out, at, leaf.0);
    put_word(out, at + 4, index);
    put_word(out, at + 8, flags);
    put_registers(out, at + 12, r);
    put_zeros(out, at + 28, at + ROW_SIZE);
}
