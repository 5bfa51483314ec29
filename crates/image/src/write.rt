// Writes the image of a table in lent memory into a lent buffer. Refusal 9 leaves the buffer as it was.
ghost use Rattle.std.specs.Prelude.{◌≡◌, true, ◌+◌, ◌^◌, ◌≤◌, ◌<◌, length};
ghost use Rattle.std.proofs.lemmas.List.Edits.{sets};
ghost use Rattle.buffer.specs.Front.{write_front};
ghost use Rattle.buffer.specs.OnwardLaws.{Onward};
ghost use Rattle.masking.specs.Runs.{lawful_run};
ghost use Rattle.masking.specs.Place;
ghost use Rattle.memory.specs.Held.{held_in};
ghost use Rattle.image.specs.Image.{image};
ghost use Rattle.image.specs.ImagePieces.{indexed_row, whole_row, run_row, rows_from};
ghost use Rattle.image.specs.Components.{Components};

use crate::{components_there, length_with};
use buffer::{Written, put_registers, put_word};
use checks::FROM_2;
use masking::{PLACES, Run, place, run};
use memory::{REGISTERS, is_there, row_at};
use table::Refusal;
use x86defs::{CpuidFunction, CpuidResult, leaf};

// Subleaves 0 and 1 of leaf Dh: the places of its run before those of the components.
const STATES_0_AND_1: Run = Run {
    first: place::EXTENDED_STATE_0,
    count: 2,
    leaf: CpuidFunction(leaf::EXTENDED_STATE_ENUMERATION),
    indexed: true,
    row: 5,
    last_row: 6,
};

// Writes a table's image at the front of a lent buffer. A buffer that is too short is refused, and stays as it was.
pub fn write_table(registers: &[u32; REGISTERS], origins: &[u64; PLACES], out: &mut [u8]) -> Written
    ensures { (result ≡ (write_front (image (held_in registers.now origins.now)) out.old).answer)
        × (out.new ≡ (write_front (image (held_in registers.now origins.now)) out.old).buffer) }
{
    let components = components_there(origins);
    let n = length_with(origins, components);
    write_rows(registers, origins, components, n, out)
}

// The same where it is known which components have a row, and how many bytes the image has.
pub fn write_rows(
    registers: &[u32; REGISTERS],
    origins: &[u64; PLACES],
    components: u64,
    n: usize,
    out: &mut [u8],
) -> Written
    requires { Components origins.now components × (n ≡ length (image (held_in registers.now origins.now))) }
    ensures { (result ≡ (write_front (image (held_in registers.now origins.now)) out.old).answer)
        × (out.new ≡ (write_front (image (held_in registers.now origins.now)) out.old).buffer) }
{
    if out.len() < n {
        return Err(Refusal::BufferTooShort);
    }
    put_rows(registers, origins, components, out);
    Ok(n)
}

// Writes the rows one after another, run by run: each run is a constant, and so are the leaf and the place of each row but those of the components.
fn put_rows(registers: &[u32; REGISTERS], origins: &[u64; PLACES], components: u64, out: &mut [u8])
    requires { Components origins.now components × (length (image (held_in registers.now origins.now)) ≤ length out.old) }
    ensures { out.new ≡ sets out.old 0 (image (held_in registers.now origins.now)) }
{
    let at1 = put_run(registers, origins, run::BASIC, out, 0);
    let at2 = put_run(registers, origins, run::MONITOR_MWAIT, out, at1);
    let at3 = put_run(registers, origins, run::EXTENDED_FEATURES, out, at2);
    let at4 = put_run(registers, origins, run::EXTENDED_TOPOLOGY, out, at3);
    let at5 = put_run(registers, origins, STATES_0_AND_1, out, at4);
    let at6 = put_components(registers, origins, components, out, at5);
    let at7 = put_run(registers, origins, run::EXTENDED, out, at6);
    let at8 = put_run(registers, origins, run::SVM, out, at7);
    let at9 = put_run(registers, origins, run::TLB_AND_OPTIMIZATION, out, at8);
    let at10 = put_run(registers, origins, run::CACHE_TOPOLOGY, out, at9);
    put_run(
        registers,
        origins,
        run::PROCESSOR_TOPOLOGY_AND_SEV,
        out,
        at10,
    );
}

// Writes the rows of a run's places, from index `from` on, and gives the index after them.
fn put_run(
    registers: &[u32; REGISTERS],
    origins: &[u64; PLACES],
    run: Run,
    out: &mut [u8],
    from: usize,
) -> usize
    requires { (lawful_run run ≡ true) × (from + length (rows_from (held_in registers.now origins.now) run.first) ≤ length out.old) }
    ensures { Onward (rows_from (held_in registers.now origins.now))
        out.old from run.first out.new result (run.first + run.count) }
{
    let mut at = from;
    for k in 0..run.count {
        let place = run.first + k as usize;
        let origin = origins[place];
        let r = row_at(registers, place);
        at = put_place(out, at, run, k, is_there(origin), r);
    }
    at
}

// Writes the rows of the components that are there, from index `from` on, and gives the index after them. The contract alone needs `origins`.
fn put_components(
    registers: &[u32; REGISTERS],
    origins: &[u64; PLACES],
    components: u64,
    out: &mut [u8],
    from: usize,
) -> usize
    requires { Components origins.now components
        × (from + length (rows_from (held_in registers.now origins.now) (Place.extended_state 2)) ≤ length out.old) }
    ensures { Onward (rows_from (held_in registers.now origins.now))
        out.old from (Place.extended_state 2) out.new result Place.extended_max_function }
{
    let mut at = from;
    let mut rest = components & FROM_2;
    // kept as a while: the step is not one but the place of the next set bit
    while rest != 0 {
        let subleaf = u64::trailing_zeros(rest);
        let r = row_at(registers, place::EXTENDED_STATE_0 + subleaf as usize);
        put_indexed_row(
            out,
            at,
            CpuidFunction(leaf::EXTENDED_STATE_ENUMERATION),
            subleaf,
            r,
        );
        at += 25;
        rest = rest & (rest - 1);
    }
    at
}

// Writes the row of the `k`-th place of a run, if it is there, and gives the index after it.
fn put_place(out: &mut [u8], at: usize, run: Run, k: u32, present: bool, r: CpuidResult) -> usize
    requires { (run.leaf.0 + k < 2 ^ 32) × (at + length (run_row run k present r) ≤ length out.old) }
    ensures { (result ≡ at + length (run_row run k present r)) × (out.new ≡ sets out.old at (run_row run k present r)) }
{
    if present {
        let leaf = run.leaf;
        if run.indexed {
            put_indexed_row(out, at, leaf, k, r);
            return at + 25;
        }
        put_whole_row(out, at, CpuidFunction(leaf.0 + k), r);
        return at + 21;
    }
    at
}

// A row with a subleaf: byte 2, leaf, subleaf and the four registers.
fn put_indexed_row(out: &mut [u8], at: usize, leaf: CpuidFunction, subleaf: u32, r: CpuidResult)
    requires { at + 25 ≤ length out.old }
    ensures { out.new ≡ sets out.old at (indexed_row leaf subleaf r) }
{
    out[at] = 2;
    put_word(out, at + 1, leaf.0);
    put_word(out, at + 5, subleaf);
    put_registers(out, at + 9, r);
}

// A row without: byte 1, leaf and the four registers.
fn put_whole_row(out: &mut [u8], at: usize, leaf: CpuidFunction, r: CpuidResult)
    requires { at + 21 ≤ length out.old }
    ensures { out.new ≡ sets out.old at (whole_row leaf r) }
{
    out[at] = 1;
    put_word(out, at + 1, leaf.0);
    put_registers(out, at + 5, r);
}
