// Reads an image into lent memory: the rows of the table whose image the bytes are, or none where they are no image.
#![tactic(auto)]

ghost use Rattle.std.specs.Prelude.{◌≡◌, true, ◌+◌, ◌^◌, ◌≤◌, ◌<◌, length, drop};
ghost use Rattle.bits.specs.Choice.{pick};
ghost use Rattle.masking.specs.Runs.{lawful_run};
ghost use Rattle.memory.specs.Held.{held_in};
ghost use Rattle.image_read.specs.ReadImage.{opens, read_image};
ghost use Rattle.image_read.specs.ReadIn.{FoundIn, ReadIn};
ghost use Rattle.image_read.specs.ImageRuns.{run_begins};
ghost use Rattle.image_read.specs.ReadingLaws.{Reading};

use masking::run::RUNS;
use masking::{PLACES, Run};
use memory::origins::NOT_KNOWN;
use memory::{REGISTERS, clear, put_row};
use pages::{registers_at, word_at};
use table::CpuidResults;
use x86defs::CpuidFunction;

// The bytes of a row without a subleaf, and of one with.
const WHOLE_ROW: usize = 21;

const INDEXED_ROW: usize = 25;

// Whether bytes are an image, and of which table; an empty one if they are none. Kept as two values: theorems speak of the empty table, too.
#[derive(Clone, Copy)]
pub struct ReadImage {
    pub is_image: bool,
    pub table: CpuidResults,
}

// The table whose image the bytes are goes into memory, and whether they are one comes out; where they are none, the memory is cleared.
pub fn read_image(
    bytes: &[u8],
    registers: &mut [u32; REGISTERS],
    origins: &mut [u64; PLACES],
) -> bool
    ensures read_in { ReadIn bytes.now result registers.new origins.new }
    ensures held { held_in registers.new origins.new ≡ (read_image bytes.now).table }
{
    let end = read_rows(bytes, registers, origins);
    if end == bytes.len() {
        return true;
    }
    clear(registers, origins);
    false
}

// Goes from place to place, run by run, as the image is written: the next bytes are the place's row, or the place has none. Gives the index after
// the rows.
fn read_rows(bytes: &[u8], registers: &mut [u32; REGISTERS], origins: &mut [u64; PLACES]) -> usize
    ensures { FoundIn bytes.now result registers.new origins.new }
{
    clear(registers, origins);
    let mut at = 0;
    for run in &RUNS {
        at = read_run(bytes, *run, registers, origins, at);
    }
    at
}

// Reads the rows of a run's places, from index `from` on, and gives the index after them.
fn read_run(
    bytes: &[u8],
    run: Run,
    registers: &mut [u32; REGISTERS],
    origins: &mut [u64; PLACES],
    from: usize,
) -> usize
    requires { (lawful_run run ≡ true) × Reading bytes.now from run.first registers.old origins.old }
    ensures { Reading bytes.now result (run.first + run.count) registers.new origins.new }
{
    let mut at = from;
    for k in 0..run.count {
        if row_begins(bytes, at, run, k) {
            let length = row_length(run.indexed);
            let place = run.first + k as usize;
            put_row(registers, place, registers_at(bytes, at + length - 16));
            origins[place] = NOT_KNOWN;
            at += length;
        }
    }
    at
}

// How many bytes a row has.
fn row_length(indexed: bool) -> usize
    ensures value { result ≡ pick indexed 25 21 }
    ensures small { (16 ≤ result) × (result ≤ 25) }
{
    if indexed { INDEXED_ROW } else { WHOLE_ROW }
}

// Whether the bytes from `at` on begin with the row of the `k`-th place of a run.
fn row_begins(bytes: &[u8], at: usize, run: Run, k: u32) -> bool
    requires { (at ≤ length bytes.now) × (run.leaf.0 + k < 2 ^ 32) }
    ensures { result ≡ run_begins (drop at bytes.now) run k }
{
    let leaf = run.leaf;
    if run.indexed {
        if row_opens(bytes, at, INDEXED_ROW, 2, leaf) {
            return word_at(bytes, at + 5) == k;
        }
        return false;
    }
    row_opens(bytes, at, WHOLE_ROW, 1, CpuidFunction(leaf.0 + k))
}

// Whether they begin with the kind and the leaf of a row, and are no fewer than it has.
fn row_opens(bytes: &[u8], at: usize, n: usize, kind: u8, leaf: CpuidFunction) -> bool
    requires { (at ≤ length bytes.now) × (5 ≤ n) }
    ensures { result ≡ opens (drop at bytes.now) n kind leaf.0 }
{
    if bytes.len() - at < n {
        return false;
    }
    if bytes[at] == kind {
        return word_at(bytes, at + 1) == leaf.0;
    }
    false
}
