// Compares two servers by their pages, and two tables (`tables`): whether a guest of A may move to B, or the first thing in the way. One search over
// the rows serves both (`search`).
#![tactic(auto)]

pub mod registers;
pub mod search;
pub mod tables;

ghost use Rattle.std.specs.Prelude.{◌≡◌};
ghost use Rattle.compare.specs.Compare.{entries_named, compared};
ghost use Rattle.compare.specs.Means.{Decides};

use crate::registers::Register;
use crate::search::{Asked, RowsCompared, compare_rows};
use build::rows_into;
use masking::{PLACES, place};
use memory::REGISTERS;
use rows::finish_rows;
use table::{Choices, Refusal, Verdict};
use x86defs::CpuidFunction;

// What a comparison gives: B meets the hypothesis of demand 3; A is refused; B's length or counts are not lawful or its reserved bytes not zero;
// B has no counted entry for a row of A's table; or B's entry fails in a register.
#[derive(Clone, Copy)]
pub enum Compared {
    Rises,
    RefusedA(Refusal),
    UnlawfulB(Refusal),
    NoEntry(CpuidFunction, Option<u32>),
    Differs(CpuidFunction, Option<u32>, Register),
}

// Whether B meets the hypothesis of demand 3 beside A under the same choices, or the first thing that fails: A's refusal, then B's length, counts
// and reserved bytes, then the rows of A's table by rising leaf and subleaf, at each first B's entry and then EAX, EBX, ECX, EDX.
pub fn compare(a: &[u8], b: &[u8], choices: Choices) -> Compared
    ensures value { result ≡ compared choices a.now b.now }
    ensures decides { Decides choices a.now b.now result }
{
    let mut registers: [u32; REGISTERS] = [0; REGISTERS];
    let mut origins: [u64; PLACES] = [0; PLACES];
    let front = rows_into(a, choices, &mut registers, &mut origins);
    if let Err(refusal) = front {
        return Compared::RefusedA(refusal);
    }
    // A's entries, before its table takes their place: of the table only the places that have a row from an entry are asked
    let entries = registers;
    let verdict = finish_rows(&mut registers, &mut origins, choices.edition);
    if let Err(refusal) = verdict {
        return Compared::RefusedA(refusal);
    }
    origins[place::VENDOR_AND_MAX_FUNCTION] = 0;
    origins[place::EXTENDED_MAX_FUNCTION] = 0;
    registers = [0; REGISTERS];
    let mut origins_b: [u64; PLACES] = [0; PLACES];
    let lawful = rows_into(b, choices, &mut registers, &mut origins_b);
    if let Err(refusal) = lawful {
        return Compared::UnlawfulB(refusal);
    }
    entries_named(compare_rows(Asked::Entries, &entries, &origins, &registers, &origins_b))
}

// The answer that the rows give: B may have any further entry, and of masks nothing is asked.
fn entries_named(rows: RowsCompared) -> Compared
    ensures { result ≡ entries_named rows }
{
    match rows {
        RowsCompared::Rises => Compared::Rises,
        RowsCompared::NoRow(leaf, subleaf) => Compared::NoEntry(leaf, subleaf),
        RowsCompared::Differs(leaf, subleaf, register) => Compared::Differs(
            leaf, subleaf, register,
        ),
        RowsCompared::Beyond(_, _) => Compared::Rises,
        RowsCompared::MaskLacks => Compared::Rises,
    }
}
