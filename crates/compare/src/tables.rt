// Compares two tables in lent memory: whether a guest of A's may move to B's, or the first thing in the way.
ghost use Rattle.std.specs.Prelude.{◌≡◌};
ghost use Rattle.memory.specs.Held.{held_in};
ghost use Rattle.compare.specs.RowsCompared.{compared_tables};
ghost use Rattle.compare.specs.TablesMean.{DecidesTables};

use crate::search::{Asked, RowsCompared, compare_rows};
use masking::PLACES;
use memory::{REGISTERS, combined_mask};

// The same of two tables, with the combined masks that their rows give.
pub fn compare_tables(
    a_registers: &[u32; REGISTERS],
    a_origins: &[u64; PLACES],
    b_registers: &[u32; REGISTERS],
    b_origins: &[u64; PLACES],
) -> RowsCompared
    ensures value { result ≡ compared_tables (held_in a_registers.now a_origins.now)
        (held_in b_registers.now b_origins.now) }
    ensures decides { DecidesTables (held_in a_registers.now a_origins.now)
        (held_in b_registers.now b_origins.now) result }
{
    let a_mask = combined_mask(a_registers);
    let b_mask = combined_mask(b_registers);
    compare_rows(
        Asked::Tables(a_mask, b_mask),
        a_registers,
        a_origins,
        b_registers,
        b_origins,
    )
}
