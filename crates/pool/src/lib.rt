// One table for a pool of servers, from their page sets and a list of lengths: a table that any of them can keep, or its image, or one refusal with
// the server whose own it is.
#![tactic(auto)]

ghost use Rattle.std.specs.Prelude.{◌≡◌, true};
ghost use Rattle.pool.specs.Sets.{lawful_sets};
ghost use Rattle.pool.specs.Pool.{pooled, refused_pool};
ghost use Rattle.pool.specs.PoolIn.{PoolIn};

use crate::join::all_alike;
use crate::sets::server::server_into;
use crate::sets::{join_rest, sets_fit};
use masking::PLACES;
use memory::{REGISTERS, clear};
use rows::finish_rows;
use table::{Choices, CpuidResults, Refusal, Verdict};

mod join;
mod sets;
pub mod write;

// What pooling gives, as specs/Pool.antt has it: accepted with its table and where each row stood in the first server's pages, or refused with an
// empty one. `server` is the number, from 0, of the server whose own refusal it is, else 0. Kept as values beside a verdict: theorems speak
// of the table of a refusal, too.
#[derive(Clone, Copy)]
pub struct Pooled {
    pub verdict: Verdict,
    pub server: usize,
    pub table: CpuidResults,
    pub origins: [u64; PLACES],
}

// What is given beside the memory.
#[derive(Clone, Copy)]
pub struct PoolVerdict {
    pub verdict: Verdict,
    pub server: usize,
}

// A refusal, and the memory cleared.
fn refuse(
    registers: &mut [u32; REGISTERS],
    origins: &mut [u64; PLACES],
    r: Refusal,
    server: usize,
) -> PoolVerdict
    ensures { PoolIn (refused_pool r server) result registers.new origins.new }
{
    clear(registers, origins);
    PoolVerdict {
        verdict: Err(r),
        server,
    }
}

// Servers whose sets are lawful, joined in the first one's memory and finished there. 19 is decided over the rows that the finished table has, which
// are those that all servers' tables have.
fn pool_servers(
    pages: &[u8],
    lengths: &[u64],
    choices: Choices,
    registers: &mut [u32; REGISTERS],
    origins: &mut [u64; PLACES],
) -> PoolVerdict
    requires { lawful_sets pages.now lengths.now ≡ true }
    ensures { PoolIn (pooled choices pages.now lengths.now) result registers.new origins.new }
{
    let end = lengths[0] as usize;
    let first = server_into(&pages[0..end], choices, registers, origins);
    if let Err(r) = first {
        return refuse(registers, origins, r, 0);
    }
    let joined = join_rest(pages, lengths, choices, registers);
    let verdict = joined.verdict;
    if let Err(r) = verdict {
        return refuse(registers, origins, r, joined.server);
    }
    let built = finish_rows(registers, origins, choices.edition);
    let alike = joined.alike;
    if all_alike(origins, alike) {
        return PoolVerdict {
            verdict: built,
            server: 0,
        };
    }
    refuse(registers, origins, Refusal::PoolDiffers, 0)
}

// One table for a pool of servers, into memory that the caller lends, or one refusal: 18, then a server's own, then 19.
pub fn pool_into(
    pages: &[u8],
    lengths: &[u64],
    choices: Choices,
    registers: &mut [u32; REGISTERS],
    origins: &mut [u64; PLACES],
) -> PoolVerdict
    ensures { PoolIn (pooled choices pages.now lengths.now) result registers.new origins.new }
{
    if sets_fit(pages, lengths) {
        return pool_servers(pages, lengths, choices, registers, origins);
    }
    refuse(registers, origins, Refusal::PoolSets, 0)
}
