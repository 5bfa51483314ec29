// The page sets of a pool, end to end beside a list of their lengths: whether they are lawful, and the rows of all servers, up to one that is
// refused, joined in lent memory.
ghost use Rattle.std.specs.Prelude.{◌≡◌, true};
ghost use Rattle.pool.specs.Sets.{lawful_sets};
ghost use Rattle.pool.specs.PoolJoinLaws.{registers_of};
ghost use Rattle.pool.specs.Servers.{server_verdict, server_rows, JoinsRest};

use crate::join::{all_places, with_server};
use crate::sets::server::server_into;
use masking::PLACES;
use memory::REGISTERS;
use table::{Choices, Verdict};

pub mod server;

// So many servers a pool has at most: `most_sets` of specs/Sets.antt.
pub const MOST_SETS: usize = 16;

// What joining gives beside the joined registers: the first server that is refused, or that none is, and the places at which those that were
// joined are like the first.
#[derive(Clone, Copy)]
pub struct Joined {
    pub verdict: Verdict,
    pub server: usize,
    pub alike: [bool; PLACES],
}

// Whether there are 2 to `MOST_SETS` sets, and their lengths sum to that of the slice: each is taken from what is left of it, so no sum can wrap.
pub fn sets_fit(pages: &[u8], lengths: &[u64]) -> bool
    ensures { result ≡ lawful_sets pages.now lengths.now }
{
    let n = lengths.len();
    if n < 2 {
        return false;
    }
    if n > MOST_SETS {
        return false;
    }
    let mut left = pages.len();
    for length in lengths {
        let length = *length as usize;
        if length > left {
            return false;
        }
        left -= length;
    }
    left == 0
}

// The servers after the first, whose registers are in the memory: each is walked once and in order, into memory of its own, and joined, up to one
// that is refused.
pub fn join_rest(
    pages: &[u8],
    lengths: &[u64],
    choices: Choices,
    registers: &mut [u32; REGISTERS],
) -> Joined
    requires { (lawful_sets pages.now lengths.now ≡ true) × (server_verdict choices pages.now lengths.now 0 ≡ Ok tt)
        × (registers.old ≡ registers_of (server_rows choices pages.now lengths.now 0)) }
    ensures { JoinsRest choices pages.now lengths.now result registers.new }
{
    let mut other: [u32; REGISTERS] = [0; REGISTERS];
    let mut stands: [u64; PLACES] = [0; PLACES];
    let mut start = lengths[0] as usize;
    let mut alike = all_places();
    for k in 1..lengths.len() {
        let end = start + lengths[k] as usize;
        let verdict = server_into(&pages[start..end], choices, &mut other, &mut stands);
        if let Err(r) = verdict {
            return Joined {
                verdict: Err(r),
                server: k,
                alike,
            };
        }
        let found = with_server(registers, &other, alike);
        alike = found;
        start = end;
    }
    Joined {
        verdict: Ok(()),
        server: 0,
        alike,
    }
}
