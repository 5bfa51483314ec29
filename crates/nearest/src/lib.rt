// The nearest bit that matters: the first result bit of the pages whose flip changes the answer, or why there is none. The pages are not written.
#![tactic(auto)]

ghost use Rattle.std.specs.Prelude.{◌≡◌, true};
ghost use Rattle.table.specs.Edition.{known_edition};
ghost use Rattle.memory.specs.Memory.{rows_in};
ghost use Rattle.collect.specs.FirstEntries.{rows_of};
ghost use Rattle.collect.specs.Lawful.{lawful_verdict};
ghost use Rattle.nearest.specs.Flips.{flips};
ghost use Rattle.nearest.specs.Changes.{changes};
ghost use Rattle.nearest.specs.Nearest.{chosen, first_that, nearest};

use crate::flips::Flip;
use crate::search::decisive::first_bit;
use crate::search::irrelevant::check_unflipped;
use build::rows_into;
use masking::PLACES;
use memory::REGISTERS;
use table::{Choices, Refusal, Verdict};

pub mod flips;
pub mod search;

// The first single flip of a result bit that changes the table, the refusal or its details; or why none is named.
#[tactic(auto, using(crate::specs::NearestFrontLaws::front_told, std::proofs::lemmas::Result::err_from_is_err_and))]
pub fn nearest_bit(pages: &[u8], choices: Choices) -> Result<Flip, Refusal>
    ensures { result ≡ nearest choices pages.now }
{
    let mut registers: [u32; REGISTERS] = [0; REGISTERS];
    let mut origins: [u64; PLACES] = [0; PLACES];
    rows_into(pages, choices, &mut registers, &mut origins)?;
    search_flips(
        pages,
        choices.secure_avic,
        choices.edition,
        &registers,
        &origins,
    )
}

// The search, in the order of the entries, at the rows that the walk left in memory, which are checked once. A flip in an entry that is not the first
// of its place is passed over, and one in a first entry is tried at these rows. Lawful pages have no unclean entry.
fn search_flips(
    pages: &[u8],
    secure_avic: bool,
    edition: u32,
    registers: &[u32; REGISTERS],
    origins: &[u64; PLACES],
) -> Result<Flip, Refusal>
    requires { (known_edition edition ≡ true) × (lawful_verdict pages.now ≡ Ok tt)
        × (rows_in registers.now origins.now ≡ rows_of secure_avic pages.now) }
    ensures { result ≡ first_that (changes (chosen secure_avic edition) pages.now) (flips pages.now) }
{
    let kept = masking::masks::kept_leaves(secure_avic);
    let found = check_unflipped(registers, origins);
    let n = pages::page_count(pages);
    let mut seen = [false; PLACES];
    let mut index = pages::reader::start(pages);
    // kept as a while: the step is not one but to the reader's next entry, which may be on a later page
    while index.page_index < n {
        let read = pages::reader::take(pages, index);
        match read {
            Ok(entry) => {
                let place = collect::counted_place(entry);
                if place < PLACES {
                    if seen[place] {} else {
                        let row = masking::masks::mask_row(place);
                        let x = entry.result;
                        let bit = first_bit(
                            registers, origins, edition, found, kept[row], place, x,
                        );
                        if let Some(b) = bit {
                            let position = index.function_index as u32;
                            return Ok(Flip {
                                page: index.page_index,
                                entry: position,
                                register: b / 32,
                                bit: b % 32,
                            });
                        }
                        seen[place] = true;
                    }
                }
                let count = pages::count_of(pages, index.page_index) as usize;
                let next = pages::reader::step(pages, index, count);
                index = next;
            }
            Err(leaf) => {
                return Err(Refusal::ReservedBytes(leaf));
            }
        }
    }
    Err(Refusal::NothingDecides)
}
