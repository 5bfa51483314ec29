// From pages to the 88 rows in lent memory: one walk collects the first entry of each place and where it stands, and `mask` masks the rows there.
// Pages that are not lawful are refused by 1, 2 or 17.
#![tactic(auto)]

mod full;
pub mod mask;

ghost use Rattle.std.specs.Prelude.{◌≡◌, true};
ghost use Rattle.masking.specs.Masks.{apply_mask};
ghost use Rattle.masking.specs.MaskTable.{masks_of};
ghost use Rattle.collect.specs.FirstEntries.{words, set_legacy};
ghost use Rattle.collect.specs.Collect.{counted_place};
ghost use Rattle.pages.specs.Layout.{counts_fit};
ghost use Rattle.memory.specs.Memory.{Cleared};
ghost use Rattle.collect.specs.Full.{Asked};
ghost use Rattle.collect.specs.WalkingLaws.{Added};
ghost use Rattle.collect.specs.Walked.{Walked};
ghost use Rattle.collect.specs.WalkedPages.{WalkedPages};
ghost use Rattle.collect.specs.FirstEntry.{first_entry_of};

use masking::masks::KeptLeaf;
use masking::{PLACES, place};
use memory::{REGISTERS, clear, put_row};
use pages::ParsedCpuidEntry;
use table::{Refusal, Verdict};
use x86defs::{CpuidFunction, CpuidResult, leaf};

pub const LEGACY_FEATURES: u32 = 3;

const WORD: u32 = 0xFFFF_FFFF;

// Refusals 1, 2 and 17, in this order: whether length and counts of the pages are lawful, and their reserved bytes zero. The same walk stores the
// masked first entries and where each stands in memory that comes without rows. Pages that are not lawful leave it without rows.
pub fn walk_pages(
    pages: &[u8],
    secure_avic: bool,
    registers: &mut [u32; REGISTERS],
    origins: &mut [u64; PLACES],
) -> Verdict
    requires { Cleared registers.old origins.old }
    ensures { WalkedPages secure_avic pages.now result registers.new origins.new }
{
    if pages::bad_length(pages) {
        return Err(Refusal::PagesLength);
    }
    if pages::counts_fit(pages) {
        let walked = collect_into(pages, registers, origins);
        if let Err(leaf) = walked {
            clear(registers, origins);
            return Err(Refusal::ReservedBytes(leaf));
        }
        mask::mask_rows(secure_avic, registers, origins);
        return Ok(());
    }
    Err(Refusal::PageCount)
}

// The first entry of every place as it stands and where, from pages whose counts are lawful: what the reader gives, page by page, up to the first
// entry that is not clean. The memory is cleared before. A step to position 0 has left the page: with the count read once, that makes the inner loop
// a count of its entries.
fn collect_into(
    pages: &[u8],
    registers: &mut [u32; REGISTERS],
    origins: &mut [u64; PLACES],
) -> Result<(), CpuidFunction>
    requires { (counts_fit pages.now ≡ true) × Cleared registers.old origins.old }
    ensures { Walked pages.now result registers.new origins.new }
{
    let n = pages::page_count(pages);
    let mut index = pages::reader::start(pages);
    let mut full = full::NOT_KEPT;
    // kept as a while: the step is not one but to the reader's next entry, which may be on a later page
    while index.page_index < n {
        let page = index.page_index;
        let count = pages::count_of(pages, page) as usize;
        loop {
            let read = pages::reader::take(pages, index);
            match read {
                Ok(entry) => {
                    let origin = memory::origins::entry_number(
                        index.page_index,
                        index.function_index,
                    );
                    let after = add_entry(full, entry, origin, registers, origins);
                    full = after;
                    let next = pages::reader::step(pages, index, count);
                    index = next;
                    if index.function_index == 0 {
                        break;
                    }
                }
                Err(leaf) => {
                    return Err(leaf);
                }
            }
        }
    }
    Ok(())
}

// Adds an entry if it is the first of its place, and gives the full leaves after it. A place whose origin is 0 has no row yet.
fn add_entry(
    full: u64,
    entry: ParsedCpuidEntry,
    origin: u64,
    registers: &mut [u32; REGISTERS],
    origins: &mut [u64; PLACES],
) -> u64
    ensures { Added full entry origin registers.old origins.old result registers.new origins.new }
{
    let place = asked_place(full, entry, origins);
    if place < PLACES {
        if origins[place] == 0 {
            let r = entry.result;
            let row = words(r);
            put_row(registers, place, row);
            origins[place] = origin;
            return full;
        }
        return full::with_leaf(full, entry.leaf, origins);
    }
    full
}

// The place of an entry; 88 where it has none, or where it is known to have a row: by its leaf's bit, or of leaf Dh, which is never full, by its
// origin.
fn asked_place(full: u64, entry: ParsedCpuidEntry, origins: &[u64; PLACES]) -> usize
    ensures { Asked full entry origins.now result }
{
    let leaf = entry.leaf;
    if full::has_leaf(full, leaf) {
        return PLACES;
    }
    if leaf.0 == leaf::EXTENDED_STATE_ENUMERATION {
        let place = counted_place(entry);
        if place < PLACES {
            if origins[place] == 0 {
                return place;
            }
        }
        return PLACES;
    }
    masking::place_of(leaf, entry.subleaf)
}

// The registers as words of 32 bits, which they are: so a proof knows it of what the walk stores, and nothing is left of it in the compiled code.
fn words(r: CpuidResult) -> CpuidResult
    ensures { result ≡ words r }
{
    CpuidResult {
        eax: r.eax & WORD,
        ebx: r.ebx & WORD,
        ecx: r.ecx & WORD,
        edx: r.edx & WORD,
    }
}

// The place of an entry, or 88 where its leaf is filtered or it does not count: leaf Dh counts on page 1 alone.
pub fn counted_place(entry: ParsedCpuidEntry) -> usize
    ensures { result ≡ counted_place entry }
{
    let leaf = entry.leaf;
    if leaf.0 == leaf::EXTENDED_STATE_ENUMERATION {
        if entry.page == 1 {
            return masking::place_of(leaf, entry.subleaf);
        }
        return PLACES;
    }
    masking::place_of(leaf, entry.subleaf)
}

// The registers of one entry at its place, masked by a row of the table of kept leaves that the caller has.
pub fn masked_at(kept: KeptLeaf, place: usize, r: CpuidResult) -> CpuidResult
    ensures { result ≡ set_legacy place (apply_mask (masks_of kept) r) }
{
    let masked = masking::masks::apply_mask(kept, r);
    if place == place::EXTENDED_STATE_0 {
        return CpuidResult {
            eax: masked.eax | LEGACY_FEATURES,
            ebx: masked.ebx,
            ecx: masked.ecx,
            edx: masked.edx,
        };
    }
    masked
}

// Whether the pages are lawful, and the origin's number of the entry: 0 if there is none. Kept as two values: theorem `first_told` speaks of every
// pair.
#[derive(Clone, Copy)]
pub struct FirstEntry {
    pub verdict: Verdict,
    pub origin: u64,
}

// The first counted entry of a leaf that a table keeps, and of a subleaf where the leaf has them, whether or not a table is given.
pub fn first_entry(pages: &[u8], leaf: CpuidFunction, subleaf: u32) -> FirstEntry
    ensures { result ≡ first_entry_of pages.now leaf subleaf }
{
    let mut registers: [u32; REGISTERS] = [0; REGISTERS];
    let mut origins: [u64; PLACES] = [0; PLACES];
    let lawful = walk_pages(pages, false, &mut registers, &mut origins);
    if let Err(r) = lawful {
        return FirstEntry {
            verdict: Err(r),
            origin: 0,
        };
    }
    let place = masking::place_of(leaf, subleaf);
    if place < PLACES {
        return FirstEntry {
            verdict: Ok(()),
            origin: origins[place],
        };
    }
    FirstEntry {
        verdict: Ok(()),
        origin: 0,
    }
}
