// The reserved bytes of an entry: whether the eight bytes at an index are zero.
ghost use Rattle.std.specs.Prelude.{◌≡◌, ◌+◌, ◌≤◌, ◌<◌, length};
ghost use Rattle.pages.specs.Layout.{pages_in, most_entries};
ghost use Rattle.pages.specs.Reserved.{eight_zeros, is_clean_at};

use crate::{CpuidPageIndex, ENTRIES_AT, ENTRY_SIZE, PAGE_SIZE};

const RESERVED: usize = 40;

// Whether the reserved bytes of the entry at an index are zero.
pub fn clean_at(pages: &[u8], index: CpuidPageIndex) -> bool
    requires { (index.page_index < pages_in pages.now) × (index.function_index < most_entries) }
    ensures { result ≡ is_clean_at pages.now index.page_index index.function_index }
{
    let start = PAGE_SIZE * index.page_index + ENTRIES_AT + ENTRY_SIZE * index.function_index;
    eight_zeros(pages, start + RESERVED)
}

// Whether the eight bytes at `o` are zero, by one number: so the compiler reads them at once.
fn eight_zeros(pages: &[u8], o: usize) -> bool
    requires { o + 8 ≤ length pages.now }
    ensures { result ≡ eight_zeros pages.now o }
{
    let number = u64::from_le_bytes([
        pages[o],
        pages[o + 1],
        pages[o + 2],
        pages[o + 3],
        pages[o + 4],
        pages[o + 5],
        pages[o + 6],
        pages[o + 7],
    ]);
    number == 0
}
