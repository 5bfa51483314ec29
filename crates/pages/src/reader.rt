// The page reader, which borrows the caller's pages and steps its index in its own record, as the source's does. It gives the entry at the index, or
// that entry's leaf where its reserved bytes are not zero, and steps to the next one.
ghost use Rattle.std.specs.Prelude.{◌≡◌};
ghost use Rattle.pages.specs.Walk.{Counted, first_index, incremented};
ghost use Rattle.pages.specs.Read.{Readable, read_at};

use crate::{CpuidPageIndex, ParsedCpuidEntry};
use x86defs::CpuidFunction;

mod walk;

// The caller's pages, and where the reader stands on them.
#[derive(Drop)]
pub struct SnpCpuidIterator<'a> {
    pub cpuid_pages: &'a [u8],
    pub index: CpuidPageIndex,
}

// A reader at the first entry of the pages.
pub fn new<'a>(cpuid_pages: &'a [u8]) -> SnpCpuidIterator<'a>
    ensures { (result.cpuid_pages ≡ cpuid_pages.entry) × (result.index ≡ first_index cpuid_pages.now) }
{
    SnpCpuidIterator {
        cpuid_pages,
        index: walk::first_index(cpuid_pages),
    }
}

// The index stepped in the caller's own record, as `CpuidPageIndex::increment` does, where the count of its page is known.
pub fn increment(index: &mut CpuidPageIndex, pages: &[u8], count: usize)
    requires { Counted pages.now index.old count }
    ensures { index.new ≡ incremented pages.now index.old }
{
    *index = walk::increment(pages, *index, count);
}

// Where a new reader stands.
pub fn start(pages: &[u8]) -> CpuidPageIndex
    ensures { result ≡ first_index pages.now }
{
    let r = new(pages);
    r.index
}

// The entry at an index, with the promise that its reserved bytes are zero; or its leaf, where one of them is not.
pub fn take(pages: &[u8], index: CpuidPageIndex) -> Result<ParsedCpuidEntry, CpuidFunction>
    requires { Readable pages.now index }
    ensures { result ≡ read_at pages.now index }
{
    let entry = crate::entry_at(pages, index);
    if crate::reserved::clean_at(pages, index) {
        return Ok(entry);
    }
    let leaf = entry.leaf;
    Err(leaf)
}

// Where a reader that stands at `index`, on a page with this count, stands next: its index is lent to `increment`. A caller reads the count once for
// all entries of a page.
pub fn step(pages: &[u8], index: CpuidPageIndex, count: usize) -> CpuidPageIndex
    requires { Counted pages.now index count }
    ensures { result ≡ incremented pages.now index }
{
    let mut r = SnpCpuidIterator {
        cpuid_pages: pages,
        index,
    };
    let cpuid_pages = r.cpuid_pages;
    increment(&mut r.index, cpuid_pages, count);
    r.index
}
