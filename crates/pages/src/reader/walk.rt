// The walk over the entries: the index of the next entry below its page's count.
ghost use Rattle.std.specs.Prelude.{◌≡◌, ◌+◌, ◌≤◌, ◌<◌};
ghost use Rattle.pages.specs.Layout.{pages_in};
ghost use Rattle.pages.specs.Walk.{Counted, first_index, next_valid, incremented, first_from};

use crate::{CpuidPageIndex, PAGE_SIZE, count_of, page_count};

// The index of the first entry, or the end. The source's `CpuidPageIndex::new`.
pub fn first_index(pages: &[u8]) -> CpuidPageIndex
    ensures { result ≡ first_index pages.now }
{
    let start = CpuidPageIndex {
        page_index: 0,
        function_index: 0,
    };
    next_valid_index(pages, start)
}

// The index as it is where it stands below its page's count; else the first entry of a later page, or the end.
pub fn next_valid_index(pages: &[u8], index: CpuidPageIndex) -> CpuidPageIndex
    ensures { result ≡ next_valid pages.now index }
{
    let n = page_count(pages);
    let page = index.page_index;
    if page < n {
        let position = index.function_index;
        if position < count_of(pages, page) as usize {
            return index;
        }
        return skip_empty(pages, page + 1);
    }
    CpuidPageIndex {
        page_index: n,
        function_index: 0,
    }
}

// The index of the entry after the one that an index stands at, or the end, where the page's count is known. What leads to a later page stands in a
// function of its own, so that a loop over one page's entries stays short when this is compiled into it.
pub fn increment(pages: &[u8], index: CpuidPageIndex, count: usize) -> CpuidPageIndex
    requires { Counted pages.now index count }
    ensures { result ≡ incremented pages.now index }
{
    let page = index.page_index;
    let after = index.function_index + 1;
    if after < count {
        return CpuidPageIndex {
            page_index: page,
            function_index: after,
        };
    }
    later_page(pages, page)
}

// The first entry of the pages after this one, or the end.
fn later_page(pages: &[u8], page: usize) -> CpuidPageIndex
    requires { page < pages_in pages.now }
    ensures { result ≡ first_from pages.now (page + 1) }
{
    skip_empty(pages, page + 1)
}

// The first entry of the pages from `page` on, or the end: empty pages are passed over, as in the source's `next_valid_index`. The bound is in bytes:
// the compiler then leaves the end of the pages out of the step from one entry to the next, which is three instructions shorter.
fn skip_empty(pages: &[u8], page: usize) -> CpuidPageIndex
    requires { page ≤ pages_in pages.now }
    ensures { result ≡ first_from pages.now page }
{
    let end = PAGE_SIZE * page_count(pages);
    let mut at = page;
    // kept as a while: tried as a range over page numbers and misses the bar of speed, 49 instructions more for the shipped set
    while PAGE_SIZE * at < end {
        if count_of(pages, at) != 0 {
            return CpuidPageIndex {
                page_index: at,
                function_index: 0,
            };
        }
        at += 1;
    }
    CpuidPageIndex {
        page_index: at,
        function_index: 0,
    }
}
