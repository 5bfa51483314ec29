// The CPUID pages of the SEV-SNP firmware: their counts, the entry at an index, and whether its reserved bytes are zero. `reader` reads the entries
// one by one, as the source's reader does.
#![tactic(auto)]

ghost use Rattle.std.specs.Prelude.{◌≡◌, ◌+◌, ◌≤◌, ◌<◌, length};
ghost use Rattle.pages.specs.Layout.{word_at, registers_at, pages_in, count_of, bad_length, counts_fit, entry_at, most_entries};
ghost use Rattle.pages.specs.Parsed.{parsed};

use x86defs::{CpuidFunction, CpuidResult};

pub mod reader;
pub mod reserved;

pub const PAGE_SIZE: usize = 4096;

pub const ENTRIES_AT: usize = 16;

pub const ENTRY_SIZE: usize = 48;

const MOST_ENTRIES: u32 = 64;

// Where the walk stands: a page, and a position on it. At the end it is the page after the last, position 0.
#[derive(Clone, Copy)]
pub struct CpuidPageIndex {
    pub page_index: usize,
    pub function_index: usize,
}

// What is read of an entry, and the page that it stands on, which decides whether an entry of leaf Dh counts.
#[derive(Clone, Copy)]
pub struct ParsedCpuidEntry {
    pub page: usize,
    pub leaf: CpuidFunction,
    pub subleaf: u32,
    pub result: CpuidResult,
}

// The four bytes at `o`, the lowest first.
pub fn word_at(pages: &[u8], o: usize) -> u32
    requires { o + 4 ≤ length pages.now }
    ensures { result ≡ word_at pages.now o }
{
    u32::from_le_bytes([pages[o], pages[o + 1], pages[o + 2], pages[o + 3]])
}

// The four registers at `o`: EAX, EBX, ECX, EDX.
pub fn registers_at(bytes: &[u8], o: usize) -> CpuidResult
    requires { o + 16 ≤ length bytes.now }
    ensures { result ≡ registers_at bytes.now o }
{
    CpuidResult {
        eax: word_at(bytes, o),
        ebx: word_at(bytes, o + 4),
        ecx: word_at(bytes, o + 8),
        edx: word_at(bytes, o + 12),
    }
}

// How many whole pages there are.
pub fn page_count(pages: &[u8]) -> usize
    ensures { result ≡ pages_in pages.now }
{
    pages.len() / PAGE_SIZE
}

// The count that page `p` gives of its entries.
pub fn count_of(pages: &[u8], p: usize) -> u32
    requires { p < pages_in pages.now }
    ensures { result ≡ count_of pages.now p }
{
    word_at(pages, PAGE_SIZE * p)
}

// Refusal 1: whether there is no byte, or a part of a page.
pub fn bad_length(pages: &[u8]) -> bool
    ensures { result ≡ bad_length pages.now }
{
    pages.is_empty() || pages.len() % PAGE_SIZE != 0
}

// Whether no count is above 64; where one is, that is refusal 2. Bytes after the last whole page are not read.
pub fn counts_fit(pages: &[u8]) -> bool
    ensures { result ≡ counts_fit pages.now }
{
    let n = page_count(pages);
    for p in 0..n {
        if count_of(pages, p) > MOST_ENTRIES {
            return false;
        }
    }
    true
}

// The entry at an index.
pub fn entry_at(pages: &[u8], index: CpuidPageIndex) -> ParsedCpuidEntry
    requires { (index.page_index < pages_in pages.now) × (index.function_index < most_entries) }
    ensures { result ≡ parsed (entry_at pages.now index.page_index index.function_index) }
{
    let o = PAGE_SIZE * index.page_index + ENTRIES_AT + ENTRY_SIZE * index.function_index;
    ParsedCpuidEntry {
        page: index.page_index,
        leaf: CpuidFunction(word_at(pages, o)),
        subleaf: word_at(pages, o + 4),
        result: registers_at(pages, o + 24),
    }
}
