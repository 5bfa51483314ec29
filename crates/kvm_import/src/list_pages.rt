// Writes the rows of a KVM list, which fit, into a lent buffer as two pages.
ghost use Rattle.std.specs.Prelude.{◌≡◌, ◌+◌, ◌*◌, ◌≤◌, length};
ghost use Rattle.std.proofs.lemmas.List.Edits.{sets};
ghost use Rattle.kvm_list.specs.Format.{row_count, row_at, rows_listed};
ghost use Rattle.kvm_import.specs.ListChecks.{rows_on0, rows_on1};
ghost use Rattle.kvm_import.specs.ListPages.{pages_of};
ghost use Rattle.kvm_import.specs.ImportPieces.{count_bytes, entry_bytes, entry_index, entered};

use crate::list_checks::{is_extended_state, row_count};
use buffer::{put_registers, put_word};
use kvm_list::{HEAD_SIZE, ROW_SIZE, put_zeros};
use pages::{ENTRIES_AT, ENTRY_SIZE, PAGE_SIZE, registers_at, word_at};

// Writes both pages: the counts, the entries, and zeros after them.
pub fn put_pages(list: &[u8], others: usize, extended: usize, out: &mut [u8])
    requires { (length list.now ≡ 8 + 40 * row_count list.now) × (others ≡ length (rows_on0 (rows_listed list.now))) × (extended ≡ length (rows_on1 (rows_listed list.now))) × (others ≤ 64) × (extended ≤ 64) × (8192 ≤ length out.old) }
    ensures { out.new ≡ sets out.old 0 (pages_of (rows_listed list.now)) }
{
    put_count(out, 0, others);
    put_count(out, PAGE_SIZE, extended);
    put_entries(list, out);
    put_zeros(out, ENTRIES_AT + ENTRY_SIZE * others, PAGE_SIZE);
    put_zeros(
        out,
        PAGE_SIZE + ENTRIES_AT + ENTRY_SIZE * extended,
        2 * PAGE_SIZE,
    );
}

// A page's count, and the twelve reserved bytes after it.
fn put_count(out: &mut [u8], at: usize, n: usize)
    requires { (n ≤ 64) × (at + 16 ≤ length out.old) }
    ensures { out.new ≡ sets out.old at (count_bytes n) }
{
    put_word(out, at, n as u32);
    put_zeros(out, at + 4, at + 16);
}

// The entries of all rows, each on its page after those before it.
fn put_entries(list: &[u8], out: &mut [u8])
    requires { (length list.now ≡ 8 + 40 * row_count list.now) × (length (rows_on0 (rows_listed list.now)) ≤ 64) × (length (rows_on1 (rows_listed list.now)) ≤ 64) × (8192 ≤ length out.old) }
    ensures { out.new ≡ entered out.old 16 4112 (rows_listed list.now) }
{
    let mut extended = 0;
    for q in 0..row_count(list) {
        let here = is_extended_state(list, q);
        let at = entry_index(here, q - extended, extended);
        put_entry(list, q, out, at);
        extended += usize::from(here);
    }
}

// Where the next entry goes, after `others` on page 0 and `extended` on page 1.
fn entry_index(here: bool, others: usize, extended: usize) -> usize
    requires { (others ≤ 4294967296) × (extended ≤ 4294967296) }
    ensures { result ≡ entry_index here others extended }
{
    if here {
        return PAGE_SIZE + ENTRIES_AT + ENTRY_SIZE * extended;
    }
    ENTRIES_AT + ENTRY_SIZE * others
}

// The entry of row `q`: function as EAX_IN, index as ECX_IN, the four registers, and zeros.
fn put_entry(list: &[u8], q: usize, out: &mut [u8], at: usize)
    requires { (8 + 40 * q + 40 ≤ length list.now) × (at + 48 ≤ length out.old) }
    ensures { out.new ≡ sets out.old at (entry_bytes (row_at list.now q)) }
{
    let o = HEAD_SIZE + ROW_SIZE * q;
    put_word(out, at, word_at(list, o));
    put_word(out, at + 4, word_at(list, o + 4));
    put_zeros(out, at + 8, at + 24);
    put_registers(out, at + 24, registers_at(list, o + 12));
    put_zeros(out, at + 40, at + 48);
}
