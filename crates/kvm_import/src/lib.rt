// Converts a KVM CPUID list to two CPUID pages in a lent buffer. A refusal leaves the buffer as it was.
#![tactic(auto)]

ghost use Rattle.std.specs.Prelude.{◌≡◌};
ghost use Rattle.kvm_import.specs.Import.{read_list};

use crate::list_checks::{bad_list_length, check_rows, row_count};
use crate::list_pages::put_pages;
use buffer::Written;
use pages::PAGE_SIZE;
use table::Refusal;

mod list_checks;
mod list_pages;

const MOST_ENTRIES: usize = 64;

// Reads a list into two pages at the front of a lent buffer. A refusal leaves the buffer as it was.
pub fn read_list(list: &[u8], out: &mut [u8]) -> Written
    ensures value { result ≡ (read_list list.now out.old).answer }
    ensures out_after { out.new ≡ (read_list list.now out.old).buffer }
{
    if bad_list_length(list) {
        return Err(Refusal::ListLength);
    }
    let extended = check_rows(list).ok_or(Refusal::ListFields)?;
    let others = row_count(list) - extended;
    if others > MOST_ENTRIES {
        return Err(Refusal::ListRows);
    }
    if extended > MOST_ENTRIES {
        return Err(Refusal::ListRows);
    }
    if out.len() < 2 * PAGE_SIZE {
        return Err(Refusal::BufferTooShort);
    }
    put_pages(list, others, extended, out);
    Ok(2 * PAGE_SIZE)
}
