// What a list of KVM may be refused for: whether its length and its fields are lawful, and how many of its rows are of leaf Dh.
ghost use Rattle.std.specs.Prelude.{◌≡◌, ◌+◌, ◌*◌, ◌≤◌, ◌<◌, length, is_some, IfSome};
ghost use Rattle.kvm_list.specs.Format.{row_count, row_at, rows_listed};
ghost use Rattle.kvm_import.specs.ListChecks.{bad_list_length, is_row_lawful, fields_lawful, is_extended_state, rows_on1};

use kvm_list::{HEAD_SIZE, ROW_SIZE};
use pages::word_at;

// 10: shorter than its head, or not as long as its count says.
pub fn bad_list_length(list: &[u8]) -> bool
    ensures { result ≡ bad_list_length list.now }
{
    if list.len() < HEAD_SIZE {
        return true;
    }
    list.len() != HEAD_SIZE + ROW_SIZE * row_count(list)
}

// How many rows the head says that there are.
pub fn row_count(list: &[u8]) -> usize
    requires { 8 ≤ length list.now }
    ensures { (result ≡ row_count list.now) × (result < 4294967296) }
{
    word_at(list, 0) as usize
}

// How many rows are of leaf Dh. None is refusal 12: the head's zero word, or a row's flag or padding, is not lawful.
pub fn check_rows(list: &[u8]) -> Option<usize>
    requires { length list.now ≡ 8 + 40 * row_count list.now }
    ensures lawful { is_some result ≡ fields_lawful list.now }
    ensures extended { IfSome result (λ n. n ≡ length (rows_on1 (rows_listed list.now))) }
{
    if word_at(list, 4) != 0 {
        return None;
    }
    let mut extended = 0;
    for q in 0..row_count(list) {
        if !row_lawful(list, q) {
            return None;
        }
        extended += usize::from(is_extended_state(list, q));
    }
    Some(extended)
}

// Whether the flag of row `q` is 0 or 1 and its padding 0.
fn row_lawful(list: &[u8], q: usize) -> bool
    requires { 8 + 40 * q + 40 ≤ length list.now }
    ensures { result ≡ is_row_lawful (row_at list.now q) }
{
    let o = HEAD_SIZE + ROW_SIZE * q;
    if word_at(list, o + 8) > 1 {
        return false;
    }
    if word_at(list, o + 28) != 0 {
        return false;
    }
    if word_at(list, o + 32) != 0 {
        return false;
    }
    word_at(list, o + 36) == 0
}

// Whether row `q` is of leaf Dh, and so of page 1.
pub fn is_extended_state(list: &[u8], q: usize) -> bool
    requires { 8 + 40 * q + 40 ≤ length list.now }
    ensures { result ≡ is_extended_state (row_at list.now q) }
{
    word_at(list, HEAD_SIZE + ROW_SIZE * q) == 0xD
}
