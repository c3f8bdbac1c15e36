//! The writer: the length of a deck, and the deck itself.
ghost use Rattle.std.specs.Prelude.{true, ◌≡◌, ◌+◌, ◌/◌, ◌≤◌, length};
ghost use Rattle.manual.specs.TheMachine.{size_allowed};
ghost use Rattle.manual.specs.Deck.{deck_of, over, page_record, page_records};

use crate::format::{self, HEAD, Kind, PAGE};
use manual::Machine;

// The length of a page's record: none where the page is all zero.
fn page_length(page: &[u8]) -> usize
    ensures { result ≡ length (page_record 0 page.now) }
{
    if format::all_zero(page) {
        0
    } else {
        2 + page.len()
    }
}

/// The length of the deck of a storage.
#[tactic(auto, using(crate::proofs::Writing::length_next, crate::proofs::Writing::length_done, crate::proofs::Writing::records_most))]
pub(crate) fn deck_length(s: &[u8]) -> usize
    ensures { result ≡ 20 + length (page_records (length s.now / 256) 0 s.now) }
{
    // the machine's record, and the end's
    let mut total = HEAD + 1;
    for page in s.chunks_exact(PAGE) {
        total += page_length(page);
    }
    total
}

// Writes a page's record, if it has one, at the place `at`, and returns the place after it. By a place: what is written is
// promised of the whole output, and a slice of what is left would have to be put back into it (no plainer).
#[tactic(auto, using(manual::proofs::Pages::over_none, manual::proofs::Pages::over_two, crate::proofs::Writing::record_room))]
fn write_page(number: u8, bytes: &[u8], out: &mut [u8], at: usize) -> usize
    requires { at + length (page_record number bytes.now) ≤ length out.old }
    ensures value { result ≡ at + length (page_record number bytes.now) }
    ensures out_after { out.new ≡ over out.old at (page_record number bytes.now) }
{
    if format::all_zero(bytes) {
        return at;
    }
    out[at] = Kind::Page as u8;
    out[at + 1] = number;
    format::put(out, at + 2, bytes);
    at + 2 + bytes.len()
}

// Writes the records of the pages behind the first record, and returns the place after them.
#[tactic(auto, using(crate::proofs::Writing::length_turn, crate::proofs::Writing::over_turn, crate::proofs::Writing::records_done, manual::proofs::Pages::over_none))]
fn write_pages(s: &[u8], out: &mut [u8]) -> usize
    requires s_len_bound { length s.now ≤ 65536 }
    requires s_in_bounds { 19 + length (page_records (length s.now / 256) 0 s.now) ≤ length out.old }
    ensures value { result ≡ 19 + length (page_records (length s.now / 256) 0 s.now) }
    ensures out_after { out.new ≡ over out.old 19 (page_records (length s.now / 256) 0 s.now) }
{
    let mut at = HEAD;
    for (number, page) in s.chunks_exact(PAGE).enumerate() {
        at = write_page(number as u8, page, out, at);
    }
    at
}

/// Writes the deck of a machine and its storage to the front of `out`.
#[tactic(auto, using(manual::proofs::Decks::size_pages, manual::proofs::Decks::length_parts, crate::proofs::Writing::deck_over))]
pub(crate) fn write_deck(m: Machine, s: &[u8], out: &mut [u8])
    requires s_value { size_allowed (length s.now) ≡ true }
    requires s_in_bounds { length (deck_of m s.now) ≤ length out.old }
    ensures { out.new ≡ over out.old 0 (deck_of m s.now) }
{
    let head = format::machine_record(s.len() / PAGE, m);
    out[..HEAD].copy_from_slice(&head);
    let end = write_pages(s, out);
    out[end] = Kind::End as u8;
}
