//! The deck reader and writer, PUBLISHED: no `requires`, and one statement each that determines the answer, the machine and every lent byte.
#![tactic(auto)]

mod format;
mod reader;
mod writer;

ghost use Rattle.std.specs.Prelude.{◌≡◌, cond, length};
ghost use Rattle.manual.specs.TheMachine.{size_allowed};
ghost use Rattle.manual.specs.Deck.{ReadAs, WroteAs, deck_of};

use manual::{DeckOut, Machine, WriteFault};

/// Reads a deck into the storage `s`, and returns the machine of the deck. A refusal returns a zeroed machine and leaves the storage: the deck is
/// checked whole before anything is stored.
///
/// Each record in turn is refused with the first of these that holds.
///
/// - `EndsEarly`: no byte is left.
/// - `KindUnknown`: its first byte is not 1, 2 or 3.
/// - `OutOfOrder`: it is the first and not the machine's, or a later one and the machine's.
/// - `EndsEarly`: it is cut short.
///
/// The machine's record then with `StatusNotAllowed` where the status is 64 or above, and with `SizeNotTheDecks` where its pages of 256 bytes are not
/// as many bytes as `s` has; a page's with `PageBeyond` where its number is not below the machine's pages, with `OutOfOrder` where it is not above
/// the last page's, and with `PageOfZeros` where its bytes are all zero; the end's with `BytesAfterEnd` where bytes follow it.
#[tactic(auto, unfolding(manual::specs::Deck::read_of, manual::specs::Deck::storage_in), using(manual::proofs::DeckRecords::accepted))]
pub fn read(deck: &[u8], s: &mut [u8]) -> DeckOut
    ensures { ReadAs deck.now s.old result s.new }
{
    if let Err(fault) = reader::verdict(deck, s.len()) {
        return DeckOut {
            machine: Machine::default(),
            answer: Err(fault),
        };
    }
    s.fill(0);
    reader::lay_pages(deck, s);
    DeckOut {
        machine: format::machine_in(deck),
        answer: Ok(()),
    }
}

/// Writes the deck of a machine and its storage to the front of `out`, and returns the deck's length in bytes. A refusal leaves the output.
///
/// Refused, in this order, with `SizeNotAllowed` where `s` is not 256 to 65,536 bytes in whole pages of 256, with `StatusNotWritable` where the
/// status is 64 or above, and with `OutputShort` where `out` is shorter than the deck.
#[tactic(auto, unfolding(manual::specs::Deck::write_of, manual::specs::TheMachine::status_allowed), using(manual::proofs::Decks::length_parts))]
pub fn write(m: Machine, s: &[u8], out: &mut [u8]) -> Result<usize, WriteFault>
    ensures { WroteAs m s.now out.old result out.new }
{
    if !parts::size_allowed(s.len()) {
        return Err(WriteFault::SizeNotAllowed);
    }
    if m.status >= 64 {
        return Err(WriteFault::StatusNotWritable);
    }
    let n = writer::deck_length(s);
    if out.len() < n {
        return Err(WriteFault::OutputShort);
    }
    writer::write_deck(m, s, out);
    Ok(n)
}

/// The room in bytes that the deck of a machine and its storage needs; 0 where the size isn't allowed.
#[tactic(auto, using(manual::proofs::Decks::length_parts))]
pub fn length(m: Machine, s: &[u8]) -> usize
    ensures { result ≡ cond (size_allowed (length s.now)) (length (deck_of m s.now)) 0 }
{
    if !parts::size_allowed(s.len()) {
        return 0;
    }
    writer::deck_length(s)
}
