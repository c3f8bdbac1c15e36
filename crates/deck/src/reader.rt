//! The reader: a pass that checks the deck, and a pass that lays its pages.
ghost use Rattle.std.specs.Prelude.{◌≡◌, ◌+◌, ◌*◌, ◌<◌, ◌≤◌, length, get_or, drop, OnOk, OnErr, IfOk, IfErr, IfSome, IfNone, List, Ok, Err, ℕ};
ghost use Rattle.manual.specs.Numbers.{ReadAnswer};
ghost use Rattle.manual.specs.Deck.{record_answer, first_answer, page_answer, later_answer, deck_answer, over, paged};
ghost use Rattle.manual.proofs.DeckRecords.{Asked, later_record, EndAt};
ghost use Rattle.deck.specs.Records.{in_order, kind_byte, IsPage};

use crate::format::{self, HEAD, Kind, PAGE, PAGE_RECORD};
use manual::DeckFault;

/// A page as its record has it.
#[derive(Clone, Copy)]
struct Page<'a> {
    number: usize,
    bytes: &'a [u8],
}

/// The records after the first that are not walked yet.
#[derive(Drop)]
struct Records<'a> {
    rest: &'a [u8],
}

// What each record is asked first: its kind, its place and its length.
fn asked(d: &[u8], first: bool) -> Result<Kind, DeckFault>
    ensures ok { OnOk result (Asked (in_order first d.now) d.now) }
    ensures kind { IfOk result (λ k. get_or d.now 0 0 ≡ kind_byte k) }
    ensures err { IfErr result (λ x. (more : ReadAnswer) → record_answer (in_order first d.now) d.now more ≡ Err x) }
{
    let kind = Kind::try_from(*d.first().ok_or(DeckFault::EndsEarly)?)?;
    if (kind == Kind::Machine) != first {
        return Err(DeckFault::OutOfOrder);
    }
    if d.len() < kind.length() {
        return Err(DeckFault::EndsEarly);
    }
    Ok(kind)
}

// The first record.
#[tactic(auto, unfolding(manual::specs::Deck::first_answer, manual::specs::TheMachine::status_allowed), using(manual::proofs::DeckRecords::asked_good))]
fn first(d: &[u8], size: usize) -> Result<(), DeckFault>
    ensures ok { OnOk result ((more : ReadAnswer) → first_answer d.now size more ≡ more) }
    ensures whole { OnOk result (19 ≤ length d.now) }
    ensures err { IfErr result (λ x. (more : ReadAnswer) → first_answer d.now size more ≡ Err x) }
{
    asked(d, true)?;
    if d[18] >= 64 {
        return Err(DeckFault::StatusNotAllowed);
    }
    if (usize::from(d[1]) + 1) * PAGE != size {
        return Err(DeckFault::SizeNotTheDecks);
    }
    Ok(())
}

impl<'a> Records<'a> {
    // The page of the next record, behind which the walk then stands, or none at the end of the deck; there, and at a refusal, it stays.
    #[tactic(auto, unfolding(manual::proofs::DeckRecords::later_record))]
    fn next_page(&mut self) -> Result<Option<Page<'a>>, DeckFault>
        ensures page { IfOk result (λ r. IfSome r (λ p. IsPage self.old.rest.now p self.new.rest.now)) }
        ensures end { IfOk result (λ r. IfNone r (EndAt self.old.rest.now)) }
        ensures err { IfErr result (λ x. (pages next : ℕ) (more : ReadAnswer) → later_record self.old.rest.now pages next more ≡ Err x) }
        ensures stays_at_end { IfOk result (λ r. IfNone r (self.new.rest.now ≡ self.old.rest.now)) }
        ensures stays_refused { OnErr result (self.new.rest.now ≡ self.old.rest.now) }
    {
        let d = self.rest;
        match asked(d, false)? {
            Kind::Page => {
                self.rest = &d[PAGE_RECORD..];
                Ok(Some(Page {
                    number: usize::from(d[1]),
                    bytes: &d[2..PAGE_RECORD],
                }))
            }
            _ if d.len() == 1 => Ok(None),
            _ => Err(DeckFault::BytesAfterEnd),
        }
    }
}

impl Page<'_> {
    // Whether the page may stand in a deck of this many pages, where `next` is the page above the last one.
    #[tactic(auto, unfolding(manual::specs::Deck::page_answer))]
    fn check(&self, pages: usize, next: usize) -> Result<(), DeckFault>
        ensures below { OnOk result (self.now.number < pages) }
        ensures ok { OnOk result ((d t : List ℕ) (more : ReadAnswer) → IsPage d self.now t → page_answer d pages next more ≡ more) }
        ensures err { IfErr result (λ x. (d t : List ℕ) (more : ReadAnswer) → IsPage d self.now t → page_answer d pages next more ≡ Err x) }
    {
        if self.number >= pages {
            return Err(DeckFault::PageBeyond);
        }
        if self.number < next {
            return Err(DeckFault::OutOfOrder);
        }
        if format::all_zero(self.bytes) {
            return Err(DeckFault::PageOfZeros);
        }
        Ok(())
    }

    // Lays the page over the storage, at its place.
    fn lay(&self, s: &mut [u8])
        requires { self.now.number * 256 + length self.now.bytes.now ≤ length s.old }
        ensures { s.new ≡ over s.old (self.now.number * 256) self.now.bytes.now }
    {
        format::put(s, self.number * PAGE, self.bytes);
    }
}

// The records after the first, in a deck of this many pages.
#[tactic(auto, using(crate::proofs::Reading::reading_starts, crate::proofs::Reading::reading_page))]
fn rest(mut records: Records<'_>, pages: usize) -> Result<(), DeckFault>
    ensures { result ≡ later_answer (19 + length records.entry.rest.now) records.entry.rest.now pages 0 }
{
    let mut next = 0;
    while let Some(page) = records.next_page()? {
        page.check(pages, next)?;
        next = page.number + 1;
    }
    Ok(())
}

/// Whether the deck is accepted for a storage of `size` bytes.
#[tactic(auto, unfolding(manual::specs::Deck::deck_answer))]
pub(crate) fn verdict(deck: &[u8], size: usize) -> Result<(), DeckFault>
    ensures { result ≡ deck_answer deck.now size }
{
    first(deck, size)?;
    let records = Records {
        rest: &deck[HEAD..],
    };
    rest(records, size / PAGE)
}

/// Lays the pages of an accepted deck over the storage.
#[tactic(auto, using(crate::proofs::Reading::deck_head, crate::proofs::Reading::laying_page))]
pub(crate) fn lay_pages(deck: &[u8], s: &mut [u8])
    requires { deck_answer deck.now (length s.old) ≡ Ok tt }
    ensures { s.new ≡ paged (length deck.now) (drop 19 deck.now) s.old }
{
    let mut records = Records {
        rest: &deck[HEAD..],
    };
    // no record of an accepted deck is refused; made here as in `verdict`, since a function for one field is no plainer
    while let Ok(Some(page)) = records.next_page() {
        page.lay(s);
    }
}
