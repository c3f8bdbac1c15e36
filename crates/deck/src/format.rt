//! Records: their kinds, the machine's record, and whether a page has one.
ghost use Rattle.std.specs.Prelude.{◌≡◌, ◌+◌, ◌≤◌, length, false, MatchResult};
ghost use Rattle.manual.specs.declared.DeckFault.TheVariants.{KindUnknown};
ghost use Rattle.deck.specs.Records.{kind_byte};
ghost use Rattle.manual.specs.Deck.{all_zero, kind_known, over, record_length, machine_in, machine_record, word};

use manual::{DeckFault, Machine};

/// The bytes of a page.
pub(crate) const PAGE: usize = 256;

/// The bytes of a page's record.
pub(crate) const PAGE_RECORD: usize = 2 + PAGE;

/// The bytes of the machine's record.
pub(crate) const HEAD: usize = 19;

/// What a record is, by the byte that it begins with.
#[derive(Clone, Copy, PartialEq, Eq)]
pub(crate) enum Kind {
    Machine = 1,
    Page = 2,
    End = 3,
}

impl Kind {
    /// The bytes of a record of this kind.
    pub(crate) fn length(self) -> usize
        ensures { result ≡ record_length (kind_byte self) }
    {
        match self {
            Kind::Machine => HEAD,
            Kind::Page => PAGE_RECORD,
            Kind::End => 1,
        }
    }
}

impl TryFrom<u8> for Kind {
    type Error = DeckFault;

    ghost try_from_gives = { λ byte r. MatchResult r (λ k. byte ≡ kind_byte k) (λ x. (x ≡ KindUnknown) × (kind_known byte ≡ false)) };

    fn try_from(byte: u8) -> Result<Kind, DeckFault> {
        match byte {
            1 => Ok(Kind::Machine),
            2 => Ok(Kind::Page),
            3 => Ok(Kind::End),
            _ => Err(DeckFault::KindUnknown),
        }
    }
}

/// Whether every byte is zero.
#[tactic(auto, using(crate::proofs::Zeros::all_zero_at, crate::proofs::Zeros::all_zero_end))]
pub(crate) fn all_zero(page: &[u8]) -> bool
    ensures { result ≡ all_zero page.now }
{
    // no way out early (`all` is many times slower), so that many bytes are taken at a time
    let mut clear = true;
    for b in page {
        clear &= *b == 0;
    }
    clear
}

/// Puts `src` over `dst` from the place `at` on. Byte by byte, which the compiler takes many at a time: `copy_from_slice`, where the length isn't
/// known, would call the C library's `memmove`, and a host in C owes memcpy and memset alone.
pub(crate) fn put(dst: &mut [u8], at: usize, src: &[u8])
    requires { at + length src.now ≤ length dst.old }
    ensures { dst.new ≡ over dst.old at src.now }
{
    for i in 0..src.len() {
        dst[at + i] = src[i];
    }
}

/// The machine of the record at the front of `d`.
#[tactic(auto, unfolding(manual::specs::Deck::machine_in))]
pub(crate) fn machine_in(d: &[u8]) -> Machine
    requires { 19 ≤ length d.now }
    ensures { result ≡ machine_in d.now }
{
    Machine {
        iar: u16::from_be_bytes([d[2], d[3]]),
        arr: u16::from_be_bytes([d[4], d[5]]),
        xr1: u16::from_be_bytes([d[6], d[7]]),
        xr2: u16::from_be_bytes([d[8], d[9]]),
        wr: [
            u16::from_be_bytes([d[10], d[11]]),
            u16::from_be_bytes([d[12], d[13]]),
            u16::from_be_bytes([d[14], d[15]]),
            u16::from_be_bytes([d[16], d[17]]),
        ],
        status: d[18],
    }
}

// The bytes of a word, the high one first. With `to_be_bytes` in place at each field, the proof of the record doesn't close.
fn word(v: u16) -> [u8; 2]
    ensures { result ≡ word v }
{
    v.to_be_bytes()
}

/// The record of a machine with this many pages, 1 to 256. Written out: joined from nine arrays by copies into a buffer it is no plainer.
#[tactic(auto, unfolding(manual::specs::Deck::machine_record))]
pub(crate) fn machine_record(pages: usize, m: Machine) -> [u8; HEAD]
    requires pages_bound { pages ≤ 256 }
    requires le_pages { 1 ≤ pages }
    ensures { result ≡ machine_record pages m }
{
    let iar = word(m.iar);
    let arr = word(m.arr);
    let xr1 = word(m.xr1);
    let xr2 = word(m.xr2);
    let wr4 = word(m.wr[0]);
    let wr5 = word(m.wr[1]);
    let wr6 = word(m.wr[2]);
    let wr7 = word(m.wr[3]);
    [
        Kind::Machine as u8,
        (pages - 1) as u8,
        iar[0],
        iar[1],
        arr[0],
        arr[1],
        xr1[0],
        xr1[1],
        xr2[0],
        xr2[1],
        wr4[0],
        wr4[1],
        wr5[0],
        wr5[1],
        wr6[0],
        wr6[1],
        wr7[0],
        wr7[1],
        m.status,
    ]
}
