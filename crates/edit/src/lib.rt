//! MVX, ED and ITC: each does what its rule says.
#![tactic(auto)]

ghost use Rattle.std.specs.Prelude.{◌≡◌, ◌+◌, ◌<◌, ◌≤◌, length, take, eqb};
ghost use Rattle.manual.specs.Values.{bytes_of, size, digits_of, value, sign_order};
ghost use Rattle.manual.specs.Edit.{half_moved, mvx, count20, source_reach, put_edited, ed, ends_scan, scan, itc};
ghost use Rattle.manual.specs.Step.{Gives};
ghost use Rattle.parts.specs.Leaf.{Does};

use manual::{Fields, Machine, Stop};
use parts::{reach, reach_right, set_order};

// ---- MVX

#[tactic(auto, unfolding(manual::specs::Edit::half_moved))]
fn half_moved(q: u8, x: u8, y: u8) -> u8
    ensures { result ≡ half_moved q x y }
{
    match q {
        0 => y / 16 * 16 + x % 16,
        1 => y % 16 * 16 + x % 16,
        2 => x / 16 * 16 + y / 16,
        _ => x / 16 * 16 + y % 16,
    }
}

/// MVX: a half of operand 2's byte is put in a half of operand 1's; Q tells which. It
/// stops, and changes nothing, where an operand lies outside storage.
#[tactic(auto, unfolding(manual::specs::Edit::mvx, manual::specs::Programs::unless, manual::specs::Programs::and_then, manual::specs::Programs::val, manual::specs::Programs::fin, manual::specs::Step::did, manual::specs::Formats::reach))]
pub fn mvx(m: &mut Machine, s: &mut [u8], f: Fields) -> Result<(), Stop>
    ensures { Does (mvx f) m.old s.old result m.new s.new }
{
    let a = usize::from(f.a1);
    let b = usize::from(f.a2);
    reach(s.len(), 1, a)?;
    reach(s.len(), 1, b)?;
    s[a] = half_moved(f.q, s[a], s[b]);
    m.iar = f.next;
    Ok(())
}

// ---- ED

// The count of 20s among the n bytes whose rightmost is at a. By address, as `put_edited` takes the same pattern (a slice here alone is no plainer).
#[tactic(auto, using(crate::proofs::Taking::left_whole, crate::proofs::Taking::counts_none))]
fn count_20(s: &[u8], a: usize, n: usize) -> usize
    requires { (a < length s.now) × (n ≤ a + 1) }
    ensures { (result ≡ count20 (bytes_of s.now n a)) × (result ≤ n) }
{
    let mut count = 0;
    for i in 0..n {
        if s[a - i] == 0x20 {
            count += 1;
        }
    }
    count
}

#[tactic(auto, unfolding(manual::specs::Edit::source_reach))]
fn source_reach(size: usize, n: usize, a: usize) -> Result<(), Stop>
    ensures { result ≡ source_reach size n a }
{
    if n == 0 {
        return Ok(());
    }
    reach(size, n, a)
}

// Operand 2 as it was, the rightmost byte first: an overlap must not change a digit before it is taken. Taken by address: with no 20s operand 2 may
// lie outside storage, where no slice of it can be made.
#[tactic(auto, using(crate::proofs::Taking::copied_none, crate::proofs::Taking::copied_more))]
fn take(s: &[u8], a: usize, d: &mut [u8])
    requires { (length d.old ≤ a + 1) × (0 < length d.old → a < length s.now) }
    ensures { d.new ≡ bytes_of s.now (length d.new) a }
{
    for i in 0..d.len() {
        d[i] = s[a - i];
    }
}

// A digit above 9 stops with 8. Not the test of `zoned`, which goes in blocks of 16 and 8 up to 31 digits: here there may be 256, and ED is seldom.
#[tactic(auto, unfolding(manual::specs::Values::digits_of), using(crate::proofs::Taking::digit_refused, crate::proofs::Taking::digit_passed, crate::proofs::Taking::digits_done))]
fn digits_of(d: &[u8]) -> Result<(), Stop>
    ensures { result ≡ digits_of d.now }
{
    for b in d {
        if 9 < b % 16 {
            return Err(Stop::DigitRefused);
        }
    }
    Ok(())
}

#[tactic(auto, using(crate::proofs::Taking::size_refused, crate::proofs::Taking::size_passed, crate::proofs::Taking::size_done))]
fn all_zero(d: &[u8]) -> bool
    ensures { result ≡ eqb (size d.now) 0 }
{
    for b in d {
        if b % 16 != 0 {
            return false;
        }
    }
    true
}

// Equal, low, high by the value being zero, minus, plus.
#[tactic(auto, using(crate::proofs::Taking::order_equal, crate::proofs::Taking::order_signed, crate::proofs::Taking::sized))]
fn value_order(d: &[u8]) -> u8
    ensures { (result ≡ sign_order (value d.now)) × (result < 8) }
{
    if all_zero(d) {
        return 1;
    }
    if d[0] / 16 == 13 {
        return 2;
    }
    4
}

// Each 20 of the pattern, from the right, takes the next digit, of which `k` are taken. A byte is written only after its turn,
// so the pattern is read where it lies. By address, and with `k` counted: over a slice and an iterator the book's edit, a
// program over storage, would have to be stated again (no plainer).
#[tactic(auto, using(crate::proofs::Editing::start, crate::proofs::Taking::counts))]
fn put_edited(s: &mut [u8], a: usize, n: usize, d: &[u8])
    requires { (a < length s.old) × (n ≤ a + 1) × (count20 (bytes_of s.old n a) ≤ length d.now) }
    ensures { Gives (put_edited (bytes_of s.old n a) d.now a) s.old tt s.new }
{
    let mut k = 0;
    for i in 0..n {
        if s[a - i] == 0x20 {
            s[a - i] = 240 + d[k] % 16;
            k += 1;
        }
    }
}

/// ED: each 20 of the pattern, operand 1, takes the next digit of operand 2, both from the right; the status tells the order of operand 2's value. It
/// stops, and changes nothing, where the pattern, or operand 2 of as many bytes as there are 20s, lies outside storage, and then where a digit is
/// above 9.
#[tactic(auto, unfolding(manual::specs::Edit::ed, manual::specs::Programs::unless, manual::specs::Programs::val, manual::specs::Step::did, manual::specs::Formats::reach), using(crate::proofs::Rules::source_in))]
pub fn ed(m: &mut Machine, s: &mut [u8], f: Fields) -> Result<(), Stop>
    ensures { Does (ed f) m.old s.old result m.new s.new }
{
    // here and in ITC by `as`: with `usize::from` the proof of the leaf doesn't close
    let n = f.q as usize + 1;
    let a = f.a1 as usize;
    let b = f.a2 as usize;
    reach(s.len(), n, a)?;
    let count = count_20(s, a, n);
    source_reach(s.len(), count, b)?;
    // An array and not a Vec: the library has no heap. Filled where it lies: by value its 256 bytes are built twice.
    let mut copy = [0u8; 256];
    let d = &mut copy[..count];
    take(s, b, d);
    digits_of(d)?;
    put_edited(s, a, n, d);
    m.status = set_order(value_order(d), m.status);
    m.iar = f.next;
    Ok(())
}

// ---- ITC

fn ends_scan(b: u8) -> bool
    ensures { result ≡ ends_scan b }
{
    matches!(&b, 0xF1..=0xF9)
}

// From the left, bytes become v until one of F1 to F9 is met: yields its address or the end. By address: the address is what it yields.
#[tactic(auto, using(crate::proofs::Scanning::start, crate::proofs::Scanning::found, crate::proofs::Scanning::ends))]
fn scan_right(s: &mut [u8], a: usize, n: usize, v: u8) -> usize
    requires { a + n ≤ length s.old }
    ensures { Gives (scan n a v) s.old result s.new }
{
    let mut at = a;
    let stop = a + n;
    // Not a `for`: the project's rules ask for ITC's scan as a loop that yields its address by `break`.
    let found = loop {
        if at == stop {
            break stop;
        }
        if ends_scan(s[at]) {
            break at;
        }
        s[at] = v;
        at += 1;
    };
    found
}

/// ITC: from operand 1's left on, bytes become operand 2's byte until one of F1 to F9 is met; ARR takes its address, or the end's. It stops, and
/// changes nothing, where an operand lies outside storage.
#[tactic(auto, unfolding(manual::specs::Edit::itc, manual::specs::Programs::unless, manual::specs::Programs::and_then, manual::specs::Programs::val, manual::specs::Step::did, manual::specs::Formats::reach, manual::specs::Formats::reach_right))]
pub fn itc(m: &mut Machine, s: &mut [u8], f: Fields) -> Result<(), Stop>
    ensures { Does (itc f) m.old s.old result m.new s.new }
{
    let n = f.q as usize + 1;
    let a = f.a1 as usize;
    let b = f.a2 as usize;
    reach_right(s.len(), n, a)?;
    reach(s.len(), 1, b)?;
    let v = s[b];
    m.arr = (scan_right(s, a, n, v) % 65536) as u16;
    m.iar = f.next;
    Ok(())
}
