//! ZAZ, AZ and SZ: each does what its rule says. A zoned field is a slice of storage, its units last.
#![tactic(auto)]

ghost use Rattle.std.specs.Prelude.{◌≡◌, ◌↔◌, true, false, cond, not, ◌+◌, ◌-◌, ◌*◌, ◌/◌, ◌%◌, ◌^◌, ◌<◌, ◌≤◌, eqb, ◌+ℤ◌, ◌-ℤ◌, ◌++◌, length, replicate};
ghost use Rattle.manual.specs.TheMachine.{decimal_overflow, turn_on};
ghost use Rattle.manual.specs.Values.{bytes_of, digit, size, minus, value, all_digits, digits_of};
ghost use Rattle.manual.specs.Zoned.{l1, l2, zaz, az, sz};
ghost use Rattle.parts.specs.Leaf.{Does};
ghost use Rattle.zoned.specs.Working.{zaz_way, combine_way, Ready, from_right, Digits, Zones, holding, Field, Fits, Operands, still, alone, round_of, taken, sum_of, sign_put, finished, signed_sum, Left, LeftIn};

use manual::{Fields, Machine, Stop};
use parts::reach;

// ---- what stands in the way

// Q: left digit L1-L2, right digit L2-1.
fn l2(q: u8) -> usize
    ensures { result ≡ l2 q }
{
    usize::from(q % 16) + 1
}

fn l1(q: u8) -> usize
    ensures { result ≡ l1 q }
{
    usize::from(q / 16) + l2(q)
}

// The n bytes of storage whose rightmost is at a.
#[tactic(auto, using(crate::proofs::Fields::field_length, crate::proofs::Fields::field_bytes))]
fn field(s: &[u8], n: usize, a: usize) -> &[u8]
    requires { (a < length s.now) × (n ≤ a + 1) }
    ensures { (length result.now ≡ n) × (from_right result.now ≡ bytes_of s.now n a) }
{
    &s[a + 1 - n..a + 1]
}

// Whether a digit is above 9: without an early way out, so that the compiler takes many at a time.
fn some_bad(part: &[u8]) -> bool
    ensures { (result ≡ false) ↔ Digits part.now }
{
    let mut bad = false;
    for b in part {
        if 9 < b % 16 {
            bad = true;
        }
    }
    bad
}

// The same of a field: its first 16 or 8 and as many last, since a constant count leaves no rest that goes one by one. The length, 31 at
// most, is a clause here and in two more: a slice has none in its type, and a struct round it would be no plainer.
fn has_bad(field: &[u8]) -> bool
    requires { length field.now ≤ 31 }
    ensures { (result ≡ false) ↔ Digits field.now }
{
    let n = field.len();
    if 16 <= n {
        return some_bad(&field[..16]) || some_bad(&field[n - 16..]);
    }
    if 8 <= n {
        return some_bad(&field[..8]) || some_bad(&field[n - 8..]);
    }
    some_bad(field)
}

// A digit above 9 stops with 8.
#[tactic(auto, unfolding(manual::specs::Values::digits_of), using(crate::proofs::Fields::bad_told, crate::proofs::Fields::good_told))]
fn digits_of(field: &[u8]) -> Result<(), Stop>
    requires { length field.now ≤ 31 }
    ensures { result ≡ digits_of (from_right field.now) }
{
    if has_bad(field) {
        return Err(Stop::DigitRefused);
    }
    Ok(())
}

// Both operands' places, then the digits of operand 2: operand 1 of ZAZ isn't read, so not tested.
#[tactic(auto, unfolding(manual::specs::Programs::and_then, manual::specs::Formats::reach))]
fn zaz_way(s: &[u8], f: Fields) -> Result<(), Stop>
    ensures { result ≡ zaz_way s.now f.q f.a1 f.a2 }
{
    let (a1, a2) = (usize::from(f.a1), usize::from(f.a2));
    reach(s.len(), l1(f.q), a1)?;
    reach(s.len(), l2(f.q), a2)?;
    digits_of(field(s, l2(f.q), a2))
}

// The same, and then the digits of operand 1.
#[tactic(auto, unfolding(manual::specs::Programs::and_then))]
fn combine_way(s: &[u8], f: Fields) -> Result<(), Stop>
    ensures { result ≡ combine_way s.now f.q f.a1 f.a2 }
{
    zaz_way(s, f)?;
    digits_of(field(s, l1(f.q), usize::from(f.a1)))
}

// ---- digits

// Zone F over each digit.
fn put_zones(part: &mut [u8])
    ensures { Zones part.old part.new }
{
    for b in part.iter_mut() {
        *b = 240 + *b % 16;
    }
}

// The same over a field, its last 16 or 8, where the columns start, and as many first: a byte that gets it twice is the same. A walk shared with
// `has_bad` would take a closure for each (no plainer).
fn put_zone(field: &mut [u8])
    requires { length field.old ≤ 31 }
    ensures { Zones field.old field.new }
{
    let n = field.len();
    if 16 <= n {
        put_zones(&mut field[n - 16..]);
        put_zones(&mut field[..16]);
        return;
    }
    if 8 <= n {
        put_zones(&mut field[n - 8..]);
        put_zones(&mut field[..8]);
        return;
    }
    put_zones(field);
}

// Whether the digits are all zero: mostly the rightmost tells. A loop, since `.all()` compiles to a
// slower one; not one with `edit`'s `all_zero`, whose digits lie the other way round.
#[tactic(auto, using(crate::proofs::Fields::all_zero, crate::proofs::Fields::not_zero))]
fn is_zero(field: &[u8]) -> bool
    ensures { result ≡ eqb (size (from_right field.now)) 0 }
{
    for j in (0..field.len()).rev() {
        if field[j] % 16 != 0 {
            return false;
        }
    }
    true
}

// Zone D over the last digit means minus.
#[tactic(auto, using(crate::proofs::Fields::sign_told))]
fn is_minus(field: &[u8]) -> bool
    requires { 0 < length field.now }
    ensures { result ≡ minus (from_right field.now) }
{
    field[field.len() - 1] / 16 == 13
}

// What a digit adds to its column: itself, or where NINES what it lacks of nine.
fn taken<const NINES: bool>(b: u8) -> usize
    requires { digit b ≤ 9 }
    ensures { (result ≡ taken NINES (digit b)) × (result ≤ 9) }
{
    let v = usize::from(b % 16);
    if NINES { 9 - v } else { v }
}

// What a column carries on, its digits on top of the zone's 240: a comparison, since a division would make the next column wait. A number and not a
// bool, since it is added to the next column and, ten times, taken off this one (a bool is no plainer).
fn carried(t: usize) -> usize
    requires { t < 260 }
    ensures { result ≡ (t - 240) / 10 }
{
    if 249 < t {
        return 1;
    }
    0
}

// The carry that changes no further digit where there are none to add.
fn still<const NINES: bool>() -> usize
    ensures { result ≡ still NINES }
{
    if NINES { 1 } else { 0 }
}

// Adds the digits of a field of the same length, column by column from the right. The zones are F, so that a column is 240 and its
// digits. What stays (no plainer otherwise): `Operands` of the two fields as a clause in four functions, and the fields as two
// parameters, of which only one is altered; `start`, 0 or 1, as a clause here and in two more, where a type would be taken apart;
// the two lines of a column in three loops, where a function would take the byte by `&mut`.
fn columns<const NINES: bool>(field: &mut [u8], second: &[u8], start: usize) -> usize
    requires operands { Operands field.old second.now }
    requires same_length { length second.now ≡ length field.old }
    requires start_bound { start ≤ 1 }
    ensures field_after { field.new ≡ holding field.old false (sum_of NINES start field.old second.now) }
    ensures value { (result ≡ sum_of NINES start field.old second.now / 10 ^ length field.old) × (result ≤ 1) }
{
    let mut over = start;
    for j in (0..field.len()).rev() {
        let t = usize::from(field[j]) + taken::<NINES>(second[j]) + over;
        over = carried(t);
        field[j] = (t - 10 * over) as u8;
    }
    over
}

// Where there are no more digits to add only the carry runs on, and mostly not far.
fn run_on<const NINES: bool>(field: &mut [u8], start: usize) -> usize
    requires field { Field field.old }
    requires start_bound { start ≤ 1 }
    ensures field_after { field.new ≡ holding field.old false (alone NINES start field.old) }
    ensures value { result ≡ alone NINES start field.old / 10 ^ length field.old }
{
    let mut over = start;
    for j in (0..field.len()).rev() {
        if over == still::<NINES>() {
            return over;
        }
        let t = usize::from(field[j]) + taken::<NINES>(0) + over;
        over = carried(t);
        field[j] = (t - 10 * over) as u8;
    }
    over
}

// Adds the digits of a field that may be shorter.
fn added<const NINES: bool>(field: &mut [u8], second: &[u8], start: usize) -> usize
    requires operands { Operands field.old second.now }
    requires start_bound { start ≤ 1 }
    ensures field_after { field.new ≡ holding field.old false (sum_of NINES start field.old second.now) }
    ensures value { result ≡ sum_of NINES start field.old second.now / 10 ^ length field.old }
{
    let left = field.len() - second.len();
    let over = columns::<NINES>(&mut field[left..], second, start);
    run_on::<NINES>(&mut field[..left], over)
}

// Ten to the field's length less the field.
fn turned(field: &mut [u8])
    requires { Field field.old }
    ensures { field.new ≡ holding field.old false (round_of field.old) }
{
    let mut over = 1;
    for j in (0..field.len()).rev() {
        let t = 240 + taken::<true>(field[j]) + over;
        over = carried(t);
        field[j] = (t - 10 * over) as u8;
    }
}

// ---- the result

// The status beside its order: decimal overflow goes on, and is never turned off here.
#[tactic(auto, unfolding(manual::specs::TheMachine::turn_on))]
fn kept(over: bool, status: u8) -> u8
    ensures { (result ≡ cond over (turn_on decimal_overflow status) status / 8 * 8) × (result ≤ 248) }
{
    if over {
        return status / 16 * 16 + 8;
    }
    status / 8 * 8
}

// The sign, unless the size left is zero; answers the status.
#[tactic(auto, unfolding(manual::specs::TheMachine::set_order))]
fn finish(field: &mut [u8], minus: bool, over: bool, status: u8) -> u8
    requires { 0 < length field.old }
    ensures field_after { field.new ≡ sign_put minus (eqb (size (from_right field.old)) 0) field.old }
    ensures value { result ≡ finished minus over (eqb (size (from_right field.old)) 0) status }
{
    let status = kept(over, status);
    if is_zero(field) {
        return status + 1;
    }
    if minus {
        let last = field.len() - 1;
        field[last] = 208 + field[last] % 16;
        return status + 2;
    }
    status + 4
}

// Two sizes of one sign add.
fn sum(field: &mut [u8], second: &[u8], minus: bool, status: u8) -> u8
    requires { Operands field.old second.now }
    ensures { LeftIn field.old status (signed_sum minus minus field.old second.now) result field.new }
{
    let over = added::<false>(field, second, 0);
    finish(field, minus, over == 1, status)
}

// Of two signs the smaller size is taken off the larger, whose sign stays. Not one with `sum`, where a carry is the overflow (no plainer): here
// without a carry operand 2's is the larger, and the columns hold ten to the field's length less the result.
fn difference(field: &mut [u8], second: &[u8], minus: bool, status: u8) -> u8
    requires { Operands field.old second.now }
    ensures { LeftIn field.old status (signed_sum minus (not minus) field.old second.now) result field.new }
{
    let over = added::<true>(field, second, 1);
    if over == 1 {
        return finish(field, minus, false, status);
    }
    turned(field);
    finish(field, !minus, false, status)
}

// ---- the instructions, where nothing stands in the way

// ZAZ puts the second field's value in the first.
fn put_value(field: &mut [u8], second: &[u8], status: u8) -> u8
    requires { Fits field.old second.now }
    ensures { LeftIn field.old status (value (from_right second.now)) result field.new }
{
    let left = field.len() - second.len();
    field[..left].fill(0);
    field[left..].copy_from_slice(second);
    put_zone(field);
    finish(field, is_minus(second), false, status)
}

// AZ adds the second field's value, and where LESS SZ takes it off.
fn combined<const LESS: bool>(field: &mut [u8], second: &[u8], status: u8) -> u8
    requires fits { Fits field.old second.now }
    requires digits { all_digits (from_right field.old) ≡ true }
    ensures { LeftIn field.old status (cond LESS ◌-ℤ◌ ◌+ℤ◌ (value (from_right field.old)) (value (from_right second.now))) result field.new }
{
    let m1 = is_minus(field);
    let m2 = is_minus(second) != LESS;
    put_zone(field);
    if m1 == m2 {
        return sum(field, second, m1, status);
    }
    difference(field, second, m1, status)
}

// Operand 2 as it was, at the copy's end: an overlap must not change a digit before it is taken. An array and not a Vec: the library has no heap.
// At the end and not at the front, where the compiler would clear what is left by a call.
#[tactic(auto, using(crate::proofs::Combining::at_end))]
fn copied(second: &[u8]) -> [u8; 16]
    requires { length second.now ≤ 16 }
    ensures { result ≡ replicate (16 - length second.now) 0 ++ second.now }
{
    let mut copy = [0u8; 16];
    copy[16 - second.len()..].copy_from_slice(second);
    copy
}

// ZAZ with its operands in storage.
fn put_second(s: &mut [u8], f: Fields, status: u8) -> u8
    requires { Ready s.old f.q f.a1 f.a2 }
    ensures { Left s.old (l1 f.q) f.a1 status (value (bytes_of s.old (l2 f.q) f.a2)) result s.new }
{
    // by `as`: with `usize::from` the proof doesn't close, here and in the next
    let (n, k) = (l1(f.q), l2(f.q));
    let a = f.a1 as usize;
    let copy = copied(field(s, k, f.a2 as usize));
    put_value(&mut s[a + 1 - n..a + 1], &copy[16 - k..], status)
}

// The same of AZ and SZ: one function with a closure for the last line is no plainer.
fn combine_second<const LESS: bool>(s: &mut [u8], f: Fields, status: u8) -> u8
    requires ready { Ready s.old f.q f.a1 f.a2 }
    requires a1_value { all_digits (bytes_of s.old (l1 f.q) f.a1) ≡ true }
    ensures { Left s.old (l1 f.q) f.a1 status (cond LESS ◌-ℤ◌ ◌+ℤ◌ (value (bytes_of s.old (l1 f.q) f.a1)) (value (bytes_of s.old (l2 f.q) f.a2))) result s.new }
{
    let (n, k) = (l1(f.q), l2(f.q));
    let a = f.a1 as usize;
    let copy = copied(field(s, k, f.a2 as usize));
    combined::<LESS>(&mut s[a + 1 - n..a + 1], &copy[16 - k..], status)
}

// ---- the leaves

/// ZAZ: operand 2's value is put in operand 1. It stops, and changes nothing, where an operand
/// lies outside storage, and then where operand 2 has a digit above 9.
pub fn zaz(m: &mut Machine, s: &mut [u8], f: Fields) -> Result<(), Stop>
    ensures { Does (zaz f) m.old s.old result m.new s.new }
{
    zaz_way(s, f)?;
    m.status = put_second(s, f, m.status);
    m.iar = f.next;
    Ok(())
}

/// AZ, and where LESS SZ: operand 2's value is added to operand 1, or taken off it. It stops, and changes nothing, where an operand lies outside
/// storage, and then where operand 2 or operand 1 has a digit above 9.
pub fn combine<const LESS: bool>(m: &mut Machine, s: &mut [u8], f: Fields) -> Result<(), Stop>
    ensures { Does (cond LESS sz az f) m.old s.old result m.new s.new }
{
    combine_way(s, f)?;
    m.status = combine_second::<LESS>(s, f, m.status);
    m.iar = f.next;
    Ok(())
}
