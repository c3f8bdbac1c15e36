//! MVC, CLC, ALC, SLC: two fields of one length, which may overlap; 7 where one isn't wholly in storage.
ghost use Rattle.std.specs.Prelude.{◌≡◌, cond, ◌⊎◌, ◌+◌, ◌-◌, ◌*◌, ◌/◌, ◌%◌, ◌<◌, ◌≤◌, length, set};
ghost use Rattle.manual.specs.Programs.{and_then};
ghost use Rattle.manual.specs.Formats.{reach};
ghost use Rattle.manual.specs.TheMachine.{order_of};
ghost use Rattle.manual.specs.Values.{bytes_of, number};
ghost use Rattle.manual.specs.Logical.{copy, mvc, clc, columns, fresh, alc, slc};
ghost use Rattle.manual.specs.Step.{Gives};
ghost use Rattle.parts.specs.Leaf.{Does};
ghost use Rattle.logical.specs.Columns.{column_of, taken, over_of};
ghost use Rattle.logical.specs.Pairs.{operands_of, Within};

use manual::{Columns, Fields, Machine, Stop};
use parts::{columns_status, reach, set_order};
use std::cmp::Ordering;

// Two operands of one length; each address is that of the rightmost byte. That both lie in storage stays a clause, `Within`:
// they may overlap, so that they can't be two slices, and an invariant can't speak of a storage that is lent apart.
#[derive(Clone, Copy)]
struct Operands {
    a: usize,
    b: usize,
    n: usize,
}

impl Operands {
    // Those of an instruction whose Q byte is their length less 1.
    fn of(f: Fields) -> Operands
        ensures { result ≡ operands_of f }
    {
        Operands {
            a: usize::from(f.a1),
            b: usize::from(f.a2),
            n: usize::from(f.q) + 1,
        }
    }

    // 7 where one isn't wholly in storage.
    #[tactic(auto, unfolding(manual::specs::Programs::and_then))]
    fn reach(self, size: usize) -> Result<(), Stop>
        ensures { result ≡ and_then (reach size self.n self.a) (reach size self.n self.b) }
    {
        reach(size, self.n, self.a)?;
        reach(size, self.n, self.b)
    }
}

// ---- MVC

// Byte by byte from the right.
#[tactic(auto, using(crate::proofs::Turns::copy_start, crate::proofs::Turns::copy_turn, crate::proofs::Turns::copy_end))]
fn copy_left(s: &mut [u8], p: Operands)
    requires { Within p (length s.old) }
    ensures { Gives (copy p.n p.a p.b) s.old tt s.new }
{
    for i in 0..p.n {
        s[p.a - i] = s[p.b - i];
    }
}

/// MVC: operand 1 becomes operand 2, byte by byte from the right, so that an overlap repeats bytes.
#[tactic(auto, unfolding(manual::specs::Logical::mvc), using(parts::proofs::Ways::pairs))]
pub fn mvc(m: &mut Machine, s: &mut [u8], f: Fields) -> Result<(), Stop>
    ensures { Does (mvc f) m.old s.old result m.new s.new }
{
    let p = Operands::of(f);
    p.reach(s.len())?;
    copy_left(s, p);
    m.iar = f.next;
    Ok(())
}

// ---- CLC

// The order of two fields as numbers is that of their bytes from the left.
fn field_order(s: &[u8], p: Operands) -> u8
    requires { Within p (length s.now) }
    ensures order { result ≡ order_of (number (bytes_of s.now p.n p.a)) (number (bytes_of s.now p.n p.b)) }
    ensures bound { result < 8 }
{
    match s[p.a + 1 - p.n..p.a + 1].cmp(&s[p.b + 1 - p.n..p.b + 1]) {
        Ordering::Equal => 1,
        Ordering::Less => 2,
        Ordering::Greater => 4,
    }
}

/// CLC: operand 1 against operand 2 as unsigned numbers.
#[tactic(auto, unfolding(manual::specs::Logical::clc), using(parts::proofs::Ways::pairs))]
pub fn clc(m: &mut Machine, s: &[u8], f: Fields) -> Result<(), Stop>
    ensures { Does (clc f) m.old s.now result m.new s.now }
{
    let p = Operands::of(f);
    p.reach(s.len())?;
    m.status = set_order(field_order(s, p), m.status);
    m.iar = f.next;
    Ok(())
}

// ---- ALC and SLC

// Four bytes from the right, as a number. This and `put_four` are written so that the compiler makes one load and one store of them.
fn four_of(w: u8, x: u8, y: u8, z: u8) -> usize
    ensures { (result ≡ w + 256 * (x + 256 * (y + 256 * z))) × (result < 4294967296) }
{
    usize::from(w) + 256 * (usize::from(x) + 256 * (usize::from(y) + 256 * usize::from(z)))
}

// The number of the four bytes whose rightmost is at a.
#[tactic(auto, using(crate::proofs::Fours::number_four))]
fn four(s: &[u8], a: usize) -> usize
    requires { (a < length s.now) × (4 ≤ a + 1) }
    ensures { (result ≡ number (bytes_of s.now 4 a)) × (result < 4294967296) }
{
    four_of(s[a], s[a - 1], s[a - 2], s[a - 3])
}

fn put_four(s: &mut [u8], a: usize, v: usize)
    requires { (a < length s.old) × (4 ≤ a + 1) }
    ensures { s.new
        ≡ set (set (set (set s.old a (v % 256)) (a - 1) (v / 256 % 256)) (a - 2) (v / 256 / 256 % 256)) (a - 3) (v / 256 / 256 / 256 % 256) }
{
    let one = v / 256;
    let two = one / 256;
    let three = two / 256;
    s[a] = (v % 256) as u8;
    s[a - 1] = (one % 256) as u8;
    s[a - 2] = (two % 256) as u8;
    s[a - 3] = (three % 256) as u8;
}

// How many times four columns may be taken at once: not where a byte of operand 2 is a result of the three columns before it.
fn by_fours(p: Operands) -> usize
    ensures { (4 * result ≤ p.n) × ((result ≡ 0) ⊎ ((p.b ≤ p.a) ⊎ (p.a + 4 ≤ p.b))) }
{
    if p.b <= p.a || 4 <= p.b - p.a {
        p.n / 4
    } else {
        0
    }
}

// What is added for operand 2: its number, or where LESS what that lacks of all ones.
fn taken<const LESS: bool>(ones: usize, y: usize) -> usize
    requires { y ≤ ones }
    ensures { (result ≡ taken LESS ones y) × (result ≤ ones) }
{
    if LESS { ones - y } else { y }
}

// The carry as the rule has it, where LESS as the borrow; and the other way.
fn over_of<const LESS: bool>(carry: usize) -> usize
    requires { carry ≤ 1 }
    ensures { (result ≡ over_of LESS carry) × (result ≤ 1) }
{
    if LESS { 1 - carry } else { carry }
}

// The first 4 * k columns, four at once.
#[tactic(auto, using(crate::proofs::Turns::so_far_from, crate::proofs::Turns::so_far_is, crate::proofs::Fours::fours_turn, crate::proofs::Turns::columns_end_val, crate::proofs::Turns::columns_end_fin))]
fn fours<const LESS: bool>(s: &mut [u8], p: Operands, k: usize) -> Columns
    requires within { Within p (length s.old) × (4 * k ≤ p.n) }
    requires apart { (k ≡ 0) ⊎ ((p.b ≤ p.a) ⊎ (p.a + 4 ≤ p.b)) }
    ensures { Gives (columns (column_of LESS) (4 * k) p.a p.b fresh) s.old result s.new × (result.over ≤ 1) }
{
    let mut carry = over_of::<LESS>(0);
    let mut clear = true;
    for i in 0..k {
        let t = four(s, p.a - 4 * i) + taken::<LESS>(4294967295, four(s, p.b - 4 * i)) + carry;
        let low = t % 4294967296;
        put_four(s, p.a - 4 * i, low);
        carry = t / 4294967296;
        clear &= low == 0;
    }
    Columns {
        over: over_of::<LESS>(carry),
        clear,
    }
}

// The columns that are left after the first ones.
#[tactic(auto, using(crate::proofs::Turns::so_far_from, crate::proofs::Turns::so_far_is, crate::proofs::Turns::ones_turn, crate::proofs::Turns::columns_end_val, crate::proofs::Turns::columns_end_fin))]
fn ones<const LESS: bool>(s: &mut [u8], p: Operands, from: usize, c: Columns) -> Columns
    requires within { Within p (length s.old) }
    requires start { (from ≤ p.n) × (c.over ≤ 1) }
    ensures { Gives (columns (column_of LESS) (p.n - from) (p.a - from) (p.b - from) c) s.old result s.new }
{
    let mut carry = over_of::<LESS>(c.over);
    let mut clear = c.clear;
    for i in from..p.n {
        let t = usize::from(s[p.a - i]) + taken::<LESS>(255, usize::from(s[p.b - i])) + carry;
        let low = t % 256;
        s[p.a - i] = low as u8;
        carry = t / 256;
        clear &= low == 0;
    }
    Columns {
        over: over_of::<LESS>(carry),
        clear,
    }
}

fn left<const LESS: bool>(s: &mut [u8], p: Operands) -> Columns
    requires { Within p (length s.old) }
    ensures { Gives (columns (column_of LESS) p.n p.a p.b fresh) s.old result s.new }
{
    let k = by_fours(p);
    let c = fours::<LESS>(s, p, k);
    ones::<LESS>(s, p, 4 * k, c)
}

/// ALC: operand 2 is added to operand 1, and the carry out of the leftmost byte is binary overflow. Where `LESS` SLC: it is taken off, and binary
/// overflow stays.
#[tactic(auto, unfolding(manual::specs::Logical::alc, manual::specs::Logical::slc), using(parts::proofs::Ways::pairs))]
pub fn combine<const LESS: bool>(m: &mut Machine, s: &mut [u8], f: Fields) -> Result<(), Stop>
    ensures { Does (cond LESS slc alc f) m.old s.old result m.new s.new }
{
    let p = Operands::of(f);
    p.reach(s.len())?;
    m.status = columns_status::<LESS>(m.status, left::<LESS>(s, p));
    m.iar = f.next;
    Ok(())
}
