//! ST, L, A, S, LA, BC, JC and SVC: each does what its rule says. The address of two bytes is that of the rightmost; 7 where they aren't in storage.
#![tactic(auto)]

ghost use Rattle.std.specs.Prelude.{◌≡◌, cond, ◌*◌, ◌+◌, ◌-◌, ◌<◌, ◌≤◌, length, get_or};
ghost use Rattle.manual.specs.Registers.{store, load, loaded_status, add, subtract};
ghost use Rattle.manual.specs.Branches.{taken, after_test, branch, jump, load_address, call};
ghost use Rattle.manual.specs.TheMachine.{turn_off, decimal_overflow, test_false};
ghost use Rattle.parts.specs.Leaf.{Does};

use manual::{Columns, Fields, Machine, Stop};

// ---- a register and two bytes

// The two bytes whose rightmost is at a: a function, since an address is that of the right one.
fn word(s: &[u8], a: usize) -> u16
    requires { (a < length s.now) × (1 ≤ a) }
    ensures { result ≡ get_or s.now (a - 1) 0 * 256 + get_or s.now a 0 }
{
    u16::from_be_bytes([s[a - 1], s[a]])
}

/// ST: the register that Q names goes to storage; of the status a zero byte and the status.
#[tactic(auto, unfolding(manual::specs::Registers::store, manual::specs::Programs::unless, manual::specs::Programs::val, manual::specs::Programs::fin, manual::specs::Step::did, manual::specs::Formats::reach))]
pub fn store(m: &mut Machine, s: &mut [u8], f: Fields) -> Result<(), Stop>
    ensures { Does (store f) m.old s.old result m.new s.new }
{
    let a = usize::from(f.a1);
    parts::reach(s.len(), 2, a)?;
    if f.q == 4 {
        s[a] = m.status;
        s[a - 1] = 0;
    } else {
        let [left, right] = parts::register_of(m, f.q).to_be_bytes();
        s[a] = right;
        s[a - 1] = left;
    }
    m.iar = f.next;
    Ok(())
}

// Bits 2, 3, 4 of the byte, and one of 5, 6, 7: equal if it is on, else low if it is on, else high.
#[tactic(auto, unfolding(manual::specs::Registers::loaded_status, manual::specs::TheMachine::set_order))]
fn loaded_status(b: u8) -> u8
    ensures { result ≡ loaded_status b }
{
    let order = if b % 2 == 1 {
        1
    } else if b / 2 % 2 == 1 {
        2
    } else {
        4
    };
    b % 64 / 8 * 8 + order
}

/// L: the register that Q names comes from storage.
#[tactic(auto, unfolding(manual::specs::Registers::load, manual::specs::Programs::unless, manual::specs::Programs::val, manual::specs::Programs::fin, manual::specs::Step::did, manual::specs::Formats::reach))]
pub fn load(m: &mut Machine, s: &[u8], f: Fields) -> Result<(), Stop>
    ensures { Does (load f) m.old s.now result m.new s.now }
{
    let a = usize::from(f.a1);
    parts::reach(s.len(), 2, a)?;
    if f.q == 4 {
        m.status = loaded_status(s[a]);
    } else {
        parts::set_register(m, f.q, word(s, a));
    }
    m.iar = f.next;
    Ok(())
}

/// A: the bytes are added to the register in 16 bits, the carry told apart; the status as after ALC. Where `LESS` S: they are
/// taken off, the borrow told apart; the status as after SLC.
#[tactic(auto, unfolding(manual::specs::Registers::add, manual::specs::Registers::subtract, manual::specs::Programs::unless, manual::specs::Programs::val, manual::specs::Programs::fin, manual::specs::Step::did, manual::specs::Formats::reach))]
pub fn combine<const LESS: bool>(m: &mut Machine, s: &[u8], f: Fields) -> Result<(), Stop>
    ensures { Does (cond LESS subtract add f) m.old s.now result m.new s.now }
{
    let a = usize::from(f.a1);
    parts::reach(s.len(), 2, a)?;
    let register = parts::register_of(m, f.q);
    let (result, over) = if LESS {
        register.overflowing_sub(word(s, a))
    } else {
        register.overflowing_add(word(s, a))
    };
    let columns = Columns {
        over: usize::from(over),
        clear: result == 0,
    };
    parts::set_register(m, f.q, result);
    m.status = parts::columns_status::<LESS>(m.status, columns);
    m.iar = f.next;
    Ok(())
}

/// LA: the address goes to the register that Q names.
#[tactic(auto, unfolding(manual::specs::Branches::load_address, manual::specs::Programs::val, manual::specs::Programs::fin, manual::specs::Step::did))]
pub fn load_address(m: &mut Machine, s: &[u8], f: Fields) -> Result<(), Stop>
    ensures { Does (load_address f) m.old s.now result m.new s.now }
{
    parts::set_register(m, f.q, f.a1);
    m.iar = f.next;
    Ok(())
}

// ---- branches

// Q bits 2 to 7 pick status bits; bit 0 asks whether any of them is on, or all are off.
#[tactic(auto, unfolding(manual::specs::Branches::taken))]
fn is_taken(q: u8, status: u8) -> bool
    ensures { result ≡ taken q status }
{
    let none = status & (q % 64) == 0;
    if q / 128 % 2 == 1 { !none } else { none }
}

// A picked test false or decimal overflow goes off: by one mask, the fewest instructions, since a loop's branches are mostly taken.
#[tactic(auto, using(crate::proofs::Statuses::after))]
fn after_taken(q: u8, status: u8) -> u8
    ensures { result ≡ after_test q status }
{
    status & (255 - q / 8 % 4 * 8)
}

// The same on the way that isn't taken, bit by bit and not by the mask: reckoned alike on both ways, the compiler would choose IAR by the status
// without a branch, and the next fetch would wait for the status. 247 leaves decimal overflow out, 239 test false.
#[tactic(auto, unfolding(manual::specs::Branches::after_test), using(crate::proofs::Statuses::without_overflow, crate::proofs::Statuses::without_test))]
fn after_test(q: u8, status: u8) -> u8
    ensures { result ≡ after_test q status }
{
    let status = if q / 8 % 2 == 1 { status & 247 } else { status };
    if q / 16 % 2 == 1 {
        status & 239
    } else {
        status
    }
}

/// BC: where it is taken, IAR is the address and ARR the next instruction; where not, the other way round.
#[tactic(auto, unfolding(manual::specs::Branches::branch, manual::specs::Programs::val, manual::specs::Programs::fin, manual::specs::Step::did))]
pub fn branch(m: &mut Machine, s: &[u8], f: Fields) -> Result<(), Stop>
    ensures { Does (branch f) m.old s.now result m.new s.now }
{
    if is_taken(f.q, m.status) {
        m.arr = f.next;
        m.iar = f.a1;
        m.status = after_taken(f.q, m.status);
    } else {
        m.arr = f.a1;
        m.iar = f.next;
        m.status = after_test(f.q, m.status);
    }
    Ok(())
}

/// JC: where it is taken, IAR is the target; ARR stays.
#[tactic(auto, unfolding(manual::specs::Branches::jump, manual::specs::Programs::val, manual::specs::Programs::fin, manual::specs::Step::did))]
pub fn jump(m: &mut Machine, s: &[u8], f: Fields) -> Result<(), Stop>
    ensures { Does (jump f) m.old s.now result m.new s.now }
{
    if is_taken(f.q, m.status) {
        m.iar = f.a1;
        m.status = after_taken(f.q, m.status);
    } else {
        m.iar = f.next;
        m.status = after_test(f.q, m.status);
    }
    Ok(())
}

/// SVC: stops with 9, and its Q and R bytes.
#[tactic(auto, unfolding(manual::specs::Branches::call, manual::specs::Programs::val, manual::specs::Programs::fin, manual::specs::Step::did))]
pub fn call(m: &mut Machine, s: &[u8], f: Fields) -> Result<(), Stop>
    ensures { Does (call f) m.old s.now result m.new s.now }
{
    Err(Stop::Supervisor(f.q, f.r))
}
