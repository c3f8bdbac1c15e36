//! What the leaves share: the range tests, the registers by name, and the status.
#![tactic(auto)]

ghost use Rattle.std.specs.Prelude.{◌≡◌, ◌<◌, cond};
ghost use Rattle.manual.specs.TheMachine.{size_allowed, set_order, order_of, turn_on, test_false};
ghost use Rattle.manual.specs.Formats.{reach, reach_right};
ghost use Rattle.manual.specs.Logical.{sum_status, difference_status};
ghost use Rattle.manual.specs.Registers.{register_named};
ghost use Rattle.manual.specs.Places.{register_of, with_register};

use manual::{Columns, Machine, Stop};

// ---- where an operand may lie

/// `n` bytes whose rightmost is at `a`; 7 where one lies below 0000 or past the storage of `size` bytes.
#[tactic(auto, unfolding(manual::specs::Formats::reach))]
pub fn reach(size: usize, n: usize, a: usize) -> Result<(), Stop>
    ensures { result ≡ reach size n a }
{
    if a < size && n <= a + 1 {
        Ok(())
    } else {
        Err(Stop::OperandOutside)
    }
}

/// `n` bytes whose leftmost is at `a`; 7 where one lies past the storage of `size` bytes. Not one with `reach`: it would ask which side is meant.
#[tactic(auto, unfolding(manual::specs::Formats::reach_right))]
pub fn reach_right(size: usize, n: usize, a: usize) -> Result<(), Stop>
    ensures { result ≡ reach_right size n a }
{
    if n <= size && a <= size - n {
        Ok(())
    } else {
        Err(Stop::OperandOutside)
    }
}

// ---- the storage

/// 256 to 65,536 bytes, a multiple of 256.
#[tactic(auto, unfolding(manual::specs::TheMachine::size_allowed))]
pub fn size_allowed(n: usize) -> bool
    ensures { result ≡ size_allowed n }
{
    256 <= n && n <= 65536 && n % 256 == 0
}

// ---- the status

/// The status with its bits high, low and equal as in `order`.
#[tactic(auto, unfolding(manual::specs::TheMachine::set_order))]
pub fn set_order(order: u8, status: u8) -> u8
    requires { order < 8 }
    ensures { result ≡ set_order order status }
{
    status / 8 * 8 + order
}

/// Equal (1), low (2) or high (4), the status's own bits: `x` against `y`, unsigned. By two tests, since `cmp` costs the loop a branch more. Orders are
/// numbers here and where one is made: tried as std's `Ordering` and as an enum with these numbers, the loop took one or two instructions in a hundred more.
#[tactic(auto, unfolding(manual::specs::TheMachine::order_of))]
pub fn order_of(x: u8, y: u8) -> u8
    ensures order { result ≡ order_of x y }
    ensures bound { result < 8 }
{
    if x == y {
        1
    } else if x < y {
        2
    } else {
        4
    }
}

/// The status after a sum: the carry is binary overflow.
#[tactic(auto, unfolding(manual::specs::Logical::sum_status, manual::specs::TheMachine::set_order, manual::specs::TheMachine::turn_on, manual::specs::TheMachine::turn_off))]
pub fn sum_status(status: u8, c: Columns) -> u8
    ensures { result ≡ sum_status status c }
{
    // all but binary overflow, high, low and equal
    let kept = status / 64 * 64 + status / 8 % 4 * 8;
    if c.over == 0 {
        kept + if c.clear { 1 } else { 2 }
    } else {
        kept + if c.clear { 33 } else { 36 }
    }
}

/// The status after a difference: binary overflow stays.
#[tactic(auto, unfolding(manual::specs::Logical::difference_status))]
pub fn difference_status(status: u8, c: Columns) -> u8
    ensures { result ≡ difference_status status c }
{
    let order = if c.clear {
        1
    } else if c.over == 0 {
        4
    } else {
        2
    };
    set_order(order, status)
}

/// The status after a sum, or where `LESS` after a difference.
pub fn columns_status<const LESS: bool>(status: u8, c: Columns) -> u8
    ensures { result ≡ cond LESS difference_status sum_status status c }
{
    if LESS {
        difference_status(status, c)
    } else {
        sum_status(status, c)
    }
}

/// The status with test false on.
#[tactic(auto, unfolding(manual::specs::TheMachine::turn_on))]
pub fn with_test_false(status: u8) -> u8
    ensures { result ≡ turn_on test_false status }
{
    if status / 16 % 2 == 1 {
        status
    } else {
        status + 16
    }
}

// ---- the registers by their Q byte

/// The register of an allowed Q byte other than 04 (the status). Each work register by a literal
/// index: one at run time would keep the machine in memory.
#[tactic(auto, unfolding(manual::specs::Registers::register_named))]
pub fn register_of(m: &Machine, q: u8) -> u16
    ensures { result ≡ register_of m.now (register_named q) }
{
    match q {
        1 => m.xr1,
        2 => m.xr2,
        8 => m.arr,
        _ => match q % 4 {
            0 => m.wr[0],
            1 => m.wr[1],
            2 => m.wr[2],
            _ => m.wr[3],
        },
    }
}

/// Sets the same register.
#[tactic(auto, unfolding(manual::specs::Registers::register_named))]
pub fn set_register(m: &mut Machine, q: u8, v: u16)
    ensures { m.new ≡ with_register m.old (register_named q) v }
{
    match q {
        1 => m.xr1 = v,
        2 => m.xr2 = v,
        8 => m.arr = v,
        _ => match q % 4 {
            0 => m.wr[0] = v,
            1 => m.wr[1] = v,
            2 => m.wr[2] = v,
            _ => m.wr[3] = v,
        },
    }
}
