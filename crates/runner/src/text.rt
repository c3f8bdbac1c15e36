//! A line, written from the left: each function returns the line with its text appended.
ghost use Rattle.std.specs.Prelude.{◌≡◌, [], ◌∷◌, ◌++◌, ◌+◌, ◌<◌, ◌≤◌, length};
ghost use Rattle.manual.specs.Runner.{character, blank, byte_text, word_text, decimal, registers_text};
ghost use Rattle.runner.specs.Text.{text, Behind, Room, Adds};

use crate::Printed;
use manual::Machine;

pub(crate) fn nothing() -> Printed
    ensures { (text result ≡ []) × (result.length ≡ 0) × (length result.bytes ≡ 64) × Behind result }
{
    let bytes = [0u8; 64];
    Printed { bytes, length: 0 }
}

pub(crate) fn with_byte(l: Printed, b: u8) -> Printed
    requires { Room l 1 }
    ensures { Adds l (b ∷ []) 1 result }
{
    let mut bytes = l.bytes;
    let at = l.length;
    bytes[at] = b;
    Printed {
        bytes,
        length: at + 1,
    }
}

pub(crate) fn with_digit(l: Printed, d: u8) -> Printed
    requires { Room l 1 × (d < 16) }
    ensures { Adds l (character d ∷ []) 1 result }
{
    if d < 10 {
        return with_byte(l, 48 + d);
    }
    with_byte(l, 55 + d)
}

fn with_pair(l: Printed, b: u8) -> Printed
    requires { Room l 2 }
    ensures { Adds l (byte_text b) 2 result }
{
    with_digit(with_digit(l, b / 16), b % 16)
}

// A blank and two digits.
pub(crate) fn with_field(l: Printed, b: u8) -> Printed
    requires { Room l 3 }
    ensures { Adds l (blank ∷ byte_text b) 3 result }
{
    with_pair(with_byte(l, 32), b)
}

// A blank and four digits.
fn with_word(l: Printed, w: u16) -> Printed
    requires { Room l 5 }
    ensures { Adds l (blank ∷ word_text w) 5 result }
{
    with_pair(with_field(l, (w / 256) as u8), (w % 256) as u8)
}

// The eight registers, a blank before each.
#[tactic(auto, using(crate::proofs::Lines::eight))]
pub(crate) fn with_registers(l: Printed, m: Machine) -> Printed
    requires { Room l 40 }
    ensures { Adds l (blank ∷ registers_text m) 40 result }
{
    let wr = m.wr;
    let iar = with_word(l, m.iar);
    let arr = with_word(iar, m.arr);
    let xr1 = with_word(arr, m.xr1);
    let xr2 = with_word(xr1, m.xr2);
    let wr4 = with_word(xr2, wr[0]);
    let wr5 = with_word(wr4, wr[1]);
    let wr6 = with_word(wr5, wr[2]);
    with_word(wr6, wr[3])
}

// At most that many digits of x, which are all of them if there are no more.
#[tactic(auto, using(crate::proofs::Lines::decimal_none, crate::proofs::Lines::decimal_last, crate::proofs::Lines::decimal_more))]
pub(crate) fn with_decimal(l: Printed, x: u32, places: usize) -> Printed
    requires { Room l places }
    ensures { (text result ≡ text l ++ decimal places x) × (result.length ≤ l.length + places) × (length result.bytes ≡ 64) × (Behind l → Behind result) }
{
    if places == 0 {
        return l;
    }
    if x < 10 {
        return with_digit(l, x as u8);
    }
    let before = with_decimal(l, x / 10, places - 1);
    with_digit(before, (x % 10) as u8)
}
