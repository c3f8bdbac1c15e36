//! Bytes, words and registers as hexadecimal digits.

use manual::Machine;
use std::fmt;

// Displayed as two digits, upper case.
#[derive(Clone, Copy)]
pub(crate) struct HexByte(pub(crate) u8);

impl fmt::Display for HexByte {
    ghost use Rattle.std.specs.Prelude.{Some};
    ghost use Rattle.manual.specs.Runner.{byte_text};

    ghost output = { λ b. Some (byte_text b.0) };

    fn fmt<W: fmt::Write>(&self, f: &mut fmt::Formatter<W>) -> fmt::Result {
        let byte = self.0;
        write!(f, "{byte:02X}")
    }
}

// Displayed as four digits, by its bytes: the standard library has a lemma of what `{:02X}` writes, and none of `{:04X}`.
#[derive(Clone, Copy)]
pub(crate) struct HexWord(pub(crate) u16);

impl fmt::Display for HexWord {
    ghost use Rattle.std.specs.Prelude.{Some};
    ghost use Rattle.manual.specs.Runner.{word_text};

    ghost output = { λ w. Some (word_text w.0) };

    fn fmt<W: fmt::Write>(&self, f: &mut fmt::Formatter<W>) -> fmt::Result {
        let [high, low] = self.0.to_be_bytes();
        let high = HexByte(high);
        let low = HexByte(low);
        write!(f, "{high}{low}")
    }
}

/// A machine's registers. Displayed they are IAR, ARR, XR1, XR2 and WR4 to WR7, four hexadecimal digits each and a blank between.
#[derive(Clone, Copy, Debug, PartialEq, Eq)]
pub struct Registers(pub Machine);

impl fmt::Display for Registers {
    ghost use Rattle.std.specs.Prelude.{Some};
    ghost use Rattle.manual.specs.Runner.{registers_text};

    ghost output = { λ r. Some (registers_text r.0) };

    fn fmt<W: fmt::Write>(&self, f: &mut fmt::Formatter<W>) -> fmt::Result {
        let m = self.0;
        let iar = HexWord(m.iar);
        let arr = HexWord(m.arr);
        let xr1 = HexWord(m.xr1);
        let xr2 = HexWord(m.xr2);
        let wr4 = HexWord(m.wr[0]);
        let wr5 = HexWord(m.wr[1]);
        let wr6 = HexWord(m.wr[2]);
        let wr7 = HexWord(m.wr[3]);
        write!(f, "{iar} {arr} {xr1} {xr2} {wr4} {wr5} {wr6} {wr7}")
    }
}
