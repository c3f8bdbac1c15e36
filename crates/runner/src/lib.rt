//! The deck runner's line, PUBLISHED: no `requires`, and one statement that determines every byte of the line.
#![tactic(auto)]

mod registers;
mod text;

ghost use Rattle.std.specs.Prelude.{◌≡◌, false, ◌≤◌, length, get_or};
ghost use Rattle.manual.specs.Numbers.{told};
ghost use Rattle.manual.specs.Runner.{too_large, lent_size, number_line, run_line, line_of};
ghost use Rattle.runner.specs.Text.{printed};

use manual::{Ended, Machine};
pub use registers::Registers;

/// A line, its newline included: it stands at the front of `bytes`, as many as `length` tells, with zeros behind it. A buffer and no
/// `Display`, whose `fmt` may fail and whose pieces would be written one by one: so a line can't fail, and is written whole.
#[derive(Clone, Copy, Debug, PartialEq, Eq)]
pub struct Printed {
    /// The line, and zeros.
    pub bytes: [u8; 64],
    /// The line's bytes.
    pub length: usize,
}

// ---- the two kinds of line

#[tactic(auto, unfolding(manual::specs::Runner::number_line), using(crate::proofs::Lines::as_printed))]
fn number_line(n: u8) -> Printed
    ensures { (result ≡ printed (number_line n)) × (result.length ≤ length result.bytes) }
{
    let l = text::with_decimal(text::nothing(), u32::from(n), 8);
    text::with_byte(l, b'\n')
}

fn run_line(m: Machine, e: Ended) -> Printed
    ensures { (result ≡ printed (run_line m (told e))) × (result.length ≤ length result.bytes) }
{
    let a = e.answer;
    let number = text::with_digit(text::nothing(), told::number_of(a));
    let registers = text::with_registers(number, m);
    let status = text::with_field(registers, m.status);
    let steps = text::with_decimal(text::with_byte(status, b' '), e.steps, 8);
    let q = text::with_field(steps, told::q_of(a));
    let r = text::with_field(q, told::r_of(a));
    text::with_byte(r, b'\n')
}

// ---- the deck

// The byte that tells the size; 0 if absent.
fn second(deck: &[u8]) -> u8
    ensures { result ≡ get_or deck.now 1 0 }
{
    deck.get(1).copied().unwrap_or(0)
}

#[tactic(auto, unfolding(manual::specs::Runner::too_large))]
fn too_large(deck: &[u8]) -> bool
    ensures { result ≡ too_large deck.now }
{
    16532 < deck.len() || 63 < second(deck)
}

// The line of a deck that isn't too large, read into the storage `s`, whatever that holds.
fn answered(deck: &[u8], s: &mut [u8]) -> Printed
    requires { (too_large deck.now ≡ false) × (length s.old ≡ lent_size deck.now) }
    ensures { (result ≡ printed (line_of deck.now)) × (result.length ≤ length result.bytes) }
{
    let read = deck::read(deck, s);
    match read.answer {
        Err(fault) => number_line(told::fault_number(fault)),
        Ok(()) => {
            let ran = processor::run(read.machine, s, 1000000);
            run_line(ran.machine, ran.ended)
        }
    }
}

/// The line of a deck: number 18 where the deck has more than 16,532 bytes or asks for more than 64 pages; else, where the reader refuses it,
/// that refusal's number; else the end of its run of a million steps at most: number, registers, status, steps, Q and R.
#[tactic(auto, using(crate::proofs::Decided::fits, crate::proofs::Decided::large_line))]
pub fn line(deck: &[u8]) -> Printed
    ensures { (result ≡ printed (line_of deck.now)) × (result.length ≤ length result.bytes) }
{
    if too_large(deck) {
        return number_line(18);
    }
    // an array and not a Vec: the library and the programs take nothing from the heap
    let mut storage = [0u8; 16384];
    let size = (usize::from(second(deck)) + 1) * 256;
    answered(deck, &mut storage[0..size])
}
