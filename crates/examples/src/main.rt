//! Runs the worked examples of document 001 and the table of the morning check through `step`, and prints each with what it gave.
//! A line of standard input: page and instruction in ten places; IAR, ARR, XR1, XR2, WR4 to WR7; the status; then stretches of storage, each an
//! address, a colon and its bytes. It is printed with what the step gave: the answer's number, the registers, the status, the same stretches.
#![tactic(auto)]

ghost use Rattle.std.specs.Prelude.{◌<◌, length};
ghost use Rattle.std.specs.Iterator.{at_most};

use manual::Machine;
use runner::Registers;
use std::fmt::{Display, InlineText};
use std::io::{self, Write};

// ---- reading

// What a hexadecimal digit stands for; 0 for any other byte, which the library's own readers of digits refuse.
fn value_of(digit: u8) -> u8
    ensures { result < 16 }
{
    match digit {
        b'0'..=b'9' => digit - b'0',
        b'A'..=b'F' => digit - b'A' + 10,
        _ => 0,
    }
}

fn byte_of(left: u8, right: u8) -> u8 {
    value_of(left) * 16 + value_of(right)
}

fn word_of(digits: [u8; 4]) -> u16 {
    let [a, b, c, d] = digits;
    u16::from_be_bytes([byte_of(a, b), byte_of(c, d)])
}

// The byte at a place; 0 past the end.
fn at(bytes: &[u8], i: usize) -> u8 {
    bytes.get(i).copied().unwrap_or(0)
}

fn word_at(line: &[u8], i: usize) -> u16
    requires { i < 16384 }
{
    word_of([
        at(line, i),
        at(line, i + 1),
        at(line, i + 2),
        at(line, i + 3),
    ])
}

// By places, as the line has them: no reader of the library tells such a form.
fn machine_of(line: &[u8]) -> Machine {
    Machine {
        iar: word_at(line, 10),
        arr: word_at(line, 15),
        xr1: word_at(line, 20),
        xr2: word_at(line, 25),
        wr: [
            word_at(line, 30),
            word_at(line, 35),
            word_at(line, 40),
            word_at(line, 45),
        ],
        status: byte_of(at(line, 50), at(line, 51)),
    }
}

// ---- the stretches of a line

// What stands in the stretches: the address where one begins, a blank, or a byte.
#[derive(Clone, Copy)]
enum Piece {
    Address(u16),
    Blank,
    Byte(u8),
}

// The pieces of what is left of a line. A last digit alone is the left one of its byte.
#[derive(Clone, Copy)]
struct Pieces<'a> {
    rest: &'a [u8],
}

impl Iterator for Pieces<'_> {
    type Item = Piece;

    ghost remaining = { λ s. at_most (length s.rest.now) };

    fn next(&mut self) -> Option<Piece> {
        let (piece, rest) = match self.rest {
            [a, b, c, d, b':', rest @ ..] => (Piece::Address(word_of([*a, *b, *c, *d])), rest),
            [b' ', rest @ ..] => (Piece::Blank, rest),
            [left, right, rest @ ..] => (Piece::Byte(byte_of(*left, *right)), rest),
            [left] => (Piece::Byte(byte_of(*left, 0)), &self.rest[1..]),
            [] => return None,
        };
        self.rest = rest;
        Some(piece)
    }
}

// They stand behind the status.
fn stretches(line: &[u8]) -> Pieces<'_> {
    Pieces {
        rest: line.get(53..).unwrap_or(&[]),
    }
}

// A byte laid past the end of storage is dropped.
fn lay(line: &[u8], s: &mut [u8]) {
    let mut a: usize = 0;
    for piece in stretches(line) {
        match piece {
            Piece::Address(address) => a = usize::from(address),
            Piece::Blank => {}
            Piece::Byte(byte) => {
                if let Some(place) = s.get_mut(a) {
                    *place = byte;
                }
                a = a.saturating_add(1);
            }
        }
    }
}

// Prints a text of 64 bytes at most in one write: `write!` to an output that has no buffer writes digit by digit.
fn print<W: Write, D: Display + Drop>(output: &mut W, text: D) -> io::Result<()> {
    output.write_all(InlineText::<64>::of(text).as_str().as_bytes())
}

fn digit(value: u8) -> u8
    requires { value < 16 }
{
    if value < 10 {
        b'0' + value
    } else {
        b'A' + (value - 10)
    }
}

// Prints the stretches of a line with the bytes that storage has there; 00 past its end.
fn print_stretches<W: Write>(output: &mut W, line: &[u8], s: &[u8]) -> io::Result<()> {
    let mut a: usize = 0;
    for piece in stretches(line) {
        match piece {
            Piece::Address(address) => {
                a = usize::from(address);
                print(output, format_args!(" {address:04X}:"))?;
            }
            Piece::Blank => {}
            Piece::Byte(_) => {
                let byte = at(s, a);
                // by hand: a line may have thousands of bytes, and each would be formatted
                output.write_all(&[digit(byte / 16), digit(byte % 16)])?;
                a = a.saturating_add(1);
            }
        }
    }
    Ok(())
}

// ---- the examples

fn example<W: Write>(output: &mut W, line: &[u8]) -> io::Result<()> {
    // an array, as in `main`
    let mut s = [0u8; 16384];
    lay(line, &mut s);
    let stepped = processor::step(machine_of(line), &mut s);
    let number = told::number_of(stepped.answer);
    let registers = Registers(stepped.machine);
    let status = stepped.machine.status;
    output.write_all(line)?;
    print(
        output,
        format_args!(" -> {number} {registers} {status:02X}"),
    )?;
    print_stretches(output, line, &s)?;
    output.write_all(b"\n")
}

fn examples<W: Write>(output: &mut W, text: &[u8]) -> io::Result<()> {
    for line in text.split_inclusive(|byte| *byte == b'\n') {
        example(output, line.strip_suffix(b"\n").unwrap_or(line))?;
    }
    Ok(())
}

fn main(rt: HostRuntime) -> io::Result<()> {
    // an array and not a Vec: the programs take nothing from the heap
    let mut text = [0u8; 16384];
    let n = input::fill(&mut rt.reader(), &mut text)?;
    examples(&mut io::writer(&rt), &text[..n])
}
