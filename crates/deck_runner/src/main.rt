//! The deck runner: reads a deck from standard input and prints its line. One byte more than a deck may have decides that it is too large.
#![tactic(auto)]

ghost use Rattle.std.specs.Prelude.{◌≡◌, OnOk, IfSome};
ghost use Rattle.std.specs.Io.KnownBytes.{Appends};
ghost use Rattle.manual.specs.Runner.{line_of};

use std::io::{self, Read, Write};

// Writes the deck's line.
fn answer<W: Write>(deck: &[u8], output: &mut W) -> io::Result<()>
    ensures { OnOk result (Appends (W.contents output.old) (W.contents output.new) (line_of deck.now)) }
{
    let line = runner::line(deck);
    output.write_all(&line.bytes[..line.length])
}

// Writes the line of all the bytes of the input: as many as the buffer holds decide it.
fn run<R: Read, W: Write>(input: &mut R, output: &mut W) -> io::Result<()>
    ensures { OnOk result (IfSome (R.remaining input.old)
        (λ bytes. Appends (W.contents output.old) (W.contents output.new) (line_of bytes))) }
{
    // an array and not a Vec: the programs take nothing from the heap
    let mut deck = [0u8; 16533];
    let n = input::fill(input, &mut deck)?;
    answer(&deck[..n], output)
}

fn main(rt: HostRuntime) -> io::Result<()> {
    run(&mut rt.reader(), &mut io::writer(&rt))
}
