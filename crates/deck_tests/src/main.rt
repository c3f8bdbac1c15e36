//! Prints the line of each deck on standard input. Each deck stands behind its length, two bytes, high byte first; the length FFFF ends them.
#![tactic(auto)]

ghost use Rattle.std.specs.Prelude.{ℕ, ◌<◌, ◌≤◌, List, length, IfOk, IfSome, OnErr};
ghost use Rattle.std.specs.Io.KnownBytes.{Consumes};

use std::io::{self, Read, Write};

// The length of the next deck; None at the length FFFF, and where the input ends. A failed read has taken two bytes at most.
fn next_length<R: Read>(input: &mut R) -> io::Result<Option<usize>>
    ensures ok { IfOk result (λ next. IfSome next (λ n. n < 65535)) }
    ensures err { OnErr result ((bytes : List ℕ) × (length bytes ≤ 2) × Consumes (R.remaining input.old) (R.remaining input.new) bytes) }
{
    let mut head = [0u8; 2];
    if input::fill(input, &mut head)? < 2 {
        return Ok(None);
    }
    match u16::from_be_bytes(head) {
        u16::MAX => Ok(None),
        n => Ok(Some(usize::from(n))),
    }
}

// The next deck, at the buffer's front; None where there is none, or a longer one than the buffer holds.
fn next_deck<'a, R: Read>(input: &mut R, buffer: &'a mut [u8]) -> io::Result<Option<&'a [u8]>> {
    match next_length(input)? {
        Some(n) if n <= buffer.len() => {
            let filled = input::fill(input, &mut buffer[..n])?;
            Ok(Some(&buffer[..filled]))
        }
        _ => Ok(None),
    }
}

// Prints the lines of a thousand decks at most.
fn decks<R: Read, W: Write>(input: &mut R, output: &mut W, buffer: &mut [u8]) -> io::Result<()> {
    for _ in 0..1000 {
        let Some(deck) = next_deck(input, buffer)? else {
            break;
        };
        // as the deck runner does; a function that both programs share would be no plainer than its two lines
        let line = runner::line(deck);
        output.write_all(&line.bytes[..line.length])?;
    }
    Ok(())
}

fn main(rt: HostRuntime) -> io::Result<()> {
    // an array and not a Vec: the programs take nothing from the heap
    let mut buffer = [0u8; 17000];
    decks(&mut rt.reader(), &mut io::writer(&rt), &mut buffer)
}
