//! Numbers that come back: what each answer is told as. The runner, the examples and the host all tell by these.
#![tactic(auto)]

ghost use Rattle.std.specs.Prelude.{◌≡◌, ◌<◌};
ghost use Rattle.manual.specs.Numbers.{answer_told, stop_told, fault_number, read_number, write_told};

use manual::{Answer, DeckFault, Stop, WriteFault};

// ---- step and run

// by a match: a Stop carries bytes, so it can't be cast to its number as a refusal is
fn stop_number(stop: Stop) -> u8
    ensures { (result ≡ (stop_told stop 0).number) × (result < 10) }
{
    match stop {
        Stop::CutShort => 4,
        Stop::OpcodeUnknown => 5,
        Stop::QRefused => 6,
        Stop::OperandOutside => 7,
        Stop::DigitRefused => 8,
        Stop::Supervisor(_, _) => 9,
    }
}

/// The number of an answer of step or run: 0 executed, 1 to 3 refused at entry, 4 to 8 stopped, 9 a supervisor call.
pub fn number_of(a: Answer) -> u8
    ensures { (result ≡ (answer_told a 0).number) × (result < 10) }
{
    match a {
        Answer::Executed => 0,
        Answer::Refused(refusal) => refusal as u8,
        Answer::Stopped(stop) => stop_number(stop),
    }
}

// the Q and R bytes of a supervisor call, zeros for every other answer
fn q_and_r(a: Answer) -> (u8, u8)
    ensures { result ≡ ((answer_told a 0).q, (answer_told a 0).r) }
{
    match a {
        Answer::Stopped(Stop::Supervisor(q, r)) => (q, r),
        _ => (0, 0),
    }
}

/// The Q byte of a supervisor call, 0 for every other answer.
pub fn q_of(a: Answer) -> u8
    ensures { result ≡ (answer_told a 0).q }
{
    q_and_r(a).0
}

/// The R byte of a supervisor call, 0 for every other answer.
pub fn r_of(a: Answer) -> u8
    ensures { result ≡ (answer_told a 0).r }
{
    q_and_r(a).1
}

// ---- the deck

/// The number of a reason why a deck is not read: 1, 3, or 11 to 16.
pub fn fault_number(x: DeckFault) -> u8
    ensures { result ≡ fault_number x }
{
    x as u8
}

/// The number of the reader's answer: 0 where the deck is read, else that of the reason.
pub fn read_number(a: Result<(), DeckFault>) -> u8
    ensures { result ≡ read_number a }
{
    a.err().map_or(0, fault_number)
}

/// The number of the writer's answer: 0 where the deck is written, else 1, 3 or 17.
pub fn write_number(a: Result<usize, WriteFault>) -> u8
    ensures { result ≡ (write_told a).number }
{
    a.err().map_or(0, |fault| fault as u8)
}

/// The length of the deck that was written, 0 on refusal.
pub fn write_length(a: Result<usize, WriteFault>) -> usize
    ensures { result ≡ (write_told a).length }
{
    a.unwrap_or(0)
}
