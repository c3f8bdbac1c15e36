//! The host keeps one machine record and lends it, PUBLISHED, and exported to C by host_c: each entry alters that record itself and tells numbers.
//! No entry has a `requires`, and each has one statement: the relation of the function under it, told in numbers (specs/Told).
#![tactic(auto)]

ghost use Rattle.std.specs.Prelude.{◌≡◌};
ghost use Rattle.host.specs.Told.{step_numbers, run_numbers, write_numbers, ToldStepAs, ToldRunAs, ToldReadAs, ToldWriteAs, ToldLengthAs};

use manual::{Answer, Ended, Machine, WriteFault};

// ---- what comes back: numbers only, a length beside its number too, since C has no enum of ours

/// What a step tells: the number of its answer, 0 to 9, and with 9 the Q and R bytes of the supervisor call.
#[repr(C)]
#[derive(Clone, Copy, Debug, PartialEq, Eq)]
pub struct StepNumbers {
    pub number: u8,
    pub q: u8,
    pub r: u8,
}

/// What a run tells: what its last answer tells, and the count of executed steps.
#[repr(C)]
#[derive(Clone, Copy, Debug, PartialEq, Eq)]
pub struct RunNumbers {
    pub number: u8,
    pub q: u8,
    pub r: u8,
    pub steps: u32,
}

/// What the writer tells: the number of its answer, and the length in bytes of the deck that it wrote, 0 on refusal.
#[repr(C)]
#[derive(Clone, Copy, Debug, PartialEq, Eq)]
pub struct WriteNumbers {
    pub number: u8,
    pub length: usize,
}

impl From<Answer> for StepNumbers {
    ghost from_gives = { λ a n. n ≡ step_numbers a };

    fn from(a: Answer) -> StepNumbers {
        StepNumbers {
            number: told::number_of(a),
            q: told::q_of(a),
            r: told::r_of(a),
        }
    }
}

impl From<Ended> for RunNumbers {
    ghost from_gives = { λ e n. n ≡ run_numbers e };

    fn from(e: Ended) -> RunNumbers {
        let StepNumbers { number, q, r } = e.answer.into();
        RunNumbers {
            number,
            q,
            r,
            steps: e.steps,
        }
    }
}

impl From<Result<usize, WriteFault>> for WriteNumbers {
    ghost from_gives = { λ a n. n ≡ write_numbers a };

    fn from(a: Result<usize, WriteFault>) -> WriteNumbers {
        WriteNumbers {
            number: told::write_number(a),
            length: told::write_length(a),
        }
    }
}

// ---- published: each calls the function by value with what the record holds; step, run and read store the machine that it gave.
// Record and storage stay two parameters, and a read's answer a number: so the C interface has them.

/// One step over the lent record and storage: 0 executed, 1 and 3 to 9 as below, with the Q and R bytes where it is 9.
///
/// With any number but 0 record and storage stay as they were: 1 where storage isn't 1 to 256 whole pages of 256 bytes, else 3 where the
/// record's status is above 63, else 4 to 8 where the instruction can't be executed, and 9 where it is a supervisor call.
pub fn aqtovmesh_step(m: &mut Machine, storage: &mut [u8]) -> StepNumbers
    ensures { ToldStepAs m.old storage.old (record { machine = m.new; numbers = result }) storage.new }
{
    let stepped = processor::step(*m, storage);
    *m = stepped.machine;
    stepped.answer.into()
}

/// At most `budget` steps over the lent record and storage: 0 where the budget is spent, with the count of executed steps.
///
/// 1 where storage isn't 1 to 256 whole pages of 256 bytes, else 2 where the budget is above 16,777,216, else 3 where the
/// record's status is above 63: record and storage stay as they were. 4 to 9 are the numbers of the step that ended the
/// run: record and storage are as the executed steps left them.
pub fn aqtovmesh_run(m: &mut Machine, storage: &mut [u8], budget: u32) -> RunNumbers
    ensures { ToldRunAs m.old storage.old budget (record { machine = m.new; numbers = result }) storage.new }
{
    let ran = processor::run(*m, storage, budget);
    *m = ran.machine;
    ran.ended.into()
}

/// Reads a deck into record and storage: 0 where it is read, 1, 3 or 11 to 16 where it is refused.
///
/// What the record held counts for nothing: with 0 it is the deck's machine, and storage is the deck's, pages that the
/// deck doesn't have zeroed; with any other number it is zeroed, and storage stays as it was. 1 is a deck for storage of
/// another size, 3 a status above 63, 11 a deck that ends early, 12 an unknown kind of record, 13 a record out of its
/// order, 14 a page number not below the page count, 15 a page of zeros, 16 bytes after the end record.
pub fn aqtovmesh_read(m: &mut Machine, deck: &[u8], storage: &mut [u8]) -> u8
    ensures { ToldReadAs m.old deck.now storage.old (record { machine = m.new; number = result }) storage.new }
{
    let taken = deck::read(deck, storage);
    *m = taken.machine;
    told::read_number(taken.answer)
}

/// Writes the deck of record and storage to the front of `out`: 0 with its length in bytes, bytes of `out` after that stay.
///
/// 1 where storage isn't 1 to 256 whole pages of 256 bytes, else 3 where the record's status is above 63, else 17 where
/// `out` is shorter than the deck: `out` stays as it was. The record stays in every case.
pub fn aqtovmesh_write(m: &mut Machine, storage: &[u8], out: &mut [u8]) -> WriteNumbers
    ensures { ToldWriteAs m.old storage.now out.old (record { machine = m.new; numbers = result }) out.new }
{
    deck::write(*m, storage, out).into()
}

/// The length in bytes of the deck of record and storage, 0 where storage isn't 1 to 256 whole pages of 256 bytes. The record stays.
pub fn aqtovmesh_deck_length(m: &mut Machine, storage: &[u8]) -> usize
    ensures { ToldLengthAs m.old storage.now (record { machine = m.new; length = result }) }
{
    deck::length(*m, storage)
}
