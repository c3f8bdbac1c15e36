//! The types of the machine, its instructions and its answers. What each means is in specs/: the paper's rules as definitions.

#![tactic(auto)]

/// The machine: what a host keeps from call to call beside the storage.
#[repr(C)]
#[derive(Clone, Copy, Debug, PartialEq, Eq, Default)]
pub struct Machine {
    /// The address of the next instruction.
    pub iar: u16,
    /// The address recall register.
    pub arr: u16,
    pub xr1: u16,
    pub xr2: u16,
    /// WR4 to WR7.
    pub wr: [u16; 4],
    /// Six bits, below 64: 32 binary overflow, 16 test false, 8 decimal overflow, 4 high, 2 low, 1 equal.
    pub status: u8,
}

/// The registers that instructions read and write by name; `Work(i)` is WR(4 + i).
#[derive(Clone, Copy, Debug, PartialEq, Eq)]
pub enum Register {
    Arr,
    Xr1,
    Xr2,
    Work(usize),
}

// ---- answers of step and run; specs/Numbers has each one's number

/// Why a call of step or run is refused at entry, with its number: the storage's size, the budget, the status.
#[derive(Clone, Copy, Debug, PartialEq, Eq)]
pub enum Refusal {
    SizeRefused = 1,
    BudgetRefused = 2,
    StatusRefused = 3,
}

/// Why an instruction stops.
#[derive(Clone, Copy, Debug, PartialEq, Eq)]
pub enum Stop {
    /// 4: a byte of the instruction lies past the storage.
    CutShort,
    /// 5: the opcode names nothing.
    OpcodeUnknown,
    /// 6: the operation doesn't allow this Q byte.
    QRefused,
    /// 7: an operand isn't wholly in storage.
    OperandOutside,
    /// 8: a digit of a zoned operand is above 9.
    DigitRefused,
    /// 9: a supervisor call, with its Q and R bytes.
    Supervisor(u8, u8),
}

/// What a step or a run answers; `Executed` is 0. Three cases, which no `Result` has: a refusal is the caller's fault, a stop the program's.
#[derive(Clone, Copy, Debug, PartialEq, Eq)]
pub enum Answer {
    Executed,
    Refused(Refusal),
    Stopped(Stop),
}

/// What a step leaves.
#[derive(Clone, Copy, Debug, PartialEq, Eq)]
pub struct Stepped {
    pub machine: Machine,
    pub answer: Answer,
}

/// How a run ended, and its count of executed steps.
#[derive(Clone, Copy, Debug, PartialEq, Eq)]
pub struct Ended {
    pub answer: Answer,
    pub steps: u32,
}

/// What a run leaves.
#[derive(Clone, Copy, Debug, PartialEq, Eq)]
pub struct Ran {
    pub machine: Machine,
    pub ended: Ended,
}

// ---- instructions

/// The 25 operations, by the names of the manual.
#[derive(Clone, Copy, Debug, PartialEq, Eq)]
pub enum Operation {
    Zaz,
    Az,
    Sz,
    Mvx,
    Ed,
    Itc,
    Mvc,
    Clc,
    Alc,
    Slc,
    St,
    L,
    A,
    S,
    Tbn,
    Tbf,
    Sbn,
    Sbf,
    Mvi,
    Cli,
    Sli,
    Bc,
    Jc,
    La,
    Svc,
}

/// What an address is reckoned from.
#[derive(Clone, Copy, Debug, PartialEq, Eq)]
pub enum Base {
    Absent,
    Direct,
    FromXr1,
    FromXr2,
    FromArr,
    Forward,
    Backward,
}

/// Which opcodes a left digit has.
#[derive(Clone, Copy, Debug, PartialEq, Eq)]
pub enum Group {
    TwoAddress,
    OneAddress,
    Branch,
    Jump,
}

/// What the left digit of an opcode gives: the length in bytes, and the base of each operand.
#[derive(Clone, Copy, Debug, PartialEq, Eq)]
pub struct Form {
    pub length: u8,
    pub first: Base,
    pub second: Base,
    pub group: Group,
}

/// An operand as it stands in the instruction: its base, and the address or displacement.
#[derive(Clone, Copy, Debug, PartialEq, Eq)]
pub struct Operand {
    pub base: Base,
    pub number: u16,
}

/// An instruction as its bytes say it; `next` is the address after it.
#[derive(Clone, Copy, Debug, PartialEq, Eq)]
pub struct Instruction {
    pub operation: Operation,
    pub q: u8,
    pub r: u8,
    pub first: Operand,
    pub second: Operand,
    pub next: u16,
}

/// An instruction with the addresses of its operands: what a rule and a leaf see.
#[derive(Clone, Copy, Debug, PartialEq, Eq)]
pub struct Fields {
    pub q: u8,
    pub r: u8,
    pub a1: u16,
    pub a2: u16,
    pub next: u16,
}

/// What ALC and SLC carry from column to column: the carry or borrow, 0 or 1, as the number that the next column adds or takes off, and whether
/// every result byte so far is zero.
#[derive(Clone, Copy, Debug, PartialEq, Eq)]
pub struct Columns {
    pub over: usize,
    pub clear: bool,
}

// ---- answers of the deck reader and writer

/// Why a deck is not read, with its number.
#[derive(Clone, Copy, Debug, PartialEq, Eq)]
pub enum DeckFault {
    SizeNotTheDecks = 1,
    StatusNotAllowed = 3,
    EndsEarly = 11,
    KindUnknown = 12,
    OutOfOrder = 13,
    PageBeyond = 14,
    PageOfZeros = 15,
    BytesAfterEnd = 16,
}

/// What the reader leaves. The machine stands beside the answer and not in it: a refusal leaves a zeroed one, which the reader promises.
#[derive(Clone, Copy, Debug, PartialEq, Eq)]
pub struct DeckOut {
    pub machine: Machine,
    pub answer: Result<(), DeckFault>,
}

/// Why a deck is not written, with its number.
#[derive(Clone, Copy, Debug, PartialEq, Eq)]
pub enum WriteFault {
    SizeNotAllowed = 1,
    StatusNotWritable = 3,
    OutputShort = 17,
}
