//! The decoder: the sixteen-entry table by the opcode's left digit, and the instruction at IAR, or a stop in the order 4, 5, 4, 6.
#![tactic(auto)]

ghost use Rattle.std.specs.Prelude.{◌≡◌, ℕ, true, ◌+◌, ◌/◌, ◌%◌, ◌<◌, ◌≤◌, T, length, get_or, Some, None};
ghost use Rattle.manual.specs.Formats.{form_of, width_of, allowed, first_base, is_index_or_work, is_sum_register, is_register, two_address, operation_of};
ghost use Rattle.manual.specs.declared.Base.TheVariants.{Absent};
ghost use Rattle.manual.specs.declared.Group.TheVariants.{TwoAddress, Jump};
ghost use Rattle.manual.specs.Decode.{number_at, decode_of};
ghost use Rattle.manual.specs.Stops.{address_of};
ghost use Rattle.decode.specs.Fetching.{fetched_of, allows_named, unlisted};
ghost use Rattle.decode.specs.Code.{Sound, code_named, code_opcode};

use manual::{Base, Form, Group, Machine, Operation};

/// What decoding gives, in the run's loop. An enum of its own, which the loop takes apart by `let .. else`, with its parts one by one and
/// stops that hold nothing: a `Result` of a struct would be packed into memory and cost the loop half as much again.
#[derive(Clone, Copy, Debug, PartialEq, Eq)]
pub enum Fetched {
    /// The operation, the Q and R bytes, the addresses of both operands, and of the next instruction.
    Go(Operation, u8, u8, u16, u16, u16),
    /// 4.
    PastStorage,
    /// 5.
    Unnamed,
    /// 6.
    QNotAllowed,
}

// Length, and the base of each operand, by the left digit.
const FORMS: [Form; 16] = [
    Form {
        length: 6,
        first: Base::Direct,
        second: Base::Direct,
        group: Group::TwoAddress,
    },
    Form {
        length: 5,
        first: Base::Direct,
        second: Base::FromXr1,
        group: Group::TwoAddress,
    },
    Form {
        length: 5,
        first: Base::Direct,
        second: Base::FromXr2,
        group: Group::TwoAddress,
    },
    Form {
        length: 4,
        first: Base::Direct,
        second: Base::Absent,
        group: Group::OneAddress,
    },
    Form {
        length: 5,
        first: Base::FromXr1,
        second: Base::Direct,
        group: Group::TwoAddress,
    },
    Form {
        length: 4,
        first: Base::FromXr1,
        second: Base::FromXr1,
        group: Group::TwoAddress,
    },
    Form {
        length: 4,
        first: Base::FromXr1,
        second: Base::FromXr2,
        group: Group::TwoAddress,
    },
    Form {
        length: 3,
        first: Base::FromXr1,
        second: Base::Absent,
        group: Group::OneAddress,
    },
    Form {
        length: 5,
        first: Base::FromXr2,
        second: Base::Direct,
        group: Group::TwoAddress,
    },
    Form {
        length: 4,
        first: Base::FromXr2,
        second: Base::FromXr1,
        group: Group::TwoAddress,
    },
    Form {
        length: 4,
        first: Base::FromXr2,
        second: Base::FromXr2,
        group: Group::TwoAddress,
    },
    Form {
        length: 3,
        first: Base::FromXr2,
        second: Base::Absent,
        group: Group::OneAddress,
    },
    Form {
        length: 4,
        first: Base::Direct,
        second: Base::Absent,
        group: Group::Branch,
    },
    Form {
        length: 3,
        first: Base::FromXr1,
        second: Base::Absent,
        group: Group::Branch,
    },
    Form {
        length: 3,
        first: Base::FromXr2,
        second: Base::Absent,
        group: Group::Branch,
    },
    Form {
        length: 3,
        first: Base::Absent,
        second: Base::Absent,
        group: Group::Jump,
    },
];

// Read at a literal index, so that the table folds away in the loop.
#[tactic(auto, unfolding(manual::specs::Formats::form_of))]
fn form_at(left: usize) -> Form
    requires { left < 16 }
    ensures { result ≡ form_of left }
{
    FORMS[left]
}

// The form of any left digit: still read at a literal index, so that the compiler keeps a table of constants.
#[tactic(auto, unfolding(manual::specs::Formats::form_of))]
fn form_of(left: u8) -> Form
    requires { left < 16 }
    ensures form { result ≡ form_of left }
    ensures sound { Sound result }
{
    match left {
        0 => form_at(0),
        1 => form_at(1),
        2 => form_at(2),
        3 => form_at(3),
        4 => form_at(4),
        5 => form_at(5),
        6 => form_at(6),
        7 => form_at(7),
        8 => form_at(8),
        9 => form_at(9),
        10 => form_at(10),
        11 => form_at(11),
        12 => form_at(12),
        13 => form_at(13),
        14 => form_at(14),
        _ => form_at(15),
    }
}

// The bytes that an operand takes in the instruction.
fn width(b: Base) -> usize
    ensures { result ≡ width_of b }
{
    match b {
        Base::Absent => 0,
        Base::Direct => 2,
        _ => 1,
    }
}

// The address of the operand whose bytes begin at the code's k-th.
fn address(b: Base, m: &Machine, code: &[u8], next: u16, k: usize) -> u16
    requires { (k < 6) × (k + width_of b ≤ length code.now) }
    ensures { result ≡ address_of m.now b next (number_at b (λ i. get_or code.now i 0) k) }
{
    match b {
        Base::Absent => 0,
        Base::Direct => u16::from_be_bytes([code[k], code[k + 1]]),
        Base::FromXr1 => m.xr1.wrapping_add(u16::from(code[k])),
        Base::FromXr2 => m.xr2.wrapping_add(u16::from(code[k])),
        Base::FromArr => m.arr.wrapping_add(u16::from(code[k])),
        Base::Forward => next.wrapping_add(u16::from(code[k])),
        Base::Backward => next.wrapping_sub(u16::from(code[k])),
    }
}

// ---- the Q bytes that an operation allows

fn is_index_or_work(q: u8) -> bool
    ensures { result ≡ is_index_or_work q }
{
    matches!(&q, 1 | 2 | 0x44..=0x47)
}

fn is_sum_register(q: u8) -> bool
    ensures { result ≡ is_sum_register q }
{
    q == 8 || is_index_or_work(q)
}

fn is_register(q: u8) -> bool
    ensures { result ≡ is_register q }
{
    q == 4 || is_sum_register(q)
}

#[tactic(auto, unfolding(manual::specs::Formats::allowed))]
fn allowed(op: Operation, q: u8) -> bool
    ensures { result ≡ allowed op q }
{
    match op {
        Operation::Mvx => q <= 3,
        Operation::St | Operation::L => is_register(q),
        Operation::A | Operation::S => is_sum_register(q),
        Operation::La => is_index_or_work(q),
        _ => true,
    }
}

// ---- an instruction, once its opcode is known; `code` is what stands in storage from its opcode on. Three functions and not one: each is inlined with its
// own constants, so that the loop tests no form. Machine and code go as two parameters: a struct of both would be built at each turn.
// That a form is `Sound` is a clause of three: `Form` is the book's type, where the table alone makes it so.

// One address.
#[tactic(auto, unfolding(manual::specs::Decode::instruction_of))]
fn single(op: Operation, form: Form, m: &Machine, code: &[u8]) -> Fetched
    requires sound { Sound form }
    requires second { form.second ≡ Absent }
    requires base { first_base form.group form.first (get_or code.now 0 0 % 16) ≡ form.first }
    ensures { result ≡ fetched_of m.now (code_named m.now.iar form (Some op) code.now) }
{
    if code.len() < usize::from(form.length) {
        return Fetched::PastStorage;
    }
    let q = code[1];
    if !allowed(op, q) {
        return Fetched::QNotAllowed;
    }
    let next = m.iar.wrapping_add(u16::from(form.length));
    let a1 = address(form.first, m, code, next, 2);
    Fetched::Go(op, q, code[2], a1, 0, next)
}

// F0, F1, F2 and F4: the third byte counts from a base, and every Q byte is allowed.
#[tactic(auto, unfolding(manual::specs::Decode::instruction_of, manual::specs::Formats::form_of))]
fn third(op: Operation, base: Base, m: &Machine, code: &[u8]) -> Fetched
    requires base { (width_of base ≤ 1) × (first_base Jump Absent (get_or code.now 0 0 % 16) ≡ base) }
    requires free { (q : ℕ) → allowed op q ≡ true }
    ensures { result ≡ fetched_of m.now (code_named m.now.iar (form_of 15) (Some op) code.now) }
{
    if code.len() < 3 {
        return Fetched::PastStorage;
    }
    let next = m.iar.wrapping_add(3);
    let a1 = address(base, m, code, next, 2);
    Fetched::Go(op, code[1], code[2], a1, 0, next)
}

// Of the operations of two addresses MVX alone refuses some Q bytes. The right digit is
// asked and not the operation, so that the loop keeps no call here.
#[tactic(auto, unfolding(manual::specs::Formats::allowed), using(crate::proofs::Unlisted::others_allow))]
fn pair_allows(right: u8, q: u8) -> bool
    ensures { result ≡ allows_named (get_or two_address right None) q }
{
    right != 8 || q <= 3
}

// Two addresses; the operation is the one that the right digit names.
#[tactic(auto, unfolding(manual::specs::Decode::instruction_of, manual::specs::Formats::first_base))]
fn double(right: u8, op: Operation, form: Form, m: &Machine, code: &[u8]) -> Fetched
    requires named { get_or two_address right None ≡ Some op }
    requires sound { Sound form }
    requires group { form.group ≡ TwoAddress }
    ensures { result ≡ fetched_of m.now (code_named m.now.iar form (Some op) code.now) }
{
    let length = usize::from(form.length);
    if code.len() < length {
        return Fetched::PastStorage;
    }
    let q = code[1];
    if !pair_allows(right, q) {
        return Fetched::QNotAllowed;
    }
    let next = m.iar.wrapping_add(u16::from(form.length));
    let a1 = address(form.first, m, code, next, 2);
    let a2 = address(form.second, m, code, next, 2 + width(form.first));
    Fetched::Go(op, q, code[2], a1, a2, next)
}

// The operations of two addresses, by the right digit. A match and no table of constants, which would be built anew at each turn.
fn pair_named(right: u8) -> Option<Operation>
    ensures { result ≡ get_or two_address right None }
{
    match right {
        4 => Some(Operation::Zaz),
        6 => Some(Operation::Az),
        7 => Some(Operation::Sz),
        8 => Some(Operation::Mvx),
        10 => Some(Operation::Ed),
        11 => Some(Operation::Itc),
        12 => Some(Operation::Mvc),
        13 => Some(Operation::Clc),
        14 => Some(Operation::Alc),
        15 => Some(Operation::Slc),
        _ => None,
    }
}

// An opcode that isn't named below: one of two addresses, or unknown.
#[tactic(auto, unfolding(manual::specs::Formats::named_of), using(crate::proofs::Unlisted::names_nothing, crate::proofs::Unlisted::no_pair))]
fn pair(opcode: u8, m: &Machine, code: &[u8]) -> Fetched
    requires { T (unlisted opcode) }
    ensures { result ≡ fetched_of m.now (code_opcode m.now.iar code.now opcode) }
{
    let right = opcode % 16;
    let Some(op) = pair_named(right) else {
        return Fetched::Unnamed;
    };
    let form = form_of(opcode / 16);
    match form.group {
        Group::TwoAddress => double(right, op, form, m, code),
        _ => Fetched::Unnamed,
    }
}

// The instruction at the front of the code. A match, so that each arm's form is a constant.
#[tactic(auto, unfolding(manual::specs::Formats::form_of, manual::specs::Formats::named_of, manual::specs::Formats::first_base, manual::specs::Formats::allowed), using(crate::proofs::Unlisted::others))]
fn decode_code(m: &Machine, code: &[u8]) -> Fetched
    requires { 0 < length code.now }
    ensures { result ≡ fetched_of m.now (code_opcode m.now.iar code.now (get_or code.now 0 0)) }
{
    let opcode = code[0];
    match opcode {
        0x34 => single(Operation::St, form_at(3), m, code),
        0x74 => single(Operation::St, form_at(7), m, code),
        0xB4 => single(Operation::St, form_at(11), m, code),
        0x35 => single(Operation::L, form_at(3), m, code),
        0x75 => single(Operation::L, form_at(7), m, code),
        0xB5 => single(Operation::L, form_at(11), m, code),
        0x36 => single(Operation::A, form_at(3), m, code),
        0x76 => single(Operation::A, form_at(7), m, code),
        0xB6 => single(Operation::A, form_at(11), m, code),
        0x37 => single(Operation::S, form_at(3), m, code),
        0x77 => single(Operation::S, form_at(7), m, code),
        0xB7 => single(Operation::S, form_at(11), m, code),
        0x38 => single(Operation::Tbn, form_at(3), m, code),
        0x78 => single(Operation::Tbn, form_at(7), m, code),
        0xB8 => single(Operation::Tbn, form_at(11), m, code),
        0x39 => single(Operation::Tbf, form_at(3), m, code),
        0x79 => single(Operation::Tbf, form_at(7), m, code),
        0xB9 => single(Operation::Tbf, form_at(11), m, code),
        0x3A => single(Operation::Sbn, form_at(3), m, code),
        0x7A => single(Operation::Sbn, form_at(7), m, code),
        0xBA => single(Operation::Sbn, form_at(11), m, code),
        0x3B => single(Operation::Sbf, form_at(3), m, code),
        0x7B => single(Operation::Sbf, form_at(7), m, code),
        0xBB => single(Operation::Sbf, form_at(11), m, code),
        0x3C => single(Operation::Mvi, form_at(3), m, code),
        0x7C => single(Operation::Mvi, form_at(7), m, code),
        0xBC => single(Operation::Mvi, form_at(11), m, code),
        0x3D => single(Operation::Cli, form_at(3), m, code),
        0x7D => single(Operation::Cli, form_at(7), m, code),
        0xBD => single(Operation::Cli, form_at(11), m, code),
        0x3F => single(Operation::Sli, form_at(3), m, code),
        0x7F => single(Operation::Sli, form_at(7), m, code),
        0xBF => single(Operation::Sli, form_at(11), m, code),
        0xC0 => single(Operation::Bc, form_at(12), m, code),
        0xC2 => single(Operation::La, form_at(12), m, code),
        0xD0 => single(Operation::Bc, form_at(13), m, code),
        0xD2 => single(Operation::La, form_at(13), m, code),
        0xE0 => single(Operation::Bc, form_at(14), m, code),
        0xE2 => single(Operation::La, form_at(14), m, code),
        0xF0 => third(Operation::Bc, Base::FromArr, m, code),
        0xF1 => third(Operation::Jc, Base::Backward, m, code),
        0xF2 => third(Operation::Jc, Base::Forward, m, code),
        0xF4 => third(Operation::Svc, Base::Absent, m, code),
        _ => pair(opcode, m, code),
    }
}

/// The instruction at IAR with the addresses of its operands, or how decoding stops: past storage (4) where IAR or a later byte of the instruction
/// lies there, an opcode that names nothing (5), a Q byte that the operation doesn't allow (6).
#[tactic(auto, unfolding(manual::specs::Decode::decode_of), using(crate::proofs::OverCode::over_code))]
pub fn decode(m: &Machine, s: &[u8]) -> Fetched
    ensures { result ≡ fetched_of m.now (decode_of s.now m.now.iar) }
{
    let at = usize::from(m.iar);
    if s.len() <= at {
        return Fetched::PastStorage;
    }
    decode_code(m, &s[at..])
}
