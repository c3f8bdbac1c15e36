//! One step and the run, PUBLISHED: step and run have no `requires`, and one statement each that determines the answer, the machine and every byte.
#![tactic(auto)]

ghost use Rattle.std.specs.Prelude.{◌≡◌};
ghost use Rattle.manual.specs.Step.{exec, ended, inner_step, SteppedAs};
ghost use Rattle.manual.specs.Run.{ran_outcome, turns_of, RanAs};
ghost use Rattle.parts.specs.Leaf.{Does, answer};
ghost use Rattle.processor.specs.Ending.{fetch_stop};
ghost use Rattle.processor.specs.Entry.{admitted};

use decode::Fetched;
use manual::{Answer, Ended, Fields, Machine, Operation, Ran, Refusal, Stepped, Stop};

// ---- the inner step, without the entry tests

// A match and no table of functions: the leaves are inlined into the loop. Machine and storage are two parameters,
// here and in each leaf: a struct of two `&mut` was tried, and its maker's proof doesn't close.
#[inline(always)]
#[tactic(auto, unfolding(manual::specs::Step::exec))]
fn execute(m: &mut Machine, s: &mut [u8], op: Operation, f: Fields) -> Result<(), Stop>
    ensures { Does (exec op f) m.old s.old result m.new s.new }
{
    match op {
        Operation::Zaz => zoned::zaz(m, s, f),
        Operation::Az => zoned::combine::<false>(m, s, f),
        Operation::Sz => zoned::combine::<true>(m, s, f),
        Operation::Mvx => edit::mvx(m, s, f),
        Operation::Ed => edit::ed(m, s, f),
        Operation::Itc => edit::itc(m, s, f),
        Operation::Mvc => logical::mvc(m, s, f),
        Operation::Clc => logical::clc(m, s, f),
        Operation::Alc => logical::combine::<false>(m, s, f),
        Operation::Slc => logical::combine::<true>(m, s, f),
        Operation::St => control::store(m, s, f),
        Operation::L => control::load(m, s, f),
        Operation::A => control::combine::<false>(m, s, f),
        Operation::S => control::combine::<true>(m, s, f),
        Operation::Tbn => logical::test_bits::<true>(m, s, f),
        Operation::Tbf => logical::test_bits::<false>(m, s, f),
        Operation::Sbn => logical::set_bits::<true>(m, s, f),
        Operation::Sbf => logical::set_bits::<false>(m, s, f),
        Operation::Mvi => logical::mvi(m, s, f),
        Operation::Cli => logical::cli(m, s, f),
        Operation::Sli => logical::sli(m, s, f),
        Operation::Bc => control::branch(m, s, f),
        Operation::Jc => control::jump(m, s, f),
        Operation::La => control::load_address(m, s, f),
        Operation::Svc => control::call(m, s, f),
    }
}

// How decoding stopped, where it found no instruction.
fn stop_of(d: Fetched) -> Stop
    ensures { result ≡ fetch_stop d }
{
    match d {
        Fetched::Go(_, _, _, _, _, _) | Fetched::PastStorage => Stop::CutShort,
        Fetched::Unnamed => Stop::OpcodeUnknown,
        Fetched::QNotAllowed => Stop::QRefused,
    }
}

// The step goes on only with an instruction.
#[inline(always)]
#[tactic(auto, using(crate::proofs::Stepping::ends, crate::proofs::Stepping::executes))]
fn inner(m: &mut Machine, s: &mut [u8]) -> Result<(), Stop>
    ensures { ended m.new (answer result) s.new ≡ inner_step m.old s.old }
{
    let fetched = decode::decode(m, s);
    let Fetched::Go(op, q, r, a1, a2, next) = fetched else {
        return Err(stop_of(fetched));
    };
    execute(m, s, op, Fields { q, r, a1, a2, next })
}

// ---- the loop: the budget is tested before each fetch

// The machine that runs, taken over field by field: copied whole, the byte that pads its record would take a register of the loop.
#[tactic(auto, using(crate::proofs::Records::taken_over))]
fn taken_over(m: Machine) -> Machine
    ensures { result ≡ m }
{
    let w = m.wr;
    Machine {
        iar: m.iar,
        arr: m.arr,
        xr1: m.xr1,
        xr2: m.xr2,
        wr: [w[0], w[1], w[2], w[3]],
        status: m.status,
    }
}

// A call of its own: within `run` the compiler gives the loop 7 to 17 instructions a step more.
#[inline(never)]
#[tactic(auto, unfolding(manual::specs::Run::turns_of))]
fn turns(m: Machine, s: &mut [u8], budget: u32) -> Ran
    ensures { ran_outcome result s.new ≡ turns_of m s.old budget }
{
    let mut machine = taken_over(m);
    for steps in 0..budget {
        if let Err(stop) = inner(&mut machine, s) {
            return ran(machine, Answer::Stopped(stop), steps);
        }
    }
    ran(machine, Answer::Executed, budget)
}

// A run that ended after that many executed steps.
fn ran(machine: Machine, answer: Answer, steps: u32) -> Ran
    ensures { result ≡ record { machine = machine; ended = record { answer = answer; steps = steps } } }
{
    Ran {
        machine,
        ended: Ended { answer, steps },
    }
}

// ---- published

// The tests at entry, in the order of their numbers.
#[tactic(auto, unfolding(crate::specs::Entry::admitted, manual::specs::TheMachine::budget_allowed, manual::specs::TheMachine::status_allowed))]
fn admitted(size: usize, budget: u32, status: u8) -> Result<(), Refusal>
    ensures { result ≡ admitted size budget status }
{
    if !parts::size_allowed(size) {
        return Err(Refusal::SizeRefused);
    }
    if 16777216 < budget {
        return Err(Refusal::BudgetRefused);
    }
    if 64 <= status {
        return Err(Refusal::StatusRefused);
    }
    Ok(())
}

/// Executes the instruction at IAR. Refused with 1 where the storage isn't 256 to 65,536 bytes and a multiple of 256, with 3 where
/// the status is 64 or more; a refusal and a stop leave machine and storage. A step is a run of one turn.
pub fn step(m: Machine, s: &mut [u8]) -> Stepped
    ensures { SteppedAs m s.old result s.new }
{
    let ran = run(m, s, 1);
    Stepped {
        machine: ran.machine,
        answer: ran.ended.answer,
    }
}

/// Executes at most `budget` instructions, until one stops, and counts them. Refused as a step is, and with 2 where the budget is above 16,777,216.
#[tactic(auto, unfolding(manual::specs::Run::run_of, crate::specs::Entry::admitted))]
pub fn run(m: Machine, s: &mut [u8], budget: u32) -> Ran
    ensures { RanAs m s.old budget result s.new }
{
    match admitted(s.len(), budget, m.status) {
        Ok(()) => turns(m, s, budget),
        Err(refusal) => ran(m, Answer::Refused(refusal), 0),
    }
}
