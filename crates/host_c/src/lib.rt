//! The entries of `host` for C, PUBLISHED: under the header's names, each with the clause of
//! the entry that it calls. One function for each, as C calls them.
#![tactic(auto)]

ghost use Rattle.host.specs.Told.{ToldStepAs, ToldRunAs, ToldReadAs, ToldWriteAs, ToldLengthAs};

use host::{RunNumbers, StepNumbers, WriteNumbers};
use manual::Machine;

/// One step, as `host::aqtovmesh_step`.
#[unsafe(no_mangle)]
pub extern "C" fn aqtovmesh_step(m: &mut Machine, storage: &mut [u8]) -> StepNumbers
    ensures { ToldStepAs m.old storage.old (record { machine = m.new; numbers = result }) storage.new }
{
    host::aqtovmesh_step(m, storage)
}

/// At most `budget` steps, as `host::aqtovmesh_run`.
#[unsafe(no_mangle)]
pub extern "C" fn aqtovmesh_run(m: &mut Machine, storage: &mut [u8], budget: u32) -> RunNumbers
    ensures { ToldRunAs m.old storage.old budget (record { machine = m.new; numbers = result }) storage.new }
{
    host::aqtovmesh_run(m, storage, budget)
}

/// Reads a deck, as `host::aqtovmesh_read`.
#[unsafe(no_mangle)]
pub extern "C" fn aqtovmesh_read(m: &mut Machine, deck: &[u8], storage: &mut [u8]) -> u8
    ensures { ToldReadAs m.old deck.now storage.old (record { machine = m.new; number = result }) storage.new }
{
    host::aqtovmesh_read(m, deck, storage)
}

/// Writes a deck, as `host::aqtovmesh_write`.
#[unsafe(no_mangle)]
pub extern "C" fn aqtovmesh_write(m: &mut Machine, storage: &[u8], out: &mut [u8]) -> WriteNumbers
    ensures { ToldWriteAs m.old storage.now out.old (record { machine = m.new; numbers = result }) out.new }
{
    host::aqtovmesh_write(m, storage, out)
}

/// The length of the deck, as `host::aqtovmesh_deck_length`.
#[unsafe(no_mangle)]
pub extern "C" fn aqtovmesh_deck_length(m: &mut Machine, storage: &[u8]) -> usize
    ensures { ToldLengthAs m.old storage.now (record { machine = m.new; length = result }) }
{
    host::aqtovmesh_deck_length(m, storage)
}
