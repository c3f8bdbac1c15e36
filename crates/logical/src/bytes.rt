//! TBN, TBF, SBN, SBF, MVI, CLI, SLI: one byte, with Q as a mask or as the other byte; 7 where it isn't in storage.

ghost use Rattle.std.specs.Prelude.{◌≡◌, cond};
ghost use Rattle.manual.specs.Immediate.{tbn, tbf, sbn, sbf, mvi, cli, sli};
ghost use Rattle.parts.specs.Leaf.{Does};

use manual::{Columns, Fields, Machine, Stop};

/// TBN where `ON`, TBF where not: test false goes on unless all bits of the byte that Q masks are on, or off.
#[tactic(auto, unfolding(manual::specs::Immediate::tbn, manual::specs::Immediate::tbf, manual::specs::Programs::unless, manual::specs::Programs::val, manual::specs::Programs::fin, manual::specs::Step::did, manual::specs::Formats::reach))]
pub fn test_bits<const ON: bool>(m: &mut Machine, s: &[u8], f: Fields) -> Result<(), Stop>
    ensures { Does (cond ON tbn tbf f) m.old s.now result m.new s.now }
{
    let a = usize::from(f.a1);
    parts::reach(s.len(), 1, a)?;
    let wanted = if ON { f.q } else { 0 };
    if s[a] & f.q != wanted {
        m.status = parts::with_test_false(m.status);
    }
    m.iar = f.next;
    Ok(())
}

/// SBN where `ON`, SBF where not: the bits of the byte that Q masks go on, or off.
#[tactic(auto, unfolding(manual::specs::Immediate::sbn, manual::specs::Immediate::sbf, manual::specs::Programs::unless, manual::specs::Programs::val, manual::specs::Programs::fin, manual::specs::Step::did, manual::specs::Formats::reach))]
pub fn set_bits<const ON: bool>(m: &mut Machine, s: &mut [u8], f: Fields) -> Result<(), Stop>
    ensures { Does (cond ON sbn sbf f) m.old s.old result m.new s.new }
{
    let a = usize::from(f.a1);
    parts::reach(s.len(), 1, a)?;
    if ON {
        s[a] |= f.q;
    } else {
        s[a] &= 255 - f.q;
    }
    m.iar = f.next;
    Ok(())
}

/// MVI: the byte becomes Q.
#[tactic(auto, unfolding(manual::specs::Immediate::mvi, manual::specs::Programs::unless, manual::specs::Programs::val, manual::specs::Programs::fin, manual::specs::Step::did, manual::specs::Formats::reach))]
pub fn mvi(m: &mut Machine, s: &mut [u8], f: Fields) -> Result<(), Stop>
    ensures { Does (mvi f) m.old s.old result m.new s.new }
{
    let a = usize::from(f.a1);
    parts::reach(s.len(), 1, a)?;
    s[a] = f.q;
    m.iar = f.next;
    Ok(())
}

/// CLI: the byte against Q, unsigned.
#[tactic(auto, unfolding(manual::specs::Immediate::cli, manual::specs::Programs::unless, manual::specs::Programs::val, manual::specs::Programs::fin, manual::specs::Step::did, manual::specs::Formats::reach))]
pub fn cli(m: &mut Machine, s: &[u8], f: Fields) -> Result<(), Stop>
    ensures { Does (cli f) m.old s.now result m.new s.now }
{
    let a = usize::from(f.a1);
    parts::reach(s.len(), 1, a)?;
    m.status = parts::set_order(parts::order_of(s[a], f.q), m.status);
    m.iar = f.next;
    Ok(())
}

/// SLI: Q is taken off the byte; the status as after SLC.
#[tactic(auto, unfolding(manual::specs::Immediate::sli, manual::specs::Programs::unless, manual::specs::Programs::val, manual::specs::Programs::fin, manual::specs::Step::did, manual::specs::Formats::reach))]
pub fn sli(m: &mut Machine, s: &mut [u8], f: Fields) -> Result<(), Stop>
    ensures { Does (sli f) m.old s.old result m.new s.new }
{
    let a = usize::from(f.a1);
    parts::reach(s.len(), 1, a)?;
    let (byte, borrow) = s[a].overflowing_sub(f.q);
    s[a] = byte;
    let column = Columns {
        over: usize::from(borrow),
        clear: byte == 0,
    };
    m.status = parts::difference_status(m.status, column);
    m.iar = f.next;
    Ok(())
}
