//! What a drill counts.

ghost use Rattle.std.specs.Prelude.{◌≡◌, ◌≤◌, IfOk};
ghost use Rattle.splinter.specs.Drilling.{CountsDrill, one_if, tells_commit, tells_conflict, tells_push};

use crate::play::{Listener, play};
use load_gen::{MOST_CALLS, script_of};
use report::{Counts, Line, Prefix, Said};
use sp_base::Memory;
use std::alloc::Global;

/// Counts hear of a call that committed, met a conflict or was pushed to its client.
impl Listener for Counts {
    ghost use Rattle.splinter.specs.Drilling.{counted};

    ghost heard = { λ counts answer. counted counts answer.1 };

    fn hear(&mut self, _alloc: Global, _prefix: Prefix, line: &Line) -> Result<(), Memory> {
        let (committed, conflict, pushed) = (
            tells_commit(line),
            tells_conflict(line),
            tells_push(line),
        );
        self.committed = one_more_if(self.committed, committed)?;
        self.conflict = one_more_if(self.conflict, conflict)?;
        self.pushed = one_more_if(self.pushed, pushed)?;
        Ok(())
    }
}

/// The counts of a drill, by its play.
pub fn counts_of_drill(alloc: Global, count: u32, seed: u64) -> Result<Counts, Memory>
    requires { count ≤ MOST_CALLS }
    ensures { IfOk result (λ counts. CountsDrill count seed counts) }
{
    let script = script_of(alloc, count, seed)?;
    let mut counts = Counts {
        calls: u64::from(count),
        committed: 0,
        conflict: 0,
        pushed: 0,
        journal: 0,
    };
    let sim = play(alloc, script, &mut counts)?;
    counts.journal = sim.book().len();
    Ok(counts)
}

/// One more, where this is so. A count that does not fit its 64 bits, which no drill comes to, finds no memory.
fn one_more_if(count: u64, more: bool) -> Result<u64, Memory>
    ensures { IfOk result (λ after. after ≡ one_if more count) }
{
    if more {
        count.checked_add(1).ok_or(Memory)
    } else {
        Ok(count)
    }
}

/// Whether a line tells of a call that committed.
fn tells_commit(line: &Line) -> bool
    ensures { result ≡ tells_commit line.now }
{
    match line {
        Line::Of {
            said: Said::Committed { .. },
            ..
        } => true,
        _ => false,
    }
}

/// Whether a line tells of a conflict.
fn tells_conflict(line: &Line) -> bool
    ensures { result ≡ tells_conflict line.now }
{
    match line {
        Line::Of {
            said: Said::Conflict { .. },
            ..
        } => true,
        _ => false,
    }
}

/// Whether a line tells of a call that was pushed to its client.
fn tells_push(line: &Line) -> bool
    ensures { result ≡ tells_push line.now }
{
    match line {
        Line::Of {
            said: Said::Read { pushed, .. } | Said::On { pushed, .. },
            ..
        } => *pushed,
        _ => false,
    }
}
