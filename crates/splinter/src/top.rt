//! The top call: it takes the program's words, and runs the command that they name.

ghost use Rattle.std.specs.Prelude.{◌≡◌, ◌↔◌, ◌+◌, ℕ, IfSome};
ghost use Rattle.sp_outside.specs.Reading.{TookUpTo};
ghost use Rattle.splinter.specs.Checks.{Checks, JudgesText};
ghost use Rattle.splinter.specs.Ending.{Causes, WritesNothing};
ghost use Rattle.splinter.specs.Running.{JudgesScript, Runs};
ghost use Rattle.splinter.specs.Drilling.{Drills, HasPlay};
ghost use Rattle.splinter.specs.Naming.{NamesOnly};
ghost use Rattle.words.specs.Words.{AreCheck, AreDrill, AreRun};

use crate::check::check_command;
use crate::drill::drill_command;
use crate::run::run_command;
use crate::status::Status;
use sp_base::{MOST_SCRIPT, MOST_TEXT};
use sp_outside::{Sink, Source};
use std::alloc::Global;
use words::{Command, read_words};

/// Runs the command that the words name: `check`, `run` or `drill`.
pub fn splinter<R, S: Source, K: Sink>(
    _rt: &R,
    alloc: Global,
    words: &[String],
    source: &mut S,
    sink: &mut K,
) -> Status
    // The words are no command.
    ensures usage { result ≡ Status.Usage ↔ ((AreRun words.now → ⊥) × (AreCheck words.now → ⊥)
        × ((count seed : ℕ) → AreDrill count seed words.now → ⊥)) }
    ensures untouched { result ≡ Status.Usage → (source.new ≡ source.old) × (sink.new ≡ sink.old) }
    // What is written, where source and sink tell their content.
    ensures told { AreRun words.now → IfSome (S.left source.old) (λ input. IfSome (K.held sink.old) (λ held.
        Runs result input held (S.left source.new) (K.held sink.new))) }
    ensures checked { AreCheck words.now → IfSome (S.left source.old) (λ input. IfSome (K.held sink.old) (λ held.
        Checks result input held (S.left source.new) (K.held sink.new))) }
    ensures drilled { (count seed : ℕ) → AreDrill count seed words.now → IfSome (K.held sink.old) (λ held.
        Drills result count seed held (K.held sink.new)) }
    // What the status tells of the input, where the source alone tells its content, and of a drill.
    ensures run_judged { AreRun words.now → IfSome (S.left source.old) (λ input. JudgesScript result input) }
    ensures check_judged { AreCheck words.now → IfSome (S.left source.old) (λ input. JudgesText result input) }
    ensures drill_played { (count seed : ℕ) → AreDrill count seed words.now → HasPlay result count seed }
    // At most one byte more is read than a script or a text may have.
    ensures run_taken { AreRun words.now → IfSome (S.left source.old) (λ input.
        TookUpTo (MOST_SCRIPT + 1) input (S.left source.new)) }
    ensures check_taken { AreCheck words.now → IfSome (S.left source.old) (λ input.
        TookUpTo (MOST_TEXT + 1) input (S.left source.new)) }
    ensures drill_unread { (count seed : ℕ) → AreDrill count seed words.now → source.new ≡ source.old }
    // Why it stopped. Where no fault was counted `run` ends Ok or Script, `check` Ok or Refused and `drill`
    // Ok, or each for want of memory.
    ensures causes { Causes result (S.faults source.old) (S.faults source.new) (K.faults sink.old) (K.faults sink.new) }
    ensures refused { result ≡ Status.Refused → AreCheck words.now }
    ensures script { result ≡ Status.Script → AreRun words.now }
    ensures nothing { WritesNothing result sink.old sink.new }
{
    match command_of(alloc, words) {
        Some(Command::Run) => run_command(alloc, source, sink),
        Some(Command::Check) => check_command(alloc, source, sink),
        Some(Command::Drill { count, seed }) => drill_command(alloc, count, seed, sink),
        None => Status::Usage,
    }
}

/// The command that the words name, if they name one.
fn command_of(alloc: Global, words: &[String]) -> Option<Command>
    ensures { NamesOnly result words.now }
{
    read_words(alloc, words)
}
