//! The play of a script, for whoever listens to its answers.

ghost use Rattle.std.specs.Prelude.{◌≡◌, ◌<◌, IsTrue, IfOk, OnOk};
ghost use Rattle.std.specs.List.{AllByRecursion};
ghost use Rattle.sched_text.specs.Fits.{IsScript};
ghost use Rattle.sim.specs.Play.{Answer};
ghost use Rattle.sim.specs.Standing.{FitsEvent, Stands, StandsAt, units_left, workers_of};
ghost use Rattle.sim.specs.State.{SimState};
ghost use Rattle.splinter.specs.Playing.{TellsBody, TellsDrain, TellsEvent, TellsPlay, TellsStep};

use report::{Line, Prefix};
use sched_text::{Event, Rows, Script};
use sim::Sim;
use sp_base::Memory;
use std::alloc::Global;

/// What listens to the answers of a play.
pub trait Listener {
    /// What it is once it has heard one more answer.
    ghost heard: { Self → Answer → Self };

    /// Hears one more answer.
    fn hear(&mut self, alloc: Global, prefix: Prefix, line: &Line) -> Result<(), Memory>
        ensures { OnOk result (self.new ≡ heard self.old (prefix, line.now)) };
}

/// Plays a script to its end, and tells its answers to the listener one after another.
pub fn play<L: Listener>(alloc: Global, script: Script, listener: &mut L) -> Result<Sim, Memory>
    requires { IsScript script }
    ensures { IfOk result (λ sim. TellsPlay L.heard script sim listener.old listener.new) }
{
    let Script { head, events } = script;
    let mut sim = Sim::new(alloc, head)?;
    play_body(alloc, listener, &mut sim, events)?;
    play_drain(alloc, listener, &mut sim)?;
    Ok(sim)
}

/// Plays the events.
fn play_body<L: Listener>(
    alloc: Global,
    listener: &mut L,
    sim: &mut Sim,
    events: Rows<(u32, Event)>,
) -> Result<(), Memory>
    requires stands { Stands sim.old }
    requires fits { AllByRecursion (λ row. FitsEvent (workers_of sim.old) row.1) events }
    ensures { OnOk result ((state : SimState) → StandsAt sim.old state
        → TellsBody L.heard state sim.new events listener.old listener.new) }
{
    for (line, event) in events.into_vec() {
        play_event(alloc, listener, sim, line, event)?;
    }
    Ok(())
}

/// Plays the event of this line.
fn play_event<L: Listener>(
    alloc: Global,
    listener: &mut L,
    sim: &mut Sim,
    line: u32,
    event: Event,
) -> Result<(), Memory>
    requires stands { Stands sim.old }
    requires fits { FitsEvent (workers_of sim.old) event }
    ensures told { OnOk result (TellsEvent L.heard sim.old sim.new line event listener.old listener.new) }
    ensures workers { OnOk result (workers_of sim.new ≡ workers_of sim.old) }
{
    let answer = sim.step(event)?;
    listener.hear(alloc, Prefix::At(line), &answer)
}

/// Plays the drain.
fn play_drain<L: Listener>(alloc: Global, listener: &mut L, sim: &mut Sim) -> Result<(), Memory>
    requires { Stands sim.old }
    ensures { OnOk result ((state : SimState) → StandsAt sim.old state
        → TellsDrain L.heard state sim.new listener.old listener.new) }
{
    'steps: while play_step(alloc, listener, sim)? {}
    Ok(())
}

/// Plays the next event of the drain. False where none is left.
fn play_step<L: Listener>(alloc: Global, listener: &mut L, sim: &mut Sim) -> Result<bool, Memory>
    requires { Stands sim.old }
    ensures told { IfOk result (λ more. TellsStep L.heard more sim.old sim.new listener.old listener.new) }
    ensures falls { IfOk result (λ more. IsTrue more → units_left sim.new < units_left sim.old) }
{
    match sim.next_drain()? {
        Some(answer) => {
            listener.hear(alloc, Prefix::Drain, &answer)?;
            Ok(true)
        }
        None => Ok(false),
    }
}
