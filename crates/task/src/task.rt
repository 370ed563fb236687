//! Tasks: calls that run in turns, each of which resumes the machine.

ghost use Rattle.std.specs.Prelude.{◌≡◌, ◌≢◌, ◌<◌, IfOk, IfErr, OnOk, OnErr};
ghost use Rattle.std.specs.Arc.{arc_value};
ghost use Rattle.ext_mean.specs.declared.run.Run.TheVariants as meant;
ghost use Rattle.sp_base.specs.Spelling.{FitsOpt};
ghost use Rattle.gen_code.specs.Does.{Does};
ghost use Rattle.gen_vm.specs.Running as running;
ghost use Rattle.gen_vm.specs.Standing.{Stands};
ghost use Rattle.task.specs.Following.{phase_of};
ghost use Rattle.task.specs.Laws.{MayBegin};
ghost use Rattle.task.specs.Tasks.{HasEnded, IsTask, told_of};
ghost use Rattle.task.specs.Turning.{begun, given, meaning_with, turn_of, units_of_turn};

use crate::ext::Ext;
use crate::phase::Phase;
use crate::turned::Turned;
use ext_mean::Program;
use gen_code::Code;
use gen_vm::{Gen, Paused};
use rw_set::{Finished, ReadSet};
use sp_base::{Blob, Call, Memory, Outcome, ReadItem, Rights, Writes};
use std::alloc::Global;
use std::marker::Model;
use std::sync::Arc;

/// A call that is run in turns, and pauses where it wants a record. Contracts see the live call.
#[derive(Drop)]
pub struct Task {
    alloc: Global,
    call: Call,
    ext: Arc<Ext>,
    /// The program of the extension, so that a run that has ended has it without memory.
    program: Arc<Program>,
    code: Arc<Code>,
    rights: Rights,
    reads: ReadSet,
    spent: u32,
    /// The run of the code. Where a turn found no memory, it may stand behind the units spent.
    run: Gen,
    /// Whether the call was ended because its budget is spent.
    killed: bool,
}

impl Model for Task {
    ghost use Rattle.std.specs.Prelude.{◌≡◌};
    ghost use Rattle.std.specs.Arc.{arc_value};
    ghost use Rattle.std.specs.Coded.{codes};
    ghost use Rattle.ext_mean.specs.contracts.statement.Block as block;
    ghost use Rattle.task.specs.Following.{Follows, live_of};
    ghost use Rattle.task.specs.Tasks.{IsTask};
    ghost use Rattle.task.specs.Turning.{Live};

    ghost Value = { Live };

    ghost coded = { Prim.hlevel (codes, block.the_row.coded) };

    ghost view = { λ t. live_of t.call (arc_value t.ext) t.rights t.reads t.spent t.killed t.run };

    ghost invariant = { λ t.
        IsTask (live_of t.call (arc_value t.ext) t.rights t.reads t.spent t.killed t.run)
        × (arc_value t.program ≡ (arc_value t.ext).program)
        × Follows (arc_value t.code) (live_of t.call (arc_value t.ext) t.rights t.reads t.spent t.killed t.run) t.run };
}

/// What a call that begins has of its extension, and the run of its code.
fn beginning(
    alloc: Global,
    call: &Call,
    ext: &Ext,
    rights: &Rights,
) -> Result<(Arc<Program>, Arc<Code>, Gen), Memory>
    ensures program { IfOk result (λ parts. arc_value parts.0 ≡ ext.now.program) }
    ensures does { IfOk result (λ parts. Does (arc_value parts.1) ext.now.program) }
    ensures run { IfOk result (λ parts. parts.2 ≡ running.begun (arc_value parts.1) call.now.args call.now.budget rights.now) }
    ensures stands { IfOk result (λ parts. Stands (arc_value parts.1) parts.2) }
{
    let program = ext.program_shared()?;
    let code = ext.code_shared()?;
    let args = call.args.share(alloc)?;
    let rights = rights.share(alloc)?;
    let run = Gen::start(alloc, &code, args, call.budget, rights)?;
    Ok((program, code, run))
}

/// An equal value.
fn share_value(alloc: Global, value: &Option<Blob>) -> Result<Option<Blob>, Memory>
    ensures { IfOk result (λ copy. copy ≡ value.now) }
{
    match value {
        Some(bytes) => Ok(Some(bytes.share(alloc)?)),
        None => Ok(None),
    }
}

/// How a call ended: killed, or as its run did.
fn ended(alloc: Global, run: Gen, killed: bool) -> (Outcome, Writes)
    requires { HasEnded (phase_of killed run.phase) }
    ensures { phase_of killed run.phase ≡ Phase.Ended result.0 result.1 }
{
    if killed {
        (Outcome::Killed, Writes::new(alloc))
    } else {
        run.outcome()
    }
}

impl Task {
    /// The call, with nothing read and nothing spent. Without memory it comes back.
    pub fn begin(
        alloc: Global,
        call: Call,
        ext: Arc<Ext>,
        rights: Rights,
    ) -> Result<Task, (Memory, Call)>
        requires { MayBegin call }
        ensures ok { IfOk result (λ task. task ≡ begun call (arc_value ext) rights) }
        ensures back { IfErr result (λ refused. refused.1 ≡ call) }
    {
        match beginning(alloc, &call, &ext, &rights) {
            Ok((program, code, run)) => Ok(Task {
                alloc,
                call,
                ext,
                program,
                code,
                rights,
                reads: ReadSet::new(alloc),
                spent: 0,
                run,
                killed: false,
            }),
            Err(Memory) => Err((Memory, call)),
        }
    }

    /// One turn of a task that is ready, with a quantum of units. Want of memory leaves the task as
    /// it was.
    pub fn turn(&mut self, quantum: u32) -> Turned
        requires ready { self.old.phase ≡ Phase.Ready }
        requires some { 0 < quantum }
        ensures turn { result ≢ Turned.Memory → self.new ≡ turn_of self.old quantum }
        ensures told { result ≢ Turned.Memory → result ≡ told_of self.new.phase }
        ensures memory { result ≡ Turned.Memory → self.new ≡ self.old }
    {
        let units = self.units(quantum);
        if units < self.run.used() {
            return self.run_out(quantum, units);
        }
        match self.run.resume(&self.code, units) {
            Paused::Wants { table, key } => {
                self.spent = self.run.used();
                Turned::Wants { table, key }
            }
            Paused::Out => self.run_out(quantum, units),
            Paused::Ended => Turned::Ended,
            Paused::Memory => Turned::Memory,
        }
    }

    /// The units of a turn: a quantum more than were spent, and never more than the budget.
    fn units(&self, quantum: u32) -> u32
        ensures { result ≡ units_of_turn self.now quantum }
    {
        let left = self.call.budget - self.spent;
        self.spent + quantum.min(left)
    }

    /// The units of a turn are spent: those of a quantum, or all of the budget.
    fn run_out(&mut self, quantum: u32, units: u32) -> Turned
        requires ready { self.old.phase ≡ Phase.Ready }
        requires units { units ≡ units_of_turn self.old quantum }
        requires spent { meaning_with self.old units ≡ meant.Spent }
        ensures turn { self.new ≡ turn_of self.old quantum }
        ensures told { result ≡ told_of self.new.phase }
    {
        if units < self.call.budget {
            self.spent = units;
            Turned::Ran
        } else {
            self.killed = true;
            Turned::Ended
        }
    }

    /// The record that the task waits for. Without memory it comes back, and the task waits still.
    pub fn give(&mut self, item: ReadItem) -> Result<(), (Memory, ReadItem)>
        requires wanted { self.old.phase ≡ Phase.Waiting item.table item.key }
        requires value { FitsOpt item.value }
        ensures ok { OnOk result (self.new ≡ given self.old item) }
        ensures err { OnErr result (self.new ≡ self.old) }
        ensures back { IfErr result (λ refused. refused.1 ≡ item) }
    {
        let value = match share_value(self.alloc, &item.value) {
            Ok(value) => value,
            Err(Memory) => return Err((Memory, item)),
        };
        self.reads.add(item)?;
        self.run.feed(value);
        Ok(())
    }

    /// What the call has read, in order.
    pub fn reads(&self) -> &ReadSet
        ensures { result.now ≡ self.now.reads }
    {
        &self.reads
    }

    /// The units that the call has spent: at least 16 for each read, and never more than its budget.
    pub fn spent(&self) -> u32
        ensures spent { result ≡ self.now.spent }
        ensures kept { IsTask self.now }
    {
        self.spent
    }

    pub fn call(&self) -> &Call
        ensures { result.now ≡ self.now.call }
    {
        &self.call
    }

    /// The extension that the call runs.
    pub fn ext(&self) -> &Ext
        ensures { result.now ≡ self.now.ext }
    {
        &self.ext
    }

    /// The call, its extension and what it has read, without the run.
    pub(crate) fn into_parts(self) -> (Call, Arc<Ext>, ReadSet)
        ensures call { result.0 ≡ self.call }
        ensures ext { arc_value result.1 ≡ self.ext }
        ensures reads { result.2 ≡ self.reads }
    {
        let Task {
            call,
            ext,
            reads,
            ..
        } = self;
        (call, ext, reads)
    }

    /// The run that has ended, with exactly the parts of the task.
    pub fn finish(self) -> Finished
        requires { HasEnded self.phase }
        ensures call { result.call ≡ self.call }
        ensures program { arc_value result.program ≡ self.ext.program }
        ensures rights { result.rights ≡ self.rights }
        ensures reads { result.reads ≡ self.reads }
        ensures ended { self.phase ≡ Phase.Ended result.outcome result.writes }
    {
        let Task {
            alloc,
            call,
            program,
            rights,
            reads,
            run,
            killed,
            ..
        } = self;
        let (outcome, writes) = ended(alloc, run, killed);
        Finished {
            call,
            program,
            rights,
            reads,
            outcome,
            writes,
        }
    }
}
