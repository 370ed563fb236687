//! Tasks with the plain body, beside the tasks that run a machine.

ghost use Rattle.std.specs.Prelude.{◌≡◌, ◌≢◌, ◌≤◌, ◌<◌, [], IfOk, IfErr, OnOk, OnErr};
ghost use Rattle.std.specs.Arc.{arc_value};
ghost use Rattle.ext_mean.specs.Outcomes.{EndsWith};
ghost use Rattle.sp_base.specs.Spelling.{FitsOpt};
ghost use Rattle.task.specs.Laws.{MayBegin};
ghost use Rattle.task.specs.Tasks.{HasEnded, IsTask, told_of};
ghost use Rattle.task.specs.Turning.{begun, ending, given, meaning_with, spending, turn_of, units_of_turn, waiting};

use crate::ext::Ext;
use crate::phase::Phase;
use crate::turned::Turned;
use ext_eval::eval;
use ext_mean::{Program, Run};
use rw_set::{Finished, ReadSet};
use sp_base::{Call, Key, Memory, Outcome, ReadItem, Rights, TableId, Writes};
use std::alloc::Global;
use std::marker::Model;
use std::sync::Arc;

/// A call that is run in turns by the plain evaluator, which begins anew at each turn. Its calls promise,
/// word for word, what those of `Task` do, whose turns resume a machine; tests run both. Contracts see the
/// live call.
#[derive(Drop)]
pub struct PlainTask {
    alloc: Global,
    call: Call,
    ext: Arc<Ext>,
    /// The program of the extension, so that a run that has ended has it without memory.
    program: Arc<Program>,
    rights: Rights,
    reads: ReadSet,
    spent: u32,
    phase: Phase,
}

impl Model for PlainTask {
    ghost use Rattle.std.specs.Prelude.{◌≡◌};
    ghost use Rattle.std.specs.Arc.{arc_value};
    ghost use Rattle.std.specs.Coded.{codes};
    ghost use Rattle.ext_mean.specs.contracts.statement.Block as block;
    ghost use Rattle.task.specs.Tasks.{IsTask};
    ghost use Rattle.task.specs.Turning.{Live};

    ghost Value = { Live };

    ghost coded = { Prim.hlevel (codes, block.the_row.coded) };

    ghost view = { λ t. record { call = t.call; ext = arc_value t.ext; rights = t.rights; reads = t.reads; spent = t.spent; phase = t.phase } };

    ghost invariant = { λ t.
        IsTask (record { call = t.call; ext = arc_value t.ext; rights = t.rights; reads = t.reads; spent = t.spent; phase = t.phase })
        × (arc_value t.program ≡ (arc_value t.ext).program) };
}

impl PlainTask {
    /// The call, with nothing read and nothing spent. Without memory it comes back.
    pub fn begin(
        alloc: Global,
        call: Call,
        ext: Arc<Ext>,
        rights: Rights,
    ) -> Result<PlainTask, (Memory, Call)>
        requires { MayBegin call }
        ensures ok { IfOk result (λ task. task ≡ begun call (arc_value ext) rights) }
        ensures back { IfErr result (λ refused. refused.1 ≡ call) }
    {
        match ext.program_shared() {
            Ok(program) => Ok(PlainTask {
                alloc,
                call,
                ext,
                program,
                rights,
                reads: ReadSet::new(alloc),
                spent: 0,
                phase: Phase::Ready,
            }),
            Err(Memory) => Err((Memory, call)),
        }
    }

    /// One turn of a task that is ready, with a quantum of units. Want of memory leaves the task as
    /// it was.
    pub fn turn(&mut self, quantum: u32) -> Turned
        requires ready { self.old.phase ≡ Phase.Ready }
        requires some { 0 < quantum }
        ensures turn { result ≢ Turned.Memory → self.new ≡ turn_of self.old quantum }
        ensures told { result ≢ Turned.Memory → result ≡ told_of self.new.phase }
        ensures memory { result ≡ Turned.Memory → self.new ≡ self.old }
    {
        let units = self.units(quantum);
        let run = match self.meaning(units) {
            Ok(run) => run,
            Err(Memory) => return Turned::Memory,
        };
        match run {
            Run::Wants { table, key, used } => self.wait(table, key, used),
            Run::Spent => self.run_out(quantum, units),
            Run::Trapped { trap, .. } => {
                let none = Writes::new(self.alloc);
                self.end(Outcome::Trapped(trap), none)
            }
            Run::Done { reply, writes, .. } => self.end(Outcome::Done(reply), writes),
        }
    }

    /// The units of a turn: a quantum more than were spent, and never more than the budget.
    fn units(&self, quantum: u32) -> u32
        ensures { result ≡ units_of_turn self.now quantum }
    {
        let left = self.call.budget - self.spent;
        self.spent + quantum.min(left)
    }

    /// What the program means with so many units on what was read.
    fn meaning(&self, units: u32) -> Result<Run, Memory>
        ensures { IfOk result (λ run. run ≡ meaning_with self.now units) }
    {
        let args = self.call.args.bytes();
        let reads = self.reads.items();
        eval(self.alloc, &self.program, args, units, &self.rights, reads)
    }

    /// The run wants a record.
    fn wait(&mut self, table: TableId, key: Key, used: u32) -> Turned
        requires { IsTask (waiting self.old table key used) }
        ensures turn { result ≢ Turned.Memory → self.new ≡ waiting self.old table key used }
        ensures told { result ≢ Turned.Memory → result ≡ told_of self.new.phase }
        ensures memory { result ≡ Turned.Memory → self.new ≡ self.old }
    {
        let wanted = match key.share(self.alloc) {
            Ok(wanted) => wanted,
            Err(Memory) => return Turned::Memory,
        };
        self.spent = used;
        self.phase = Phase::Waiting { table, key };
        Turned::Wants { table, key: wanted }
    }

    /// The units of a turn are spent: those of a quantum, or all of the budget.
    fn run_out(&mut self, quantum: u32, units: u32) -> Turned
        requires ready { self.old.phase ≡ Phase.Ready }
        requires units { units ≡ units_of_turn self.old quantum }
        requires spent { meaning_with self.old units ≡ Run.Spent }
        ensures turn { self.new ≡ turn_of self.old quantum }
        ensures told { result ≡ told_of self.new.phase }
    {
        if units < self.call.budget {
            self.spent = units;
            Turned::Ran
        } else {
            let none = Writes::new(self.alloc);
            self.end(Outcome::Killed, none)
        }
    }

    /// The run has ended.
    fn end(&mut self, outcome: Outcome, writes: Writes) -> Turned
        requires { EndsWith (meaning_with self.old self.old.call.budget) outcome writes }
        ensures turn { self.new ≡ ending self.old outcome writes }
        ensures told { result ≡ Turned.Ended }
    {
        self.phase = Phase::Ended { outcome, writes };
        Turned::Ended
    }

    /// The record that the task waits for. Without memory it comes back, and the task waits still.
    pub fn give(&mut self, item: ReadItem) -> Result<(), (Memory, ReadItem)>
        requires wanted { self.old.phase ≡ Phase.Waiting item.table item.key }
        requires value { FitsOpt item.value }
        ensures ok { OnOk result (self.new ≡ given self.old item) }
        ensures err { OnErr result (self.new ≡ self.old) }
        ensures back { IfErr result (λ refused. refused.1 ≡ item) }
    {
        self.reads.add(item)?;
        self.phase = Phase::Ready;
        Ok(())
    }

    /// The units that the call has spent: at least 16 for each read, and never more than its budget.
    pub fn spent(&self) -> u32
        ensures spent { result ≡ self.now.spent }
        ensures kept { IsTask self.now }
    {
        self.spent
    }

    /// The run that has ended, with exactly the parts of the task.
    pub fn finish(self) -> Finished
        requires { HasEnded self.phase }
        ensures call { result.call ≡ self.call }
        ensures program { arc_value result.program ≡ self.ext.program }
        ensures rights { result.rights ≡ self.rights }
        ensures reads { result.reads ≡ self.reads }
        ensures ended { self.phase ≡ Phase.Ended result.outcome result.writes }
    {
        let PlainTask {
            call,
            program,
            rights,
            reads,
            phase,
            ..
        } = self;
        match phase {
            Phase::Ended { outcome, writes } => Finished {
                call,
                program,
                rights,
                reads,
                outcome,
                writes,
            },
            Phase::Ready | Phase::Waiting { .. } => unreachable!(),
        }
    }
}
