//! One turn of the first call of a worker.

ghost use Rattle.std.specs.Prelude.{◌≡◌, ◌≢◌, ◌≤◌, ◌<◌, IfOk, OnOk, List, []};
ghost use Rattle.journal.specs.declared.entry.Entry.{Entry};
ghost use Rattle.book.specs.Standing.{RanOn, StandsFor};
ghost use Rattle.task.specs.declared.phase.Phase.TheVariants as phase;
ghost use Rattle.task.specs.Tasks.{HasEnded};
ghost use Rattle.report.specs.declared.line.Said.TheVariants as told;
ghost use Rattle.sim.specs.Play.{commit_said, goes_away, of_call, turn_event};
ghost use Rattle.sim.specs.Standing.{Ends, GoesOn, IsPlaced, MayBePushed, ReadsOn, Stands, Tells, units_left, workers_of};
ghost use Rattle.sim.specs.State.{queue_of};

use crate::sim::Sim;
use book::{Commit, Read};
use clients::PushedCall;
use parked::place;
use report::{Line, Said};
use sp_base::{Call, Key, Memory, TableId};
use task::{Task, Turned};

impl Sim {
    /// The first call of a worker has a turn.
    pub(crate) fn turn(&mut self, worker: u32, quantum: u32) -> Result<Line, Memory>
        requires stands { Stands self.old }
        requires worker { worker < workers_of self.old }
        requires quantum { 0 < quantum }
        ensures told { IfOk result (Tells self.old self.new (λ state. turn_event state worker quantum)) }
        ensures workers { OnOk result (workers_of self.new ≡ workers_of self.old) }
        ensures falls { OnOk result (queue_of self.old.queues worker ≢ [] → units_left self.new < units_left self.old) }
    {
        let load = self.queues.load();
        let Some(mut task) = self.queues.take(worker) else {
            return Ok(Line::Idle);
        };
        let _kept = task.spent();
        match task.turn(quantum) {
            Turned::Ran => self.go_on(worker, load, task),
            Turned::Wants { table, key } => self.read(worker, load, task, table, key),
            Turned::Ended => self.end(task),
            Turned::Memory => Err(Memory),
        }
    }

    /// The call has spent its quantum, and goes on.
    fn go_on(&mut self, worker: u32, load: u32, task: Task) -> Result<Line, Memory>
        requires worker { worker < workers_of self.old }
        requires may { MayBePushed self.old task }
        ensures { IfOk result (GoesOn self.old self.new load worker task (told.On task.spent)) }
    {
        let pushed = self.goes_away(load, &task);
        let said = Said::On {
            spent: task.spent(),
            pushed,
        };
        let line = line_of(task.call(), said);
        self.place(worker, task, pushed)?;
        Ok(line)
    }

    /// The record that the call waits for joins its reads, and it goes on.
    fn read(
        &mut self,
        worker: u32,
        load: u32,
        mut task: Task,
        table: TableId,
        key: Key,
    ) -> Result<Line, Memory>
        requires worker { worker < workers_of self.old }
        requires may { MayBePushed self.old task }
        requires waits { task.phase ≡ phase.Waiting table key }
        requires stands { (journal : List Entry) × StandsFor self.old.book journal }
        requires ran { (journal : List Entry) → StandsFor self.old.book journal
            → RanOn self.old.book.grants journal task.call task.ext.program task.rights task.reads }
        ensures { IfOk result (ReadsOn self.old self.new load worker task table key) }
    {
        let item = match self.book.read(task.call().caller.tenant, table, &key) {
            Read::Found(item) => item,
            Read::Memory => return Err(Memory),
            Read::Denied => unreachable!(),
        };
        let version = item.version;
        let Ok(()) = task.give(item) else {
            return Err(Memory);
        };
        let pushed = self.goes_away(load, &task);
        let said = Said::Read {
            table,
            key,
            version,
            pushed,
        };
        let line = line_of(task.call(), said);
        self.place(worker, task, pushed)?;
        Ok(line)
    }

    /// Whether a call that goes on is pushed to its client, at this load.
    fn goes_away(&self, load: u32, task: &Task) -> bool
        ensures { result ≡ goes_away self.now.policy load task.now }
    {
        let bytes = task.reads().weight();
        place(self.policy, load, task.spent(), bytes, task.call().push_ok)
    }

    /// A call that goes on joins the pushed calls, or the back of its worker's queue.
    fn place(&mut self, worker: u32, task: Task, pushed: bool) -> Result<(), Memory>
        requires worker { worker < workers_of self.old }
        requires may { MayBePushed self.old task }
        ensures { OnOk result (IsPlaced self.old self.new worker task pushed) }
    {
        if pushed {
            let rights = self.book.rights(task.call().caller.tenant)?;
            let call = PushedCall::of(self.alloc, task, rights)?;
            self.pushed.push(call)
        } else {
            self.queues.put(worker, task)
        }
    }

    /// The call has ended, and is committed or refused by what it has read.
    fn end(&mut self, task: Task) -> Result<Line, Memory>
        requires ended { HasEnded task.phase }
        requires ran { (journal : List Entry) → StandsFor self.old.book journal
            → RanOn self.old.book.grants journal task.call task.ext.program task.rights task.reads }
        ensures { IfOk result (Ends self.old self.new task) }
    {
        let done = task.finish();
        let caller = done.call.caller;
        let number = done.call.number;
        let said = said(self.book.commit(done))?;
        self.callers.remove(caller);
        Ok(Line::Of {
            caller,
            number,
            said,
            away: false,
        })
    }
}

/// What is said of a call.
pub(crate) fn line_of(call: &Call, said: Said) -> Line
    ensures { result ≡ of_call call.now said }
{
    Line::Of {
        caller: call.caller,
        number: call.number,
        said,
        away: false,
    }
}

/// How a commit is told.
pub(crate) fn said(commit: Commit) -> Result<Said, Memory>
    ensures said { IfOk result (λ said. said ≡ commit_said commit) }
    ensures memory { IfOk result (λ _. commit ≢ Commit.Memory) }
{
    match commit {
        Commit::Committed { n, outcome } => Ok(Said::Committed { n, outcome }),
        Commit::Stale { last, .. } => Ok(Said::Stale { last }),
        Commit::Conflict {
            table,
            key,
            read,
            now,
            ..
        } => Ok(Said::Conflict {
            table,
            key,
            read,
            now,
        }),
        Commit::Full { .. } => Ok(Said::Full),
        Commit::Memory => Err(Memory),
    }
}
