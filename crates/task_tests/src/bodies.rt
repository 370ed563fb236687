//! The two bodies of a task, so that one run serves both.

ghost use Rattle.std.specs.Prelude.{◌≡◌, ◌≢◌, ◌<◌, IfOk};
ghost use Rattle.sp_base.specs.Spelling.{FitsOpt};
ghost use Rattle.task.specs.declared.phase.Phase.TheVariants.{Ready, Waiting};
ghost use Rattle.task.specs.declared.turned.Turned.TheVariants as turned;
ghost use Rattle.task.specs.Laws.{MayBegin};
ghost use Rattle.task.specs.Tasks.{HasEnded, told_of};
ghost use Rattle.task.specs.Turning.{Live};

use rw_set::Finished;
use sp_base::{Call, ReadItem, Rights};
use std::alloc::Global;
use std::sync::Arc;
use std::test::Fail;
use task::{Ext, PlainTask, Task, Turned};

/// A task, whatever runs its turns. Its calls are those of `Task`, and want of memory is a failure.
pub trait Body: Sized + Drop {
    ghost live: { Self → Live };

    fn start(alloc: Global, call: Call, ext: Arc<Ext>, rights: Rights) -> Result<Self, Fail>
        requires { MayBegin call }
        ensures { IfOk result (λ body. (live body).phase ≡ Ready) };

    fn pass(&mut self, quantum: u32) -> Turned
        requires ready { (live self.old).phase ≡ Ready }
        requires some { 0 < quantum }
        ensures { result ≢ turned.Memory → result ≡ told_of (live self.new).phase };

    fn feed(&mut self, item: ReadItem) -> Result<(), Fail>
        requires wanted { (live self.old).phase ≡ Waiting item.table item.key }
        requires value { FitsOpt item.value }
        ensures { IfOk result (λ _. (live self.new).phase ≡ Ready) };

    fn units(&self) -> u32;

    fn end(self) -> Finished
        requires { HasEnded (live self).phase };
}

impl Body for Task {
    ghost live = { λ task. task };

    fn start(alloc: Global, call: Call, ext: Arc<Ext>, rights: Rights) -> Result<Task, Fail> {
        match Task::begin(alloc, call, ext, rights) {
            Ok(task) => Ok(task),
            Err(_) => Err(Fail::new("memory")),
        }
    }

    fn pass(&mut self, quantum: u32) -> Turned {
        self.turn(quantum)
    }

    fn feed(&mut self, item: ReadItem) -> Result<(), Fail> {
        match self.give(item) {
            Ok(()) => Ok(()),
            Err(_) => Err(Fail::new("memory")),
        }
    }

    fn units(&self) -> u32 {
        self.spent()
    }

    fn end(self) -> Finished {
        self.finish()
    }
}

impl Body for PlainTask {
    ghost live = { λ task. task };

    fn start(alloc: Global, call: Call, ext: Arc<Ext>, rights: Rights) -> Result<PlainTask, Fail> {
        match PlainTask::begin(alloc, call, ext, rights) {
            Ok(task) => Ok(task),
            Err(_) => Err(Fail::new("memory")),
        }
    }

    fn pass(&mut self, quantum: u32) -> Turned {
        self.turn(quantum)
    }

    fn feed(&mut self, item: ReadItem) -> Result<(), Fail> {
        match self.give(item) {
            Ok(()) => Ok(()),
            Err(_) => Err(Fail::new("memory")),
        }
    }

    fn units(&self) -> u32 {
        self.spent()
    }

    fn end(self) -> Finished {
        self.finish()
    }
}
