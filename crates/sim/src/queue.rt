ghost use Rattle.std.specs.Prelude.{◌≡◌, ◌↔◌, IsTrue, [], ◌∷◌, ◌++◌, OnErr, OnOk, MatchOption};

use sp_base::Memory;
use std::alloc::Global;
use std::collections::VecDeque;
use std::marker::Model;
use task::Task;

/// The live calls of one worker, the next to turn in front. Contracts see their list.
#[derive(Drop)]
pub struct Queue {
    tasks: VecDeque<Task>,
}

impl Model for Queue {
    ghost use Rattle.std.specs.Prelude.{List};
    ghost use Rattle.std.specs.Coded.{codes};
    ghost use Rattle.ext_mean.specs.contracts.statement.Block as block;
    ghost use Rattle.task.specs.Turning.{Live};

    ghost Value = { List Live };

    ghost coded = { Prim.hlevel (codes, block.the_row.coded) };

    ghost view = { λ q. q.tasks.items };
}

impl Queue {
    pub fn new(alloc: Global) -> Queue
        ensures { result ≡ [] }
    {
        Queue {
            tasks: VecDeque::new(alloc),
        }
    }

    pub fn is_empty(&self) -> bool
        ensures { IsTrue result ↔ (self.now ≡ []) }
    {
        self.tasks.is_empty()
    }

    /// The first call, which leaves the queue.
    pub fn pop(&mut self) -> Option<Task>
        ensures { MatchOption result ((self.old ≡ []) × (self.new ≡ [])) (λ task. self.old ≡ task ∷ self.new) }
    {
        self.tasks.pop_front()
    }

    /// A call joins at the back. Without memory nothing changes.
    pub fn push(&mut self, task: Task) -> Result<(), Memory>
        ensures ok { OnOk result (self.new ≡ self.old ++ task ∷ []) }
        ensures err { OnErr result (self.new ≡ self.old) }
    {
        self.tasks.push_back(task)?;
        Ok(())
    }
}
