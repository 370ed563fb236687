ghost use Rattle.std.specs.Prelude.{◌≡◌, ◌<◌, ◌≤◌, IfOk, OnOk, IfSome, MatchOption, Some, length, drop};
ghost use Rattle.sim.specs.Play.{idle_workers, first_busy, load_of, or_else};
ghost use Rattle.sim.specs.Queueing.{HasCall, Takes, TakesNothing, with_back};

use crate::queue::Queue;
use sp_base::Memory;
use std::alloc::Global;
use std::marker::Model;
use task::Task;

/// The live calls of all workers. Contracts see the list of their queues.
#[derive(Drop)]
pub struct Queues {
    queues: Vec<Queue>,
    /// How many calls they hold.
    load: u32,
}

impl Model for Queues {
    ghost use Rattle.std.specs.Prelude.{List, ◌≡◌, ◌≤◌, length};
    ghost use Rattle.std.specs.Coded.{codes};
    ghost use Rattle.ext_mean.specs.contracts.statement.Block as block;
    ghost use Rattle.sim.specs.Play.{load_of};
    ghost use Rattle.task.specs.Turning.{Live};

    ghost Value = { List (List Live) };

    ghost coded = { Prim.hlevel (codes, block.the_row.coded) };

    ghost view = { λ q. q.queues.items };

    ghost invariant = { λ q. (length q.queues.items ≤ 64) × (q.load ≡ load_of q.queues.items) };
}

impl Queues {
    /// So many workers without a call.
    pub fn new(alloc: Global, workers: u32) -> Result<Queues, Memory>
        requires { workers ≤ 64 }
        ensures { IfOk result (λ queues. queues ≡ idle_workers workers) }
    {
        let mut queues = Vec::new(alloc);
        for _worker in 0..workers {
            queues.push(Queue::new(alloc))?;
        }
        Ok(Queues { queues, load: 0 })
    }

    /// How many calls the workers have.
    pub fn load(&self) -> u32
        ensures { result ≡ load_of self.now }
    {
        self.load
    }

    /// The first call of a worker, which leaves its queue.
    pub fn take(&mut self, worker: u32) -> Option<Task>
        requires { worker < length self.old }
        ensures { MatchOption result (TakesNothing self.old self.new worker) (Takes self.old self.new worker) }
    {
        let queue = &mut self.queues[worker as usize];
        let Some(task) = queue.pop() else {
            return None;
        };
        self.load -= 1;
        Some(task)
    }

    /// A call joins the back of a worker's queue. 2^32 calls are more than memory holds.
    pub fn put(&mut self, worker: u32, task: Task) -> Result<(), Memory>
        requires { worker < length self.old }
        ensures { OnOk result (self.new ≡ with_back self.old worker task) }
    {
        let Some(load) = self.load.checked_add(1) else {
            return Err(Memory);
        };
        let queue = &mut self.queues[worker as usize];
        queue.push(task)?;
        self.load = load;
        Ok(())
    }

    /// The first worker that has a call, from this one on, and then from worker 0 on.
    pub fn busy(&self, next: u32) -> Option<u32>
        ensures first { result ≡ or_else (first_busy next (drop next self.now)) (first_busy 0 self.now) }
        ensures found { IfSome result (HasCall self.now) }
        ensures few { length self.now ≤ 64 }
    {
        match self.busy_from(next) {
            Some(worker) => Some(worker),
            None => self.busy_from(0),
        }
    }

    fn busy_from(&self, first: u32) -> Option<u32>
        ensures first { result ≡ first_busy first (drop first self.now) }
        ensures few { length self.now ≤ 64 }
    {
        let mut worker = first;
        while (worker as usize) < self.queues.len() {
            if !self.queues[worker as usize].is_empty() {
                return Some(worker);
            }
            worker += 1;
        }
        None
    }
}
