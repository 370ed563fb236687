//! Pushed calls with the plain body, beside those that a client of `client_core` carries.

ghost use Rattle.std.specs.Prelude.{◌≡◌, IfOk, MatchOption};
ghost use Rattle.sp_base.specs.Spelling.{FitsOpt};
ghost use Rattle.clients.specs.Pushed.{HasEnd, IsCarried, IsTrueEnd, IsWanted, Pushed, WantsAt, joined, meant, pushed_of};
ghost use Rattle.clients.specs.Plain.{IsAskedBy};

use ext_eval::eval;
use ext_mean::Run;
use rw_set::Sent;
use sp_base::{Call, Key, Memory, Outcome, ReadItem, Rights, TableId, Writes};
use std::alloc::Global;
use std::marker::Model;
use task::{Parked, Task};

/// What a client asks for next.
#[derive(Debug, Drop)]
pub enum Asks {
    /// A record that it lacks.
    Fetch { table: TableId, key: Key },
    /// The end of the call.
    Finish { outcome: Outcome, writes: Writes },
}

/// A call at its client, which evaluates it here, with no messages. Its calls promise, word for word, what
/// those of `PushedCall` do. Contracts see the call, its extension, its rights and its reads.
#[derive(Drop)]
pub struct PlainPushedCall {
    alloc: Global,
    parked: Parked,
    rights: Rights,
    asks: Asks,
}

impl Model for PlainPushedCall {
    ghost use Rattle.std.specs.Coded.{codes};
    ghost use Rattle.ext_mean.specs.contracts.statement.Block as block;
    ghost use Rattle.clients.specs.Plain.{IsAskedBy};
    ghost use Rattle.clients.specs.Pushed.{IsCarried, Pushed, meant};

    ghost Value = { Pushed };

    ghost coded = { Prim.hlevel (codes, block.the_row.coded) };

    ghost view = { λ p. record { call = p.parked.call; ext = p.parked.ext; rights = p.rights; reads = p.parked.reads } };

    ghost invariant = { λ p.
        IsCarried (record { call = p.parked.call; ext = p.parked.ext; rights = p.rights; reads = p.parked.reads })
        × IsAskedBy (meant (record { call = p.parked.call; ext = p.parked.ext; rights = p.rights; reads = p.parked.reads })) p.asks };
}

impl PlainPushedCall {
    /// A call that goes to its client, with what it has read.
    pub fn of(alloc: Global, task: Task, rights: Rights) -> Result<PlainPushedCall, Memory>
        requires { rights ≡ task.rights }
        ensures { IfOk result (λ call. call ≡ pushed_of task) }
    {
        let _kept = task.spent();
        PlainPushedCall::asking(alloc, Parked::of(task), rights)
    }

    /// The client asks for what it lacks.
    fn asking(alloc: Global, parked: Parked, rights: Rights) -> Result<PlainPushedCall, Memory>
        requires { let made : Pushed = record { call = parked.call; ext = parked.ext; rights = rights; reads = parked.reads } in IsCarried made }
        ensures { IfOk result (λ call. call ≡ record { call = parked.call; ext = parked.ext; rights = rights; reads = parked.reads }) }
    {
        let program = parked.ext().program();
        let call = parked.call();
        let reads = parked.reads().items();
        let run = eval(
            alloc,
            program,
            call.args.bytes(),
            call.budget,
            &rights,
            reads,
        )?;
        let asks = asks_of(alloc, run);
        Ok(PlainPushedCall {
            alloc,
            parked,
            rights,
            asks,
        })
    }

    pub fn call(&self) -> &Call
        ensures { result.now ≡ self.now.call }
    {
        self.parked.call()
    }

    /// The place of the record that the client wants; none where the call has ended.
    pub fn wanted(&self) -> Option<(TableId, &Key)>
        ensures place { MatchOption result (HasEnd (meant self.now)) (λ place. IsWanted self.now place.0 place.1.now) }
        ensures carried { IsCarried self.now }
    {
        match &self.asks {
            Asks::Fetch { table, key } => Some((*table, key)),
            Asks::Finish { .. } => None,
        }
    }

    /// The client is given the record that it wants. Without memory the call is given up.
    pub fn give(self, item: ReadItem) -> Result<PlainPushedCall, Memory>
        requires wanted { WantsAt (meant self) item.table item.key }
        requires value { FitsOpt item.value }
        ensures { IfOk result (λ call. call ≡ joined self item) }
    {
        let PlainPushedCall {
            alloc,
            mut parked,
            rights,
            ..
        } = self;
        match parked.add(item) {
            Ok(()) => PlainPushedCall::asking(alloc, parked, rights),
            Err(_) => Err(Memory),
        }
    }

    /// What the client sends as the call's end: what the program means on the reads that it was given.
    pub fn into_sent(self) -> Sent
        requires { HasEnd (meant self) }
        ensures { IsTrueEnd self result }
    {
        let PlainPushedCall { parked, asks, .. } = self;
        let (call, reads) = parked.parts();
        match asks {
            Asks::Finish { outcome, writes } => Sent {
                call,
                reads,
                outcome,
                writes,
            },
            Asks::Fetch { .. } => unreachable!(),
        }
    }
}

/// What a client asks for, by what its program means.
fn asks_of(alloc: Global, run: Run) -> Asks
    ensures { IsAskedBy run result }
{
    match run {
        Run::Wants { table, key, .. } => Asks::Fetch { table, key },
        Run::Done { reply, writes, .. } => Asks::Finish {
            outcome: Outcome::Done(reply),
            writes,
        },
        Run::Trapped { trap, .. } => Asks::Finish {
            outcome: Outcome::Trapped(trap),
            writes: Writes::new(alloc),
        },
        Run::Spent => Asks::Finish {
            outcome: Outcome::Killed,
            writes: Writes::new(alloc),
        },
    }
}
