ghost use Rattle.std.specs.Prelude.{◌≡◌, ◌≤◌, ◌<◌, ◌↔◌, IsTrue, IfOk, OnOk, IfSome, None, drop, true};
ghost use Rattle.records.specs.GrantsList.{TenantsRise};
ghost use Rattle.book.specs.Standing.{StandsFor};
ghost use Rattle.sim.specs.Play.{caller_of, first_busy, next_event, opened, or_else};
ghost use Rattle.sim.specs.Standing.{DrainPlayed, FitsEvent, Played, Stands, StandsAt, units_left, workers_of};
ghost use Rattle.sim.specs.State.{SimState};

use crate::events::call_of;
use crate::queues::Queues;
use book::Book;
use clients::{Callers, PushedCalls};
use records::Grants;
use report::Line;
use sched_text::{Event, Head};
use sp_base::{Caller, MOST_ENTRIES, Memory, Policy, TenantId};
use std::alloc::Global;

/// The units of one turn of the drain.
const DRAIN_QUANTUM: u32 = 10_000;

/// The play of a script, one event after another.
#[derive(Drop)]
pub struct Sim {
    pub(crate) alloc: Global,
    pub(crate) book: Book,
    /// When a call is pushed to its client.
    pub(crate) policy: Policy,
    pub(crate) queues: Queues,
    pub(crate) pushed: PushedCalls,
    /// The number of each caller's live call.
    pub(crate) callers: Callers,
    /// The worker that the drain looks at next.
    pub(crate) next: u32,
}

impl Sim {
    /// A play that has not begun.
    pub fn new(alloc: Global, head: Head) -> Result<Sim, Memory>
        requires grants { TenantsRise 0 head.rights }
        requires limit { head.limit ≤ MOST_ENTRIES }
        requires workers { head.workers ≤ 64 }
        ensures stands { IfOk result (λ sim. StandsAt sim (opened head)) }
        ensures workers { IfOk result (λ sim. workers_of sim ≡ head.workers) }
    {
        let Head {
            rights,
            policy,
            limit,
            workers,
            ..
        } = head;
        let grants = Grants::of(rights.into_vec());
        let queues = Queues::new(alloc, workers)?;
        Ok(Sim {
            alloc,
            book: Book::new(alloc, grants, limit, true),
            policy,
            queues,
            pushed: PushedCalls::new(alloc),
            callers: Callers::new(alloc),
            next: 0,
        })
    }

    /// Plays one event. After `Memory` the play is given up.
    pub fn step(&mut self, event: Event) -> Result<Line, Memory>
        requires stands { Stands self.old }
        requires fits { FitsEvent (workers_of self.old) event }
        ensures played { IfOk result (Played self.old self.new event) }
        ensures workers { OnOk result (workers_of self.new ≡ workers_of self.old) }
    {
        match event {
            Event::Put {
                tenant,
                table,
                key,
                value,
            } => self.put(tenant, table, key, value),
            Event::Ext { tenant, text } => self.install(tenant, text),
            Event::Begin {
                worker,
                tenant,
                asked,
            } => self.begin(worker, call_of(tenant, asked)),
            Event::Turn { worker, quantum } => self.turn(worker, quantum),
            Event::Steal { worker, from } => self.steal(worker, from),
            Event::Away { tenant, caller } => self.away(caller_of(tenant, caller)),
            Event::Cut { tenant, caller } => self.cut(caller_of(tenant, caller)),
        }
    }

    /// Whether no call is live.
    pub fn drained(&self) -> bool
        ensures { (state : SimState) → StandsAt self.now state → (IsTrue result ↔ (next_event state ≡ None)) }
    {
        self.queues.busy(self.next).is_none() && self.pushed.is_empty()
    }

    /// Plays the next event of the drain that is not idle: the workers take turns in order, those without
    /// a live call are passed over; where no worker has one, the call that was pushed first goes on at its
    /// client. After `Memory` the play is given up.
    pub fn next_drain(&mut self) -> Result<Option<Line>, Memory>
        requires { Stands self.old }
        ensures played { IfOk result (DrainPlayed self.old self.new) }
        // Each event takes of what the live calls have left, so that the drain ends.
        ensures falls { IfOk result (λ told. IfSome told (λ _. units_left self.new < units_left self.old)) }
        ensures workers { OnOk result (workers_of self.new ≡ workers_of self.old) }
    {
        let Some(worker) = self.queues.busy(self.next) else {
            return self.next_away();
        };
        self.next = worker + 1;
        let line = self.turn(worker, DRAIN_QUANTUM)?;
        Ok(Some(line))
    }

    /// The call that was pushed first goes on at its client, where one is pushed.
    fn next_away(&mut self) -> Result<Option<Line>, Memory>
        requires stands { Stands self.old }
        requires none { None ≡ or_else (first_busy self.old.next (drop self.old.next self.old.queues)) (first_busy 0 self.old.queues) }
        ensures played { IfOk result (DrainPlayed self.old self.new) }
        ensures falls { IfOk result (λ told. IfSome told (λ _. units_left self.new < units_left self.old)) }
        ensures workers { OnOk result (workers_of self.new ≡ workers_of self.old) }
    {
        let Some(caller) = self.pushed.front() else {
            return Ok(None);
        };
        let line = self.away(caller)?;
        Ok(Some(line))
    }

    /// The book as it stands.
    pub fn book(&self) -> &Book
        ensures journal { (state : SimState) → StandsAt self.now state → StandsFor result.now state.journal }
        ensures grants { (state : SimState) → StandsAt self.now state → result.now.grants ≡ state.grants }
        ensures audit { (state : SimState) → StandsAt self.now state → result.now.audit ≡ true }
    {
        &self.book
    }
}

/// A caller of a tenant.
fn caller_of(tenant: TenantId, number: u32) -> Caller
    ensures { result ≡ caller_of tenant number }
{
    Caller { tenant, number }
}
