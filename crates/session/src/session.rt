ghost use Rattle.std.specs.Prelude.{◌≡◌, ◌<◌, ◌≤◌, ◌^◌, IfErr, IfOk, List, length};
ghost use Rattle.std.specs.List.{AllByRecursion};
ghost use Rattle.sp_base.specs.declared.calls.Asked.{Asked};
ghost use Rattle.records.specs.GrantsList.{GrantsList};
ghost use Rattle.journal.specs.declared.entry.Entry.{Entry};
ghost use Rattle.book.specs.Standing.{KeepsFixed, StandsFor};
ghost use Rattle.wire.specs.Requests.{FitsRequest};
ghost use Rattle.session.specs.States.{State, Terms, opening};
ghost use Rattle.session.specs.Steps.{faulted};
ghost use Rattle.session.specs.Waiting.{AreAwaited, OneOfEach, TellsEnds};
ghost use Rattle.session.specs.Standing.{AskFits, Asks, Awaits, EndHolds, Finishes, Fits, IsAsked, IsOpen, IsRunning, PlannedFrom, Refused, Stands, StandsAsking, ended_now, handed_back, request_of, room_in};

use crate::conf::SessionConf;
use crate::ending::fill;
use crate::fault::Fault;
use crate::parked_calls::ParkedCalls;
use crate::plan::{Ask, Plan};
use book::{Book, CallEnd};
use parked::Finish;
use sp_base::{MOST_PARKED, Policy, Rights, TenantId};
use std::alloc::Global;
use std::mem::replace;
use wire::{Answer, Item, Request};

/// The tenant that a session admitted, with its rights.
#[derive(Drop)]
pub(crate) struct Admitted {
    pub(crate) tenant: TenantId,
    pub(crate) rights: Rights,
}

/// What a session waits for.
#[derive(Drop)]
pub(crate) enum Phase {
    /// The next request.
    Open,
    /// The ends of the calls of a batch. Each call has its item so far.
    Running(Vec<Item>),
    /// Nothing: it has ended.
    Ended,
}

/// One client's session, from its first request to its end.
#[derive(Drop)]
pub struct Session {
    pub(crate) alloc: Global,
    pub(crate) conf: SessionConf,
    pub(crate) admitted: Option<Admitted>,
    /// The number of entries of the journal that were shown to the client.
    pub(crate) seen: u64,
    /// The calls that its client carries on.
    pub(crate) parked: ParkedCalls,
    pub(crate) phase: Phase,
}

impl Session {
    /// A session that has heard nothing.
    pub fn new(alloc: Global, conf: SessionConf) -> Session
        ensures open { IsOpen result }
        ensures conf { result.conf ≡ conf }
        ensures stands { Stands result opening }
        ensures fits { (journal : List Entry) (grants : GrantsList) → Fits result journal grants }
    {
        Session {
            alloc,
            conf,
            admitted: None,
            seen: 0,
            parked: ParkedCalls::new(alloc),
            phase: Phase::Open,
        }
    }

    /// The number of entries of the journal that the session has shown to its client.
    pub fn seen(&self) -> u64
        ensures { (state : State) → Stands self.now state → result ≡ state.seen }
    {
        self.seen
    }

    /// When the session's calls are pushed back to its client.
    pub fn policy(&self) -> Policy
        ensures { result ≡ self.now.conf.policy }
    {
        self.conf.policy
    }

    /// How many more calls the session can park.
    pub fn room(&self) -> u32
        ensures { result ≡ room_in self.now }
    {
        MOST_PARKED.saturating_sub(self.parked.len()) as u32
    }

    /// Ends the session with a Fault.
    pub fn end(&mut self, fault: Fault) -> Answer
        ensures told { result ≡ faulted fault }
        ensures ended { self.new ≡ ended_now self.old }
        ensures stands { (state : State) → Stands self.old state → Stands self.new state }
        ensures fits { (journal : List Entry) (grants : GrantsList) → Fits self.old journal grants → Fits self.new journal grants }
    {
        self.phase = Phase::Ended;
        Answer::Fault { code: fault.code() }
    }

    /// The part of a request's work that needs no book: the extension of an Install is made, and what a
    /// Finish sends is taken as the end of its call. What is refused has its answer, and a call whose end is
    /// refused stays parked.
    pub fn prepare(&mut self, request: Request) -> Result<Ask, Answer>
        requires open { IsOpen self.old }
        requires fits { FitsRequest request }
        // The answer is explained over each journal that the session fits, and a Fault ends the session.
        ensures refused { IfErr result (Refused self.old self.new request) }
        // The ask is this request, and the session stands, with the ask on its way, for what it stood for.
        ensures asked { IfOk result (Asks self.old self.new request) }
    {
        match request {
            Request::Install { text } => self.make(text.bytes()),
            Request::Finish {
                caller,
                number,
                outcome,
                writes,
            } => self.take(caller, number, Finish { outcome, writes }),
            other => Ok(Ask::Plain(other)),
        }
    }

    /// The rest of a request's work but for the turns of calls: what the book says of it.
    pub fn answer(&mut self, book: &mut Book, ask: Ask) -> Plan
        requires open { IsOpen self.old }
        requires fits { (journal : List Entry) → StandsFor book.old journal → Fits self.old journal book.old.grants }
        requires ask_fits { (journal : List Entry) → StandsFor book.old journal → AskFits self.old ask journal book.old.grants }
        requires audit { self.old.conf.audit ≡ book.old.audit }
        requires asked { IsAsked self.old ask }
        requires within { FitsRequest (request_of ask) }
        ensures planned { (journal : List Entry) → StandsFor book.old journal
            → PlannedFrom (StandsAsking self.old ask) self.old self.new book.old book.new journal (request_of ask) result }
        ensures fixed { KeepsFixed book.old book.new }
    {
        match ask {
            Ask::Install(ext) => self.install(book, ext),
            Ask::Finish(sent) => self.finish(book, sent),
            Ask::Plain(request) => self.plain(book, request),
        }
    }

    /// Answers a batch once its calls have ended, and parks those that were handed back.
    pub fn finish_batch(&mut self, ends: Vec<CallEnd>) -> Answer
        requires running { IsRunning self.old }
        requires room { handed_back ends.items ≤ room_in self.old }
        ensures finished { (terms : Terms) (journal : List Entry) (calls : List Asked) → terms.conf ≡ self.old.conf
            → length journal < 2 ^ 64 → Fits self.old journal terms.grants → Awaits self.old terms journal calls
            → AllByRecursion (EndHolds self.old terms journal calls) ends.items
            → Finishes terms journal calls ends.items self.old self.new result }
        // Each end of a call that waits for it is told at its place.
        ensures told { OneOfEach ends.items → AreAwaited self.old ends.items → TellsEnds ends.items result }
        ensures conf { self.new.conf ≡ self.old.conf }
    {
        match replace(&mut self.phase, Phase::Open) {
            Phase::Running(items) => {
                let items = fill(self.alloc, &mut self.parked, items, ends);
                self.tell_items(items)
            }
            Phase::Open | Phase::Ended => unreachable!(),
        }
    }
}
