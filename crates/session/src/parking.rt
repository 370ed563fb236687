//! The requests of calls that are parked.

ghost use Rattle.std.specs.Prelude.{◌≡◌, ◌/◌, IfErr, IfOk, IfSome, List, Some, length, nat_le};
ghost use Rattle.std.specs.Option.{option_copied};
ghost use Rattle.sp_base.specs.Spelling.{FitsOpt};
ghost use Rattle.ext_mean.specs.Laws.{place_in};
ghost use Rattle.rw_set.specs.ReadLists.{read_of};
ghost use Rattle.journal.specs.declared.entry.Entry.{Entry};
ghost use Rattle.book.specs.Standing.{KeepsFixed, StandsFor};
ghost use Rattle.task.specs.Parking.{ParkedCall};
ghost use Rattle.wire.specs.declared.requests.Request.TheVariants as request;
ghost use Rattle.wire.specs.Requests.{FitsRequest};
ghost use Rattle.session.specs.Fetching.{HasFetched, IsFoundOr, JoinsOr};
ghost use Rattle.session.specs.Keeping.{call_in};
ghost use Rattle.session.specs.Sending.{MayJoin, SentFits};
ghost use Rattle.session.specs.States.{seen_in_fetch};
ghost use Rattle.session.specs.Standing.{Asks, Fits, IsOpen, IsTaken, IsWithin, Planned, PlannedFrom, Refused, StandsWithSent, tenant_of};

use crate::ending::share_value;
use crate::fault::Fault;
use crate::parked_calls::ParkedCalls;
use crate::plan::{Ask, Plan};
use crate::session::Session;
use crate::told::{commit_item, refused_item, seen_in_item};
use book::{Book, Read};
use parked::Finish;
use rw_set::Sent;
use sp_base::{CallNo, Key, Memory, ReadItem, TableId, TenantId};
use std::alloc::Global;
use task::Parked;
use wire::{Answer, FetchAnswer, Item};

/// Tells a record that was read.
fn found(alloc: Global, read: &ReadItem) -> FetchAnswer
    requires { FitsOpt read.now.value }
    ensures told { IsFoundOr result read.now }
    ensures within { IsWithin (Answer.Fetched result) }
{
    match share_value(alloc, &read.value) {
        Ok(value) => FetchAnswer::Found {
            version: read.version,
            read_at: read.read_at,
            value,
        },
        Err(Memory) => FetchAnswer::Memory,
    }
}

/// Tells a record that was read, which joins the reads of the caller's call.
fn join(alloc: Global, calls: &mut ParkedCalls, caller: u32, item: ReadItem) -> FetchAnswer
    requires joins { (parked : ParkedCall) × (call_in calls.old caller ≡ Some parked) × MayJoin parked item }
    requires value { FitsOpt item.value }
    ensures told { JoinsOr calls.old calls.new caller item result }
    ensures within { IsWithin (Answer.Fetched result) }
{
    let Ok(value) = share_value(alloc, &item.value) else {
        return FetchAnswer::Memory;
    };
    let version = item.version;
    let read_at = item.read_at;
    match calls.add(caller, item) {
        Ok(()) => FetchAnswer::Found {
            version,
            read_at,
            value,
        },
        Err(Memory) => FetchAnswer::Memory,
    }
}

/// The read that a parked call has made of a place.
fn read_before<'a>(parked: &'a Parked, table: TableId, key: &Key) -> Option<&'a ReadItem>
    ensures found { option_copied result ≡ read_of parked.now.reads (place_in table key.now) }
    ensures value { IfSome result (λ read. FitsOpt read.now.value) }
{
    let reads = parked.reads();
    let _kept = reads.items();
    reads.find(table, key)
}

/// Whether a parked call has as many reads as its budget pays.
fn has_all_reads(parked: &Parked) -> bool
    ensures { result ≡ nat_le (parked.now.call.budget / 16) (length parked.now.reads) }
{
    let paid = parked.call().budget / 16;
    paid as usize <= parked.reads().items().len()
}

impl Session {
    /// Takes what a client sends as the end of its parked call. Under audit it is not taken: whether it is
    /// what the call means is not looked at yet.
    pub(crate) fn take(
        &mut self,
        caller: u32,
        number: CallNo,
        finish: Finish,
    ) -> Result<Ask, Answer>
        requires open { IsOpen self.old }
        ensures refused { IfErr result (Refused self.old self.new (request.Finish caller number finish.outcome finish.writes)) }
        ensures asked { IfOk result (Asks self.old self.new (request.Finish caller number finish.outcome finish.writes)) }
    {
        let Some(admitted) = &self.admitted else {
            return Err(self.end(Fault::OutOfTurn));
        };
        if !self.parked.has(caller, number) {
            return Err(Answer::Finished {
                item: Item::NotParked,
            });
        }
        if self.conf.audit {
            return Err(Answer::Finished { item: Item::Memory });
        }
        match self.parked.accept(caller, &admitted.rights, finish) {
            Ok(sent) => Ok(Ask::Finish(sent)),
            Err(why) => Err(Answer::Finished {
                item: refused_item(why),
            }),
        }
    }

    /// Commits a run that was taken.
    pub(crate) fn finish(&mut self, book: &mut Book, sent: Sent) -> Plan
        requires open { IsOpen self.old }
        requires fits { (journal : List Entry) → StandsFor book.old journal → Fits self.old journal book.old.grants }
        requires sent_fits { (journal : List Entry) → StandsFor book.old journal → SentFits (tenant_of self.old.admitted) book.old.audit sent journal book.old.grants }
        requires taken { IsTaken self.old sent }
        requires within { FitsRequest (request.Finish sent.call.caller.number sent.call.number sent.outcome sent.writes) }
        ensures planned { (journal : List Entry) → StandsFor book.old journal
            → PlannedFrom (StandsWithSent self.old sent) self.old self.new book.old book.new journal
            (request.Finish sent.call.caller.number sent.call.number sent.outcome sent.writes) result }
        ensures fixed { KeepsFixed book.old book.new }
    {
        let _stands = book.journal();
        let item = commit_item(book.commit_sent(sent));
        self.seen = seen_in_item(self.seen, &item);
        Plan::Send(Answer::Finished { item })
    }

    /// The record that a parked call asks for. One that it has not read before joins its reads.
    fn fetched(
        &mut self,
        book: &Book,
        tenant: TenantId,
        caller: u32,
        number: CallNo,
        table: TableId,
        key: &Key,
    ) -> FetchAnswer
        requires fits { (journal : List Entry) → StandsFor book.now journal → Fits self.old journal book.now.grants }
        requires admitted { tenant_of self.old.admitted ≡ Some tenant }
        ensures told { (journal : List Entry) → StandsFor book.now journal
            → HasFetched book.now.grants tenant journal self.old.parked self.new.parked caller number.0 table key.now result }
        ensures within { IsWithin (Answer.Fetched result) }
        ensures same { self.new ≡ record self.old { parked = self.new.parked } }
    {
        let _stands = book.journal();
        let Some(parked) = self.parked.look(caller) else {
            return FetchAnswer::NotParked;
        };
        if parked.call().number.0 != number.0 {
            return FetchAnswer::NotParked;
        }
        if let Some(read) = read_before(parked, table, key) {
            return found(self.alloc, read);
        }
        let full = has_all_reads(parked);
        match book.read(tenant, table, key) {
            Read::Found(item) => {
                if full {
                    return FetchAnswer::Many;
                }
                join(self.alloc, &mut self.parked, caller, item)
            }
            Read::Denied => FetchAnswer::Denied,
            Read::Memory => FetchAnswer::Memory,
        }
    }

    /// The part of the journal that a Fetch's answer shows was shown.
    fn show_fetch(&mut self, told: &FetchAnswer)
        ensures { self.new ≡ record self.old { seen = seen_in_fetch self.old.seen told.now } }
    {
        if let FetchAnswer::Found { read_at, .. } = told {
            self.show(*read_at);
        }
    }

    /// Tells a record to the client of a parked call.
    pub(crate) fn fetch(
        &mut self,
        book: &Book,
        tenant: TenantId,
        caller: u32,
        number: CallNo,
        table: TableId,
        key: Key,
    ) -> Plan
        requires open { IsOpen self.old }
        requires fits { (journal : List Entry) → StandsFor book.now journal → Fits self.old journal book.now.grants }
        requires admitted { tenant_of self.old.admitted ≡ Some tenant }
        ensures { (journal : List Entry) → StandsFor book.now journal
            → Planned self.old self.new book.now book.now journal (request.Fetch caller number table key) result }
    {
        let told = self.fetched(book, tenant, caller, number, table, &key);
        self.show_fetch(&told);
        Plan::Send(Answer::Fetched(told))
    }
}
