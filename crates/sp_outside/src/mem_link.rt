ghost use Rattle.std.specs.Prelude.{◌≡◌, ◌↔◌, ◌⊎◌, ◌<◌, ◌≤◌, ◌-◌, [], length, take, drop};
ghost use Rattle.std.specs.Prelude.{vec_len, vec_capacity, Some, IfOk, Contains};
ghost use Rattle.sp_outside.specs.Faults.{FaultCounted, one_call_more};
ghost use Rattle.sp_outside.specs.Hearing.{heard_after, said_after, IsUnused};
ghost use Rattle.sp_outside.specs.Putting.{TakesWithin, TakesAllThatFits, faults_after_put};
ghost use Rattle.sp_outside.specs.Taking.{ComesWithin, Takes, GivesAllThatFits, faults_after_take};

use crate::link::Link;
use crate::memory::{count_call, give_what_fits, keep_what_fits};
use crate::sink::Wrote;
use crate::source::Took;
use sp_base::Memory;
use std::alloc::Global;

/// A link in memory to a peer that says these bytes, some calls of which can be made to fail.
#[derive(Debug, Drop)]
pub struct MemLink {
    /// What the peer says in all.
    pub bytes: Vec<u8>,
    /// How many of the peer's bytes have come.
    pub at: usize,
    /// The bytes that were taken for the peer.
    pub held: Vec<u8>,
    /// How many bytes for the peer there is room for in all.
    pub room: u64,
    /// The numbers of the calls of `take` and `put` that fail, counted together from 0.
    pub fail: Vec<u32>,
    /// How many calls of `take` and `put` there were, up to the last value.
    pub calls: u32,
    /// How many calls have failed, up to the last value.
    pub faults: u64,
    ghost has_room: { room ≤ vec_capacity held },
}

impl MemLink {
    /// A link with nothing heard and nothing said, with memory for all that there is room for.
    pub fn of(alloc: Global, bytes: Vec<u8>, room: u64, fail: Vec<u32>) -> Result<MemLink, Memory>
        ensures bytes { IfOk result (λ link. link.bytes ≡ bytes) }
        ensures unused { IfOk result (λ link. IsUnused link.at link.held.items link.faults) }
        ensures room { IfOk result (λ link. link.room ≡ room) }
        ensures fail { IfOk result (λ link. link.fail ≡ fail) }
        ensures calls { IfOk result (λ link. link.calls ≡ 0) }
    {
        let held = Vec::with_capacity(alloc, room as usize)?;
        Ok(MemLink {
            bytes,
            at: 0,
            held,
            room,
            fail,
            calls: 0,
            faults: 0,
        })
    }
}

impl Link for MemLink {
    ghost faults = { λ s. s.faults };

    ghost left = { λ s. Some (drop s.at s.bytes.items) };

    ghost heard = { λ s. Some (take s.at s.bytes.items) };

    ghost said = { λ s. Some s.held.items };

    fn take(&mut self, into: &mut [u8]) -> Took
        requires { 0 < length into.old }
        ensures within { ComesWithin result (length into.new) }
        ensures told { Takes result (drop self.old.at self.old.bytes.items) into.new
            (Some (drop self.new.at self.new.bytes.items)) }
        ensures heard { Some (take self.new.at self.new.bytes.items)
            ≡ heard_after result into.new (Some (take self.old.at self.old.bytes.items)) }
        ensures failed { result ≡ Took.Failed → FaultCounted self.old.faults self.new.faults }
        ensures never_falls { self.old.faults ≤ self.new.faults }

        // Which calls fail, how many bytes the others give, and what is counted.
        ensures fails { (result ≡ Took.Failed) ↔ Contains self.old.fail.items self.old.calls }
        ensures all_that_fit { GivesAllThatFits result (drop self.old.at self.old.bytes.items)
            (length into.new) }
        ensures calls { self.new.calls ≡ one_call_more self.old.calls }
        ensures faults { self.new.faults ≡ faults_after_take result self.old.faults }
        ensures kept { self.new ≡ record self.old {
          at = self.new.at;
          calls = self.new.calls;
          faults = self.new.faults;
        } }
    {
        if count_call(self.fail.as_slice(), &mut self.calls, &mut self.faults) {
            return Took::Failed;
        }
        give_what_fits(self.bytes.as_slice(), &mut self.at, into)
    }

    fn put(&mut self, piece: &[u8]) -> Wrote
        requires { 0 < length piece.now }
        ensures within { TakesWithin result (length piece.now) }
        ensures said { Some self.new.held.items
            ≡ said_after result piece.now (Some self.old.held.items) }
        ensures failed { result ≡ Wrote.Failed → FaultCounted self.old.faults self.new.faults }
        ensures never_falls { self.old.faults ≤ self.new.faults }

        // Which calls fail, how many bytes the others take, and what is counted.
        ensures fails { (result ≡ Wrote.Failed) ↔ (Contains self.old.fail.items self.old.calls
            ⊎ (self.old.room ≤ vec_len self.old.held)) }
        ensures all_that_fit { TakesAllThatFits result (length piece.now)
            (self.old.room - vec_len self.old.held) }
        ensures calls { self.new.calls ≡ one_call_more self.old.calls }
        ensures faults { self.new.faults ≡ faults_after_put result self.old.faults }
        ensures same_bytes { self.new.bytes ≡ self.old.bytes }
        ensures same_at { self.new.at ≡ self.old.at }
        ensures same_room { self.new.room ≡ self.old.room }
        ensures same_fail { self.new.fail ≡ self.old.fail }
    {
        if count_call(self.fail.as_slice(), &mut self.calls, &mut self.faults) {
            return Wrote::Failed;
        }
        keep_what_fits(&mut self.held, self.room, &mut self.faults, piece)
    }

    fn shut(&mut self)
        ensures { self.new ≡ self.old }
    {}
}
