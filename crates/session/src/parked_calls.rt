//! The calls that a session keeps for its client.

ghost use Rattle.std.specs.Prelude.{◌≡◌, ◌≢◌, ◌<◌, ℕ, [], ◌∷◌, ◌++◌, None, Some, IfOk, IfErr, IfSome, IfNone, OnOk, OnErr, length};
ghost use Rattle.std.specs.Option.{option_copied};
ghost use Rattle.sp_base.specs.Spelling.{FitsOpt};
ghost use Rattle.ext_mean.specs.Views.{place_of};
ghost use Rattle.rw_set.specs.ReadLists.{read_of};
ghost use Rattle.parked.specs.Taking.{refusal_of};
ghost use Rattle.task.specs.Parking.{ParkedCall};
ghost use Rattle.session.specs.Keeping.{Changes, IsOfEach, StandsAt, call_in, has_number, joined};
ghost use Rattle.session.specs.Sending.{IsSentAs, MayJoin};

use parked::{Finish, Refused, accept};
use rw_set::Sent;
use sp_base::{CallNo, Memory, ReadItem, Rights};
use std::alloc::Global;
use std::marker::Model;
use task::Parked;

/// The calls that are parked in a session, at most one of a caller. Contracts see their list.
#[derive(Drop)]
pub struct ParkedCalls {
    calls: Vec<Parked>,
}

impl Model for ParkedCalls {
    ghost use Rattle.std.specs.Prelude.{List};
    ghost use Rattle.std.specs.Coded.{codes};
    ghost use Rattle.ext_mean.specs.contracts.statement.Block as block;
    ghost use Rattle.task.specs.Parking.{ParkedCall};
    ghost use Rattle.session.specs.Keeping.{IsOfEach};

    ghost Value = { List ParkedCall };

    ghost coded = { Prim.hlevel (codes, block.the_row.coded) };

    ghost view = { λ p. p.calls.items };

    ghost invariant = { λ p. IsOfEach p.calls.items };
}

/// Where a caller's call stands.
fn place_of(calls: &[Parked], caller: u32) -> Option<usize>
    ensures there { IfSome result (StandsAt calls.now caller) }
    ensures none { IfNone result (call_in calls.now caller ≡ None) }
{
    for (place, parked) in calls.iter().enumerate() {
        if parked.call().caller.number == caller {
            return Some(place);
        }
    }
    None
}

impl ParkedCalls {
    /// No calls.
    pub fn new(alloc: Global) -> ParkedCalls
        ensures { result ≡ [] }
    {
        ParkedCalls {
            calls: Vec::new(alloc),
        }
    }

    pub fn len(&self) -> usize
        ensures count { result ≡ length self.now }
        ensures each { IsOfEach self.now }
    {
        self.calls.len()
    }

    /// The caller's call, where it has one.
    pub fn look(&self, caller: u32) -> Option<&Parked>
        ensures { option_copied result ≡ call_in self.now caller }
    {
        match place_of(self.calls.as_slice(), caller) {
            Some(place) => Some(&self.calls[place]),
            None => None,
        }
    }

    /// Whether the call of this caller and number is parked.
    pub fn has(&self, caller: u32, number: CallNo) -> bool
        ensures { result ≡ has_number number.0 (call_in self.now caller) }
    {
        match self.look(caller) {
            Some(parked) => parked.call().number.0 == number.0,
            None => false,
        }
    }

    /// Parks a call. Without memory, or where its caller has one already, nothing changes.
    pub fn park(&mut self, parked: Parked) -> Result<(), Memory>
        ensures ok { OnOk result (self.new ≡ self.old ++ parked ∷ []) }
        ensures free { OnOk result (call_in self.old parked.call.caller.number ≡ None) }
        ensures err { OnErr result (self.new ≡ self.old) }
        ensures each { IsOfEach self.new }
    {
        let None = place_of(self.calls.as_slice(), parked.call().caller.number) else {
            return Err(Memory);
        };
        self.calls.push(parked)?;
        Ok(())
    }

    /// Keeps one read more for the caller's call. Without memory nothing changes.
    pub fn add(&mut self, caller: u32, item: ReadItem) -> Result<(), Memory>
        requires joins { (parked : ParkedCall) × (call_in self.old caller ≡ Some parked) × MayJoin parked item }
        requires value { FitsOpt item.value }
        ensures ok { OnOk result ((parked : ParkedCall) → call_in self.old caller ≡ Some parked
            → Changes self.old self.new caller (Some (joined parked item))) }
        ensures many { length self.new ≡ length self.old }
        ensures err { OnErr result (self.new ≡ self.old) }
        ensures each { IsOfEach self.new }
    {
        let Some(place) = place_of(self.calls.as_slice(), caller) else {
            unreachable!();
        };
        let Ok(()) = self.calls[place].add(item) else {
            return Err(Memory);
        };
        Ok(())
    }

    /// Takes what a client sent as the end of its call, which is then no longer parked. Where it is
    /// refused the call stays.
    pub fn accept(&mut self, caller: u32, rights: &Rights, finish: Finish) -> Result<Sent, Refused>
        requires { call_in self.old caller ≢ None }
        ensures ok { IfOk result (λ sent. (parked : ParkedCall) → call_in self.old caller ≡ Some parked
            → IsSentAs rights.now parked finish sent) }
        ensures gone { OnOk result (Changes self.old self.new caller None) }
        ensures fewer { OnOk result (length self.new < length self.old) }
        ensures refused { IfErr result (λ why. refusal_of rights.now finish.outcome finish.writes ≡ Some why) }
        ensures err { OnErr result (self.new ≡ self.old) }
        ensures each { IsOfEach self.new }
    {
        let Some(place) = place_of(self.calls.as_slice(), caller) else {
            unreachable!();
        };
        let parked = self.calls.remove(place);
        match accept(parked, rights, finish) {
            Ok(sent) => Ok(sent),
            Err((why, parked)) => match self.calls.insert(place, parked) {
                Ok(()) => Err(why),
                Err(_) => unreachable!(),
            },
        }
    }
}
