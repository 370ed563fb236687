ghost use Rattle.std.specs.Prelude.{◌≡◌, ◌↔◌, IsTrue, [], ◌∷◌, ◌++◌, None, Some, ◌<◌, length, slice_get, IfSome, OnOk, MatchOption};
ghost use Rattle.std.specs.Option.{option_copied, option_map};
ghost use Rattle.sp_base.specs.Spelling.{FitsOpt};
ghost use Rattle.clients.specs.First.{first_of, without_first, with_first};
ghost use Rattle.clients.specs.Placing.{BeginsWith, EmptyBelow};
ghost use Rattle.clients.specs.Pushed.{Pushed, WantsAt, is_callers, joined, meant};

use crate::callers::Callers;
use crate::pushed_call::PushedCall;
use sp_base::{Caller, Memory, ReadItem};
use std::alloc::Global;
use std::marker::Model;

/// The pushed calls, at most one of a caller, in the order in which they were pushed. Contracts see their
/// list.
#[derive(Drop)]
pub struct PushedCalls {
    /// A call that is no longer pushed leaves its place empty.
    calls: Vec<Option<PushedCall>>,
    /// The place of each caller's call.
    places: Callers,
    /// All places before this one are empty.
    first: usize,
}

impl Model for PushedCalls {
    ghost use Rattle.std.specs.Prelude.{List};
    ghost use Rattle.std.specs.Coded.{codes};
    ghost use Rattle.ext_mean.specs.contracts.statement.Block as block;
    ghost use Rattle.clients.specs.Placing.{ArePlaced, somes};
    ghost use Rattle.clients.specs.Pushed.{Pushed};

    ghost Value = { List Pushed };

    ghost coded = { Prim.hlevel (codes, block.the_row.coded) };

    ghost view = { λ p. somes p.calls.items };

    ghost invariant = { λ p. ArePlaced p.calls.items p.places p.first };
}

impl PushedCalls {
    pub fn new(alloc: Global) -> PushedCalls
        ensures { result ≡ [] }
    {
        PushedCalls {
            calls: Vec::new(alloc),
            places: Callers::new(alloc),
            first: 0,
        }
    }

    /// A call is pushed behind all others.
    pub fn push(&mut self, call: PushedCall) -> Result<(), Memory>
        requires { first_of (is_callers call.call.caller) self.old ≡ None }
        ensures { OnOk result (self.new ≡ self.old ++ call ∷ []) }
    {
        let place = self.calls.len() as u64;
        self.calls.reserve(1)?;
        self.places.add(call.call().caller, place)?;
        match self.calls.push(Some(call)) {
            Ok(()) => Ok(()),
            Err(_) => unreachable!(),
        }
    }

    /// The caller's call, where it has one.
    pub fn look(&self, caller: Caller) -> Option<&PushedCall>
        ensures { option_copied result ≡ first_of (is_callers caller) self.now }
    {
        match self.places.number(caller) {
            Some(place) => self.calls[place as usize].as_ref(),
            None => None,
        }
    }

    /// The caller's call is given the record that it wants, and keeps its place. Without memory it is
    /// given up.
    pub fn give(&mut self, caller: Caller, item: ReadItem) -> Result<(), Memory>
        requires wanted { (call : Pushed) × (first_of (is_callers caller) self.old ≡ Some call)
            × WantsAt (meant call) item.table item.key }
        requires value { FitsOpt item.value }
        ensures { OnOk result ((call : Pushed) → first_of (is_callers caller) self.old ≡ Some call
            → self.new ≡ with_first (is_callers caller) (joined call item) self.old) }
    {
        let Some(place) = self.places.number(caller) else {
            unreachable!();
        };
        let Some(call) = self.calls[place as usize].take() else {
            unreachable!();
        };
        match call.give(item) {
            Ok(call) => {
                self.calls[place as usize] = Some(call);
                Ok(())
            }
            Err(Memory) => {
                self.places.remove(caller);
                Err(Memory)
            }
        }
    }

    /// The caller's call, which is then no longer pushed.
    pub fn remove(&mut self, caller: Caller) -> Option<PushedCall>
        ensures call { result ≡ first_of (is_callers caller) self.old }
        ensures left { self.new ≡ without_first (is_callers caller) self.old }
    {
        let Some(place) = self.places.number(caller) else {
            return None;
        };
        self.places.remove(caller);
        self.calls[place as usize].take()
    }

    /// The caller of the call that was pushed first.
    pub fn front(&mut self) -> Option<Caller>
        ensures caller { MatchOption result (self.old ≡ []) (BeginsWith self.old) }
        ensures same { self.new ≡ self.old }
    {
        let place = first_full(self.calls.as_slice(), self.first);
        self.first = place;
        if place >= self.calls.len() {
            return None;
        }
        caller_of(&self.calls[place])
    }

    /// Whether no call is pushed.
    pub fn is_empty(&self) -> bool
        ensures { IsTrue result ↔ (self.now ≡ []) }
    {
        first_full(self.calls.as_slice(), self.first) >= self.calls.len()
    }
}

/// The caller of the call at a place.
fn caller_of(place: &Option<PushedCall>) -> Option<Caller>
    ensures { result ≡ option_map (λ call. call.call.caller) place.now }
{
    match place {
        Some(call) => Some(call.call().caller),
        None => None,
    }
}

/// The first place from here on that is not empty, or one past all of them.
fn first_full(calls: &[Option<PushedCall>], from: usize) -> usize
    requires { EmptyBelow calls.now «from» }
    ensures empty { EmptyBelow calls.now result }
    ensures full { result < length calls.now → (call : Pushed) × (slice_get calls.now result ≡ Some (Some call)) }
{
    let mut place = from;
    while place < calls.len() {
        if calls[place].is_some() {
            return place;
        }
        place += 1;
    }
    place
}
