//! The hub and its calls.
ghost use Rattle.std.specs.Prelude.{◌≡◌, ◌+◌, ◌^◌, ◌<◌, ◌≤◌, List, [], ◌++◌, length, IfOk, IfErr, Some, None, true, false};
ghost use Rattle.hub.specs.Histories.{Begins, longer, AreOwn};
ghost use Rattle.hub.specs.Passes.{IsPassOf, founder, MayGive, IsGivenBack, IsFounded};
ghost use Rattle.hub.specs.Steps.{capped};

use crate::line::{LENGTH, LOAD, SERVING, await_turn, draw, put_back};
use crate::pass::Pass;
use crate::rule::{Cut, Enter, Glue, HandOn, HubRule, Leave, Look, Settle, Weigh};
use crate::sight::{Origin, Sight};
use atomic_table::{Refused, Table};
use sp_base::{Keeps, Memory};
use std::alloc::{AllocFailed, Global};
use std::marker::Model;
use std::snapshot::Snapshot;
use std::sync::Wait;

/// One value that keeps a history, with a line of tickets for whoever wants it. It has four words, the next ticket, the
/// ticket that has the turn, the length of the history and the load, and one slot for the value.
#[derive(Drop)]
pub struct Hub<B: Keeps> {
    table: Table<Option<B>, Sight<B, B::Entry>, Origin<B>, HubRule, Global>,
}

impl<B: Keeps> Model for Hub<B> {
    ghost use Rattle.hub.specs.Passes.{HubView, IsHubTable};

    ghost Value = { HubView B };

    ghost view = { λ h. record { id = h.table.shared.table_id; origin = h.table.shared.key } };

    ghost invariant = { λ h. IsHubTable h.table.shared.table_id };
}

/// The load word, or 4,294,967,295 where it is greater.
fn shown(load: u64) -> u32
    ensures { result ≡ capped load }
{
    load.min(4_294_967_295) as u32
}

impl<B: Keeps> Hub<B> {
    /// A hub of this value, and its first pass, which has seen its history. Without memory the value comes back.
    pub fn found(alloc: Global, value: B) -> Result<(Hub<B>, Pass<B>), (Memory, B)>
        requires { (h : List B.Entry) × B.stands_for value h × (length h + 1 < 2 ^ 64) }
        ensures ok { IfOk result (λ r. IsFounded B.stands_for value r.0 r.1) }
        ensures err { IfErr result (λ r. r.1 ≡ value) }
    {
        let length = value.length();
        let origin = Origin {
            value: Snapshot::of(&value),
            length,
        };
        let mut slots = Vec::new(alloc);
        if let Err(AllocFailed { value: refused }) = slots.push(Some(value)) {
            slots.destroy_empty();
            return Err((Memory, refused.unwrap()));
        }
        match Table::new(alloc, &[0, 0, length, 0], slots, &origin) {
            Ok((table, mut seat)) => {
                table.shared.load::<Look>(&mut seat, LENGTH);
                Ok((Hub { table }, Pass { seat }))
            }
            Err(Refused { slots: mut refused }) => {
                let value = refused.pop().unwrap().unwrap();
                refused.destroy_empty();
                Err((Memory, value))
            }
        }
    }

    /// Takes the value out. It waits for its turn, and for good once 2^64 - 1 tickets were drawn.
    pub fn take<R: Wait>(&self, rt: &R, pass: &mut Pass<B>) -> B
        requires of { IsPassOf self.now pass.old }
        requires home { pass.old.out ≡ false }
        ensures pass { pass.new ≡ record pass.old { seen = pass.new.seen; out = true } }
        ensures seen { Begins pass.old.seen pass.new.seen }
        ensures value { B.stands_for result pass.new.seen }
        ensures fixed { B.fixed result ≡ B.fixed (founder self.now) }
        ensures short { length pass.new.seen + 1 < 2 ^ 64 }
    {
        let line = &self.table.shared;
        let ticket = draw(rt, line, &mut pass.seat);
        let value = await_turn(rt, line, &mut pass.seat, ticket);
        line.load::<Look>(&mut pass.seat, LENGTH);
        value
    }

    /// Gives the value back, as it was taken or with one more entry, and hands on the turn.
    pub fn give(&self, pass: &mut Pass<B>, value: B)
        requires of { IsPassOf self.now pass.old }
        requires out { pass.old.out ≡ true }
        requires fixed { B.fixed value ≡ B.fixed (founder self.now) }
        requires value { MayGive B.stands_for value pass.old.seen }
        ensures pass { pass.new ≡ record pass.old { seen = pass.new.seen; own = pass.new.own; out = false } }
        ensures value { B.stands_for value pass.new.seen }
        ensures given { IsGivenBack pass.old pass.new }
        ensures exact { (h : List B.Entry) → B.stands_for value h → length h < 2 ^ 64 → length h ≡ length pass.new.seen }
        ensures own { AreOwn self.now.origin.length pass.new.own }
    {
        let line = &self.table.shared;
        put_back(line, &mut pass.seat, value);
        line.fetch_add::<HandOn>(&mut pass.seat, SERVING, 1);
    }

    /// The length of the history, all of which the pass has then seen.
    pub fn length(&self, pass: &mut Pass<B>) -> u64
        requires of { IsPassOf self.now pass.old }
        ensures pass { pass.new ≡ record pass.old { seen = pass.new.seen } }
        ensures seen { Begins pass.old.seen pass.new.seen }
        ensures length { result ≡ length pass.new.seen }
        ensures out { pass.old.out ≡ true → pass.new.seen ≡ pass.old.seen }
    {
        self.table.shared.load::<Look>(&mut pass.seat, LENGTH)
    }

    /// A second pass, which has seen the same.
    pub fn split(&self, pass: &mut Pass<B>) -> Pass<B>
        requires of { IsPassOf self.now pass.old }
        ensures pass { pass.new ≡ pass.old }
        ensures other { result ≡ record pass.old { own = []; out = false; inside = false; shown = None; met = 0 } }
    {
        Pass {
            seat: self.table.shared.split_seat::<Cut>(&mut pass.seat),
        }
    }

    /// Puts the other pass into this one. It has then seen the longer of the two histories, which the other begins, and has the
    /// own numbers of both.
    pub fn join(&self, pass: &mut Pass<B>, other: Pass<B>)
        requires of { IsPassOf self.now pass.old }
        requires other_of { IsPassOf self.now other }
        requires home { other.out ≡ false }
        requires outside { other.inside ≡ false }
        ensures pass { pass.new ≡ record pass.old { seen = longer pass.old.seen other.seen; own = pass.old.own ++ other.own } }
        ensures seen { Begins pass.old.seen pass.new.seen }
        ensures other_seen { Begins other.seen pass.new.seen }
        ensures own { AreOwn self.now.origin.length pass.new.own }
    {
        let line = &self.table.shared;
        line.join_seat::<Glue>(&mut pass.seat, other.into_seat());
        line.load::<Settle>(&mut pass.seat, LENGTH);
    }

    /// Makes the pass one of those inside, and answers how many they are then.
    pub fn enter(&self, pass: &mut Pass<B>) -> u32
        requires of { IsPassOf self.now pass.old }
        requires outside { pass.old.inside ≡ false }
        ensures pass { pass.new ≡ record pass.old { inside = true; met = pass.new.met } }
        ensures load { result ≡ capped pass.new.met }
    {
        let before = self
            .table
            .shared
            .fetch_add::<Enter>(&mut pass.seat, LOAD, 1);
        shown(before.wrapping_add(1))
    }

    /// Ends that, and answers how many are inside then.
    pub fn leave(&self, pass: &mut Pass<B>) -> u32
        requires of { IsPassOf self.now pass.old }
        requires inside { pass.old.inside ≡ true }
        ensures pass { pass.new ≡ record pass.old { inside = false; met = pass.new.met } }
        ensures load { result ≡ capped pass.new.met }
    {
        let before = self
            .table
            .shared
            .fetch_sub::<Leave>(&mut pass.seat, LOAD, 1);
        shown(before.wrapping_sub(1))
    }

    /// How many passes are inside, which the pass then shows.
    pub fn load(&self, pass: &mut Pass<B>) -> u32
        requires of { IsPassOf self.now pass.old }
        ensures { pass.new ≡ record pass.old { shown = Some result } }
    {
        shown(self.table.shared.load::<Weigh>(&mut pass.seat, LOAD))
    }

    /// Takes the value out for good, in its turn as `take` does. The hub is given up.
    pub fn close<R: Wait>(self, rt: &R, pass: Pass<B>) -> B
    where
        B: Drop,
        requires of { IsPassOf self pass }
        requires home { pass.out ≡ false }
        ensures value { (h : List B.Entry) × Begins pass.seen h × B.stands_for result h × (length h + 1 < 2 ^ 64) }
        ensures fixed { B.fixed result ≡ B.fixed (founder self) }
    {
        let mut pass = pass;
        self.take(rt, &mut pass)
    }
}
