//! The steps of a seat in the line for the turn.
ghost use Rattle.std.specs.Prelude.{◌≡◌, ◌+◌, ◌^◌, ◌<◌, List, [], ◌∷◌, ◌++◌, length, None, Some};
ghost use Rattle.hub.specs.Passes.{HasOut, HasPut, IsAtHub, MayGive};
ghost use Rattle.hub.specs.Steps.{HasFixedPart, with_role};
ghost use Rattle.hub.specs.declared.sight.Role.TheVariants.{Idle, Waits, Took, Looked};

use crate::rule::{Append, Call, Draw, Line, Look, Place};
use crossbeam_utils::Backoff;
use sp_base::Keeps;
use std::sync::Wait;

/// The word with the next ticket.
pub(crate) const TICKETS: usize = 0;

/// The word with the ticket that has the turn.
pub(crate) const SERVING: usize = 1;

/// The word with the length of the history.
pub(crate) const LENGTH: usize = 2;

/// The word with the number of passes inside.
pub(crate) const LOAD: usize = 3;

/// The slot of the value.
pub(crate) const HOME: usize = 0;

/// Draws a ticket. At 2^64 - 1 tickets it waits for good.
pub(crate) fn draw<B: Keeps, R: Wait>(rt: &R, line: &Line<B>, seat: &mut Place<B>) -> u64
    requires table { IsAtHub seat.old.table_id line.now.table_id }
    requires idle { seat.old.me.0.role ≡ Idle }
    ensures seat { (seat.new.table_id ≡ seat.old.table_id) × (seat.new.id ≡ seat.old.id) }
    ensures view { seat.new.me ≡ (with_role (Waits result) seat.old.me.0, seat.old.me.1) }
{
    let backoff = Backoff::new();
    for _ in rt.forever() {
        let next = line.peek(TICKETS);
        if next < u64::MAX && line.compare_exchange::<Draw>(seat, TICKETS, next, next + 1) == next {
            return next;
        }
        backoff.snooze();
    }
    unreachable!()
}

/// Waits until its ticket is served, and takes the value out.
pub(crate) fn await_turn<B: Keeps, R: Wait>(
    rt: &R,
    line: &Line<B>,
    seat: &mut Place<B>,
    ticket: u64,
) -> B
    requires table { IsAtHub seat.old.table_id line.now.table_id }
    requires waits { (seat.old.me.0.role ≡ Waits ticket) × (seat.old.me.1 ≡ []) }
    ensures seat { (seat.new.table_id ≡ seat.old.table_id) × (seat.new.id ≡ seat.old.id) }
    ensures view { seat.new.me ≡ (with_role (Took ticket result) seat.old.me.0, (0, None) ∷ []) }
    ensures part { HasFixedPart B.fixed result seat.old.me.0 }
{
    let backoff = Backoff::new();
    for _ in rt.forever() {
        if line.load::<Call>(seat, SERVING) == ticket {
            let Some(value) = line.exchange(seat, HOME, None) else {
                unreachable!()
            };
            return value;
        }
        backoff.snooze();
    }
    unreachable!()
}

/// Puts the value into the slot, and counts the entry that it has more, where it has one.
pub(crate) fn put_back<B: Keeps>(line: &Line<B>, seat: &mut Place<B>, value: B)
    requires table { IsAtHub seat.old.table_id line.now.table_id }
    requires out { HasOut seat.old.me }
    requires value { MayGive B.stands_for value seat.old.me.0.seen }
    ensures seat { (seat.new.table_id ≡ seat.old.table_id) × (seat.new.id ≡ seat.old.id) }
    ensures put { HasPut B.stands_for value seat.old.me seat.new.me }
    ensures exact { (h : List B.Entry) → B.stands_for value h → length h < 2 ^ 64 → length h ≡ length seat.new.me.0.seen }
{
    let length = line.load::<Look>(seat, LENGTH);
    let is_longer = value.length() > length;
    let emptied = line.exchange(seat, HOME, Some(value));
    let None = emptied else { unreachable!() };
    if is_longer {
        line.fetch_add::<Append>(seat, LENGTH, 1);
    }
}
