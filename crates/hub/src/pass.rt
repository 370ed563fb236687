//! The pass of one holder.
use crate::rule::Place;
use sp_base::Keeps;
use std::marker::Model;

/// A place at a hub: who holds it may take the value in turn. Contracts see the history that it has seen, the numbers of the
/// entries that it appended, whether it has the value out, whether it is inside, and the load that it shows.
pub struct Pass<B: Keeps> {
    pub(crate) seat: Place<B>,
}

impl<B: Keeps> Model for Pass<B> {
    ghost use Rattle.hub.specs.Passes.{PassView, pass_view, RestsAs};

    ghost Value = { PassView B B.Entry };

    ghost view = { λ p. pass_view p.seat.table_id p.seat.me };

    ghost invariant = { λ p. RestsAs p.seat.me.1 p.seat.me.0.role };
}

impl<B: Keeps> Pass<B> {
    ghost use Rattle.std.specs.Prelude.{◌≡◌};
    ghost use Rattle.hub.specs.Passes.{pass_view, RestsAs};

    pub(crate) fn into_seat(self) -> Place<B>
        ensures view { pass_view result.table_id result.me ≡ self }
        ensures rests { RestsAs result.me.1 result.me.0.role }
    {
        let Pass { seat } = self;
        seat
    }
}

impl<B: Keeps> Drop for Pass<B> {
    fn drop(self) {
        let Self { seat } = self;
        drop(seat);
    }
}
