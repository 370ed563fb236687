ghost use Rattle.std.specs.Prelude.{◌≡◌, ◌≤◌, ℕ, Option, Some};
ghost use Rattle.sp_outside.specs.Doors.{IfDialled};
ghost use Rattle.sp_outside.specs.Faults.{FaultCounted};
ghost use Rattle.sp_outside.specs.Hearing.{IsFresh};

use crate::link::Link;

/// What a dial answers.
#[derive(Debug, Drop)]
pub enum Dialled<L> {
    /// The peer has answered.
    Link(L),
    /// No link was given, and a fault was counted.
    Failed,
}

/// How a client reaches a server of this machine.
pub trait Dial {
    /// The links that the dial gives.
    type Link: Link + Drop;

    /// How many calls have failed, up to the last value of a `u64`.
    ghost faults: { Self → ℕ };

    /// The link that was done last, or none.
    ghost ended: { Self → Option Self.Link };

    /// Reaches the server at a port.
    fn dial(&mut self, port: u16) -> Dialled<Self::Link>
        ensures fresh { IfDialled result (λ link.
            IsFresh (Self.Link.faults link) (Self.Link.heard link) (Self.Link.said link)) }
        ensures same_ended { ended self.new ≡ ended self.old }
        ensures failed { result ≡ Dialled.Failed →
            FaultCounted (faults self.old) (faults self.new) }
        ensures never_falls { faults self.old ≤ faults self.new };

    /// Takes a link back that has served, and keeps it.
    fn done(&mut self, link: Self::Link)
        ensures ended { ended self.new ≡ Some link }
        ensures never_falls { faults self.old ≤ faults self.new };
}
