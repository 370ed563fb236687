ghost use Rattle.std.specs.Prelude.{◌≡◌, ◌≢◌, ◌↔◌, ◌<◌, ◌≤◌, ℕ, Bool, List};
ghost use Rattle.std.specs.Prelude.{length, Option, IfSome, IsTrue};
ghost use Rattle.sp_outside.specs.Doors.{bound_after, most_after, given_after, coming_after, ended_after};
ghost use Rattle.sp_outside.specs.Doors.{HasNoMore, IfAccepted};
ghost use Rattle.sp_outside.specs.Faults.{FaultCounted};
ghost use Rattle.sp_outside.specs.Hearing.{IsFresh};

use crate::link::Link;

/// What a door answers that is to be bound.
#[derive(Clone, Copy, Debug, PartialEq, Eq)]
pub enum Bound {
    /// Peers can reach the door.
    Yes,
    /// The door is as it was, and a fault was counted.
    Failed,
    /// There was no memory for the links, and the door is as it was.
    Memory,
}

/// What a door answers that is asked for a link.
#[derive(Debug, Drop)]
pub enum Accepted<L> {
    /// A peer has come.
    Link(L),
    /// No more links come.
    Closed,
    /// No link was given, and a fault was counted.
    Failed,
}

/// Where peers come in. A door moves between threads.
pub trait Door: Send + Drop {
    /// The links that the door gives, which move between threads too.
    type Link: Link + Send + Drop;

    /// How many calls have failed, up to the last value of a `u64`.
    ghost faults: { Self → ℕ };

    /// Whether a `bind` has answered Yes.
    ghost bound: { Self → Bool };

    /// How many links the door gives at most.
    ghost most: { Self → ℕ };

    /// How many links are still to come, where the door tells it.
    ghost coming: { Self → Option ℕ };

    /// How many links the door has given.
    ghost given: { Self → ℕ };

    /// The links that are done, in the order in which they were done, where the door tells them.
    ghost ended: { Self → Option (List Self.Link) };

    /// Opens the door at a port of this machine, for so many sessions.
    fn bind(&mut self, port: u16, sessions: u32) -> Bound
        requires { 0 < sessions }
        ensures bound { bound self.new ≡ bound_after result (bound self.old) }
        ensures most { most self.new ≡ most_after result sessions (most self.old) }
        ensures same_coming { coming self.new ≡ coming self.old }
        ensures same_given { given self.new ≡ given self.old }
        ensures same_ended { ended self.new ≡ ended self.old }
        ensures failed { result ≡ Bound.Failed →
            FaultCounted (faults self.old) (faults self.new) }
        ensures never_falls { faults self.old ≤ faults self.new };

    /// Waits for the next peer, and gives the link to it.
    fn accept(&mut self) -> Accepted<Self::Link>
        requires { IsTrue (bound self.old) }
        ensures fresh { IfAccepted result (λ link.
            IsFresh (Self.Link.faults link) (Self.Link.heard link) (Self.Link.said link)) }
        ensures closed { result ≢ Accepted.Failed → ((result ≡ Accepted.Closed)
            ↔ HasNoMore (most self.old) (given self.old) (coming self.old)) }
        ensures coming { coming self.new ≡ coming_after result (coming self.old) }
        ensures given { given self.new ≡ given_after result (given self.old) }
        ensures same_bound { bound self.new ≡ bound self.old }
        ensures same_most { most self.new ≡ most self.old }
        ensures same_ended { ended self.new ≡ ended self.old }
        ensures failed { result ≡ Accepted.Failed →
            FaultCounted (faults self.old) (faults self.new) }
        ensures never_falls { faults self.old ≤ faults self.new };

    /// Takes a link back that has served.
    fn done(&mut self, link: Self::Link)
        requires bound { IsTrue (bound self.old) }
        requires given { IfSome (ended self.old) (λ links. length links < given self.old) }
        ensures ended { ended self.new ≡ ended_after (ended self.old) link }
        ensures same_bound { bound self.new ≡ bound self.old }
        ensures same_most { most self.new ≡ most self.old }
        ensures same_coming { coming self.new ≡ coming self.old }
        ensures same_given { given self.new ≡ given self.old }
        ensures never_falls { faults self.old ≤ faults self.new };
}
