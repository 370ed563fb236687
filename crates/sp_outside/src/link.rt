ghost use Rattle.std.specs.Prelude.{◌≡◌, ◌<◌, ◌≤◌, ℕ, List, length, Option, IfSome};
ghost use Rattle.sp_outside.specs.Faults.{FaultCounted};
ghost use Rattle.sp_outside.specs.Hearing.{heard_after, said_after};
ghost use Rattle.sp_outside.specs.Putting.{TakesWithin};
ghost use Rattle.sp_outside.specs.Taking.{ComesWithin, Takes};

use crate::sink::Wrote;
use crate::source::Took;

/// A connection to a peer: bytes come from it and go to it.
pub trait Link {
    /// How many calls have failed, up to the last value of a `u64`.
    ghost faults: { Self → ℕ };

    /// The bytes that are still to come from the peer, where the link tells them.
    ghost left: { Self → Option (List ℕ) };

    /// The bytes that have come from the peer, where the link tells them.
    ghost heard: { Self → Option (List ℕ) };

    /// The bytes that the link took for the peer, where it tells them.
    ghost said: { Self → Option (List ℕ) };

    /// Takes bytes from the peer into the front of `into`.
    fn take(&mut self, into: &mut [u8]) -> Took
        requires { 0 < length into.old }
        ensures within { ComesWithin result (length into.new) }
        ensures told { IfSome (left self.old) (λ bytes.
            Takes result bytes into.new (left self.new)) }
        ensures heard { heard self.new ≡ heard_after result into.new (heard self.old) }
        ensures same_said { said self.new ≡ said self.old }
        ensures failed { result ≡ Took.Failed →
            FaultCounted (faults self.old) (faults self.new) }
        ensures never_falls { faults self.old ≤ faults self.new };

    /// Hands over a piece for the peer, of which the link takes bytes from the front.
    fn put(&mut self, piece: &[u8]) -> Wrote
        requires { 0 < length piece.now }
        ensures within { TakesWithin result (length piece.now) }
        ensures said { said self.new ≡ said_after result piece.now (said self.old) }
        ensures same_left { left self.new ≡ left self.old }
        ensures same_heard { heard self.new ≡ heard self.old }
        ensures failed { result ≡ Wrote.Failed →
            FaultCounted (faults self.old) (faults self.new) }
        ensures never_falls { faults self.old ≤ faults self.new };

    /// Tells the peer that no more bytes will come. What the peer still says can be taken.
    fn shut(&mut self)
        ensures same_left { left self.new ≡ left self.old }
        ensures same_heard { heard self.new ≡ heard self.old }
        ensures same_said { said self.new ≡ said self.old }
        ensures never_falls { faults self.old ≤ faults self.new };
}
