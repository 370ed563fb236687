ghost use Rattle.std.specs.Prelude.{◌≡◌, ◌<◌, ◌≤◌, ℕ, List, length, Option, IfSome};
ghost use Rattle.sp_outside.specs.Faults.{FaultCounted};
ghost use Rattle.sp_outside.specs.Putting.{TakesWithin, Puts};

/// What a sink answers.
#[derive(Clone, Copy, Debug, PartialEq, Eq)]
pub enum Wrote {
    /// So many bytes of the piece were taken.
    Bytes(usize),
    /// Nothing was taken, and a fault was counted.
    Failed,
}

/// Where bytes go.
pub trait Sink {
    /// How many calls have failed, up to the last value of a `u64`.
    ghost faults: { Self → ℕ };

    /// The bytes that were taken, where the sink tells them.
    ghost held: { Self → Option (List ℕ) };

    /// Hands over a piece, of which the sink takes bytes from the front.
    fn put(&mut self, piece: &[u8]) -> Wrote
        requires { 0 < length piece.now }
        ensures within { TakesWithin result (length piece.now) }
        ensures told { IfSome (held self.old) (λ bytes.
            Puts result bytes piece.now (held self.new)) }
        ensures failed { result ≡ Wrote.Failed →
            FaultCounted (faults self.old) (faults self.new) }
        ensures never_falls { faults self.old ≤ faults self.new };
}
