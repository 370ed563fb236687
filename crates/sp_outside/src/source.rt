ghost use Rattle.std.specs.Prelude.{◌≡◌, ◌<◌, ◌≤◌, ℕ, List, length, Option, IfSome};
ghost use Rattle.sp_outside.specs.Faults.{FaultCounted};
ghost use Rattle.sp_outside.specs.Taking.{ComesWithin, Takes};

/// What a source answers.
#[derive(Clone, Copy, Debug, PartialEq, Eq)]
pub enum Took {
    /// So many bytes came.
    Bytes(usize),
    /// There are no more bytes.
    End,
    /// Nothing came, and a fault was counted.
    Failed,
}

/// Where bytes come from.
pub trait Source {
    /// How many calls have failed, up to the last value of a `u64`.
    ghost faults: { Self → ℕ };

    /// The bytes that are still to come, where the source tells them.
    ghost left: { Self → Option (List ℕ) };

    /// Takes bytes into the front of `into`.
    fn take(&mut self, into: &mut [u8]) -> Took
        requires { 0 < length into.old }
        ensures within { ComesWithin result (length into.new) }
        ensures told { IfSome (left self.old) (λ bytes.
            Takes result bytes into.new (left self.new)) }
        ensures failed { result ≡ Took.Failed →
            FaultCounted (faults self.old) (faults self.new) }
        ensures never_falls { faults self.old ≤ faults self.new };
}
