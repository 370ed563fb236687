ghost use Rattle.std.specs.Prelude.{◌≡◌, ◌≢◌, ◌<◌, length, drop, None, Some};
ghost use Rattle.sp_outside.specs.Taking.{ComesWithin, Takes, GivesAllThatFits};

use crate::memory::give_what_fits;
use crate::sink::{Sink, Wrote};
use crate::source::{Source, Took};

/// A source in memory that never fails.
#[derive(Debug, Drop)]
pub struct SureSource {
    pub bytes: Vec<u8>,
    /// How many bytes have come.
    pub at: usize,
}

impl Source for SureSource {
    ghost faults = { λ _. 0 };

    ghost left = { λ s. Some (drop s.at s.bytes.items) };

    fn take(&mut self, into: &mut [u8]) -> Took
        requires { 0 < length into.old }
        ensures within { ComesWithin result (length into.new) }
        ensures told { Takes result (drop self.old.at self.old.bytes.items) into.new
            (Some (drop self.new.at self.new.bytes.items)) }
        ensures never { result ≢ Took.Failed }
        ensures all_that_fit { GivesAllThatFits result (drop self.old.at self.old.bytes.items)
            (length into.new) }
        ensures kept { self.new ≡ record self.old { at = self.new.at } }
    {
        give_what_fits(self.bytes.as_slice(), &mut self.at, into)
    }
}

/// A sink that drops what it takes, and never fails.
#[derive(Debug, Drop)]
pub struct SureSink;

impl Sink for SureSink {
    ghost faults = { λ _. 0 };

    ghost held = { λ _. None };

    fn put(&mut self, piece: &[u8]) -> Wrote
        requires { 0 < length piece.now }
        ensures { result ≡ Wrote.Bytes (length piece.now) }
    {
        Wrote::Bytes(piece.len())
    }
}
