ghost use Rattle.std.specs.Prelude.{◌≡◌, ◌↔◌, ◌<◌, ◌≤◌, length, drop, Some, Contains};
ghost use Rattle.sp_outside.specs.Faults.{FaultCounted, one_call_more};
ghost use Rattle.sp_outside.specs.Taking.{ComesWithin, Takes, GivesAllThatFits, faults_after_take};

use crate::memory::{count_call, give_what_fits};
use crate::source::{Source, Took};

/// A source in memory, some calls of which can be made to fail.
#[derive(Debug, Drop)]
pub struct MemSource {
    pub bytes: Vec<u8>,
    /// How many bytes have come.
    pub at: usize,
    /// The numbers of the calls that fail, counted from 0.
    pub fail: Vec<u32>,
    /// How many calls there were, up to the last value.
    pub calls: u32,
    /// How many calls have failed, up to the last value.
    pub faults: u64,
}

impl Source for MemSource {
    ghost faults = { λ s. s.faults };

    ghost left = { λ s. Some (drop s.at s.bytes.items) };

    fn take(&mut self, into: &mut [u8]) -> Took
        requires { 0 < length into.old }
        ensures within { ComesWithin result (length into.new) }
        ensures told { Takes result (drop self.old.at self.old.bytes.items) into.new
            (Some (drop self.new.at self.new.bytes.items)) }
        ensures failed { result ≡ Took.Failed → FaultCounted self.old.faults self.new.faults }
        ensures never_falls { self.old.faults ≤ self.new.faults }

        // Which calls fail, how many bytes the others give, and what is counted.
        ensures fails { (result ≡ Took.Failed) ↔ Contains self.old.fail.items self.old.calls }
        ensures all_that_fit { GivesAllThatFits result (drop self.old.at self.old.bytes.items)
            (length into.new) }
        ensures calls { self.new.calls ≡ one_call_more self.old.calls }
        ensures faults { self.new.faults ≡ faults_after_take result self.old.faults }
        ensures kept { self.new ≡ record self.old {
          at = self.new.at;
          calls = self.new.calls;
          faults = self.new.faults;
        } }
    {
        if count_call(self.fail.as_slice(), &mut self.calls, &mut self.faults) {
            return Took::Failed;
        }
        give_what_fits(self.bytes.as_slice(), &mut self.at, into)
    }
}
