ghost use Rattle.std.specs.Prelude.{◌≡◌, ◌↔◌, ◌⊎◌, ◌<◌, ◌≤◌, ◌-◌, [], length, vec_len, vec_capacity};
ghost use Rattle.std.specs.Prelude.{Some, IfOk, Contains};
ghost use Rattle.sp_outside.specs.Faults.{FaultCounted, one_call_more};
ghost use Rattle.sp_outside.specs.Putting.{TakesWithin, Puts, TakesAllThatFits, faults_after_put};

use crate::memory::{count_call, keep_what_fits};
use crate::sink::{Sink, Wrote};
use sp_base::Memory;
use std::alloc::Global;

/// A sink in memory with room for so many bytes, some calls of which can be made to fail.
#[derive(Debug, Drop)]
pub struct MemSink {
    /// The bytes that were taken.
    pub held: Vec<u8>,
    /// How many bytes there is room for in all.
    pub room: u64,
    /// The numbers of the calls that fail, counted from 0.
    pub fail: Vec<u32>,
    /// How many calls there were, up to the last value.
    pub calls: u32,
    /// How many calls have failed, up to the last value.
    pub faults: u64,
    ghost has_room: { room ≤ vec_capacity held },
}

impl MemSink {
    /// An empty sink, with memory for all that there is room for.
    pub fn of(alloc: Global, room: u64, fail: Vec<u32>) -> Result<MemSink, Memory>
        ensures empty { IfOk result (λ sink. sink.held.items ≡ []) }
        ensures room { IfOk result (λ sink. sink.room ≡ room) }
        ensures fail { IfOk result (λ sink. sink.fail ≡ fail) }
        ensures counts { IfOk result (λ sink. (sink.calls ≡ 0) × (sink.faults ≡ 0)) }
    {
        let held = Vec::with_capacity(alloc, room as usize)?;
        Ok(MemSink {
            held,
            room,
            fail,
            calls: 0,
            faults: 0,
        })
    }
}

impl Sink for MemSink {
    ghost faults = { λ s. s.faults };

    ghost held = { λ s. Some s.held.items };

    fn put(&mut self, piece: &[u8]) -> Wrote
        requires { 0 < length piece.now }
        ensures within { TakesWithin result (length piece.now) }
        ensures told { Puts result self.old.held.items piece.now (Some self.new.held.items) }
        ensures failed { result ≡ Wrote.Failed → FaultCounted self.old.faults self.new.faults }
        ensures never_falls { self.old.faults ≤ self.new.faults }

        // Which calls fail, how many bytes the others take, and what is counted.
        ensures fails { (result ≡ Wrote.Failed) ↔ (Contains self.old.fail.items self.old.calls
            ⊎ (self.old.room ≤ vec_len self.old.held)) }
        ensures all_that_fit { TakesAllThatFits result (length piece.now)
            (self.old.room - vec_len self.old.held) }
        ensures calls { self.new.calls ≡ one_call_more self.old.calls }
        ensures faults { self.new.faults ≡ faults_after_put result self.old.faults }
        ensures same_room { self.new.room ≡ self.old.room }
        ensures same_fail { self.new.fail ≡ self.old.fail }
    {
        if count_call(self.fail.as_slice(), &mut self.calls, &mut self.faults) {
            return Wrote::Failed;
        }
        keep_what_fits(&mut self.held, self.room, &mut self.faults, piece)
    }
}
