//! The command `drill`.

ghost use Rattle.std.specs.Prelude.{◌≡◌, ◌≤◌, ◌⊎◌, IfSome, IfOk};
ghost use Rattle.sp_outside.specs.Faults.{FaultCounted};
ghost use Rattle.splinter.specs.Drilling.{Drills, HasPlay, IsDrillOf};

use crate::counts::counts_of_drill;
use crate::status::Status;
use crate::verdict::write;
use load_gen::MOST_CALLS;
use report::summary;
use sp_base::{Blob, Memory};
use sp_outside::Sink;
use std::alloc::Global;

/// Plays the drill with so many calls, on keys that the seed chooses, and writes its summary.
pub fn drill_command<K: Sink>(alloc: Global, count: u32, seed: u64, sink: &mut K) -> Status
    requires { count ≤ MOST_CALLS }
    // What is written, where the sink tells its content.
    ensures told { IfSome (K.held sink.old) (λ held. Drills result count seed held (K.held sink.new)) }
    // What the status tells of the play, whatever the sink shows of itself.
    ensures played { HasPlay result count seed }
    // Why it stopped. Where no fault was counted it ends Ok, or for want of memory.
    ensures fault { result ≡ Status.WriteFault → FaultCounted (K.faults sink.old) (K.faults sink.new) }
    ensures faults { K.faults sink.old ≤ K.faults sink.new }
    ensures ends { (result ≡ Status.Ok) ⊎ ((result ≡ Status.WriteFault) ⊎ (result ≡ Status.Memory)) }
    ensures nothing { result ≡ Status.Memory → sink.new ≡ sink.old }
{
    match summary_of_drill(alloc, count, seed) {
        Ok(text) => write(sink, text.bytes(), Status::Ok),
        Err(Memory) => Status::Memory,
    }
}

/// The five lines of a drill.
fn summary_of_drill(alloc: Global, count: u32, seed: u64) -> Result<Blob, Memory>
    requires { count ≤ MOST_CALLS }
    ensures { IfOk result (λ text. IsDrillOf count seed text) }
{
    let counts = counts_of_drill(alloc, count, seed)?;
    summary(alloc, &counts)
}
