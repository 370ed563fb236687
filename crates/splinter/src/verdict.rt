//! What a command tells of its input, and how it is written.

ghost use Rattle.std.specs.Prelude.{◌≡◌, ◌≢◌, ◌≤◌, ◌⊎◌, IfSome};
ghost use Rattle.sp_outside.specs.Faults.{FaultCounted};
ghost use Rattle.splinter.specs.Ending.{WritesText};

use crate::status::Status;
use report::Text;
use sp_outside::{Sink, Written, write_output};

/// What is to be written of an input, and the status once it is written.
#[derive(Drop)]
pub struct Verdict {
    pub status: Status,
    pub text: Text,
}

/// Writes a text, and answers this status where all of it was written.
pub fn write<K: Sink>(sink: &mut K, text: &[u8], status: Status) -> Status
    ensures told { IfSome (K.held sink.old) (λ held. WritesText result status held text.now (K.held sink.new)) }
    ensures fault { status ≢ Status.WriteFault → result ≡ Status.WriteFault
        → FaultCounted (K.faults sink.old) (K.faults sink.new) }
    ensures ends { (result ≡ status) ⊎ (result ≡ Status.WriteFault) }
    ensures faults { K.faults sink.old ≤ K.faults sink.new }
{
    match write_output(sink, text) {
        Written::Whole => status,
        Written::Failed => Status::WriteFault,
    }
}
