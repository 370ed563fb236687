ghost use Rattle.std.specs.Prelude.{◌≡◌, ◌≤◌, length, IfSome};
ghost use Rattle.sp_outside.specs.Faults.{FaultCounted};
ghost use Rattle.sp_outside.specs.Writing.{Writes};

use crate::sink::{Sink, Wrote};

/// How writing a text ended.
#[derive(Clone, Copy, Debug, PartialEq, Eq)]
pub enum Written {
    /// The sink took all of it.
    Whole,
    /// The sink failed, and took a prefix.
    Failed,
}

/// Writes a text, in as many calls as the sink needs. An empty text needs none.
pub fn write_output<K: Sink>(sink: &mut K, text: &[u8]) -> Written
    ensures told { IfSome (K.held sink.old) (λ held.
        Writes result held text.now (K.held sink.new)) }
    ensures failed { result ≡ Written.Failed →
        FaultCounted (K.faults sink.old) (K.faults sink.new) }
    ensures never_falls { K.faults sink.old ≤ K.faults sink.new }
    ensures empty { length text.now ≡ 0 →
        (result ≡ Written.Whole) × (sink.new ≡ sink.old) }
{
    if text.is_empty() {
        return Written::Whole;
    }
    let mut done = 0;
    while done < text.len() {
        match sink.put(&text[done..]) {
            Wrote::Bytes(n) => done += n,
            Wrote::Failed => return Written::Failed,
        }
    }
    Written::Whole
}
