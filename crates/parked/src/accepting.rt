ghost use Rattle.std.specs.Prelude.{◌≡◌, IsTrue, IfOk, IfErr, OnOk, Some, None};
ghost use Rattle.std.specs.List.{AllByRecursion};
ghost use Rattle.sp_base.specs.RightsList.{can_write};
ghost use Rattle.parked.specs.Taking.{refusal_of};

use crate::finish::Finish;
use crate::refused::Refused;
use crate::shapes::{foreign, has_twice, is_unfinished};
use rw_set::Sent;
use sp_base::{MOST_WRITES, Outcome, Rights, Write};
use task::Parked;

/// Why a run with this end is not taken under these rights: the first reason, by its shape and then by
/// its tables.
fn refusal(rights: &Rights, outcome: &Outcome, writes: &[Write]) -> Option<Refused>
    ensures { result ≡ refusal_of rights.now outcome.now writes.now }
{
    if writes.len() > MOST_WRITES {
        return Some(Refused::Shape(1));
    }
    if has_twice(writes) {
        return Some(Refused::Shape(2));
    }
    if is_unfinished(outcome, writes) {
        return Some(Refused::Shape(3));
    }
    foreign(rights, writes)
}

/// Takes what a client sent as the end of its parked call, where its shape and its tables allow it.
/// What is refused gives the parked call back. No memory is needed.
pub fn accept(parked: Parked, rights: &Rights, finish: Finish) -> Result<Sent, (Refused, Parked)>
    // A refusal is the first of what the end may be refused for, and comes exactly where there is one.
    ensures ok { OnOk result (refusal_of rights.now finish.outcome finish.writes ≡ None) }
    ensures refused { IfErr result (λ refused. refusal_of rights.now finish.outcome finish.writes ≡ Some refused.0) }
    ensures back { IfErr result (λ refused. refused.1 ≡ parked) }
    // The run is the parked call, on the reads that were kept for it, with the end that was sent.
    ensures call { IfOk result (λ sent. sent.call ≡ parked.call) }
    ensures reads { IfOk result (λ sent. sent.reads ≡ parked.reads) }
    ensures outcome { IfOk result (λ sent. sent.outcome ≡ finish.outcome) }
    ensures writes { IfOk result (λ sent. sent.writes ≡ finish.writes) }
    ensures within { IfOk result (λ sent. AllByRecursion (λ write. IsTrue (can_write rights.now write.table.0)) sent.writes) }
{
    if let Some(refused) = refusal(rights, &finish.outcome, finish.writes.as_slice()) {
        return Err((refused, parked));
    }
    let Finish { outcome, writes } = finish;
    let (call, reads) = parked.parts();
    Ok(Sent {
        call,
        reads,
        outcome,
        writes,
    })
}
