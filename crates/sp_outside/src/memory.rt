//! What the forms in memory share.
ghost use Rattle.std.specs.Prelude.{◌≡◌, ◌≢◌, ◌↔◌, ◌<◌, ◌≤◌, ◌-◌, length, take, drop};
ghost use Rattle.std.specs.Prelude.{vec_len, vec_capacity, IsTrue, Contains, Some, if◌then◌else◌};
ghost use Rattle.sp_outside.specs.Faults.{one_call_more, one_fault_more};
ghost use Rattle.sp_outside.specs.Hearing.{heard_after};
ghost use Rattle.sp_outside.specs.Putting.{TakesWithin, Puts, TakesAllThatFits, faults_after_put};
ghost use Rattle.sp_outside.specs.Taking.{ComesWithin, Takes, GivesAllThatFits};

use crate::sink::Wrote;
use crate::source::Took;

/// Counts a call, and a fault where the list names the call's number. Returns whether it does.
pub(crate) fn count_call(fail: &[u32], calls: &mut u32, faults: &mut u64) -> bool
    ensures named { IsTrue result ↔ Contains fail.now calls.old }
    ensures calls { calls.new ≡ one_call_more calls.old }
    ensures faults { faults.new ≡ (if result then one_fault_more faults.old else faults.old) }
    ensures never_falls { faults.old ≤ faults.new }
{
    let is_named = fail.contains(calls);
    *calls = calls.saturating_add(1);
    if is_named {
        *faults = faults.saturating_add(1);
    }
    is_named
}

/// Gives what fits of the bytes from `at` on.
pub(crate) fn give_what_fits(bytes: &[u8], at: &mut usize, into: &mut [u8]) -> Took
    requires { 0 < length into.old }
    ensures within { ComesWithin result (length into.new) }
    ensures told { Takes result (drop at.old bytes.now) into.new (Some (drop at.new bytes.now)) }
    ensures heard { Some (take at.new bytes.now)
        ≡ heard_after result into.new (Some (take at.old bytes.now)) }
    ensures all_that_fit { GivesAllThatFits result (drop at.old bytes.now) (length into.new) }
    ensures never { result ≢ Took.Failed }
{
    let Some(rest) = bytes.get(*at..) else {
        return Took::End;
    };
    if rest.is_empty() {
        return Took::End;
    }
    let n = rest.len().min(into.len());
    into[..n].copy_from_slice(&rest[..n]);
    *at += n;
    Took::Bytes(n)
}

/// Keeps what fits of a piece into the room that is there in all. Without room it counts a fault.
pub(crate) fn keep_what_fits(held: &mut Vec<u8>, room: u64, faults: &mut u64, piece: &[u8]) -> Wrote
    requires some { 0 < length piece.now }
    requires has_room { room ≤ vec_capacity held.old }
    ensures within { TakesWithin result (length piece.now) }
    ensures told { Puts result held.old.items piece.now (Some held.new.items) }
    ensures fails { (result ≡ Wrote.Failed) ↔ (room ≤ vec_len held.old) }
    ensures all_that_fit { TakesAllThatFits result (length piece.now) (room - vec_len held.old) }
    ensures faults { faults.new ≡ faults_after_put result faults.old }
    ensures never_falls { faults.old ≤ faults.new }
    ensures has_room { room ≤ vec_capacity held.new }
{
    if held.len() as u64 >= room {
        *faults = faults.saturating_add(1);
        return Wrote::Failed;
    }
    let n = piece.len().min(room as usize - held.len());
    // The memory is there, so this cannot fail.
    let _ = held.extend_from_slice(&piece[..n]);
    Wrote::Bytes(n)
}
