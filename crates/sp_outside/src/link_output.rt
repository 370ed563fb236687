ghost use Rattle.std.specs.Prelude.{◌≡◌, ◌≤◌, length};
ghost use Rattle.sp_outside.specs.Faults.{FaultCounted};
ghost use Rattle.sp_outside.specs.Hearing.{SaysAll};

use crate::link::Link;
use crate::output::Written;
use crate::sink::Wrote;

/// Puts a whole piece to a link, in as many calls as it needs. An empty piece needs none.
pub fn write_link<L: Link>(link: &mut L, piece: &[u8]) -> Written
    ensures said { SaysAll result piece.now (L.said link.old) (L.said link.new) }
    ensures same_left { L.left link.new ≡ L.left link.old }
    ensures same_heard { L.heard link.new ≡ L.heard link.old }
    ensures failed { result ≡ Written.Failed →
        FaultCounted (L.faults link.old) (L.faults link.new) }
    ensures never_falls { L.faults link.old ≤ L.faults link.new }
    ensures empty { length piece.now ≡ 0 → (result ≡ Written.Whole) × (link.new ≡ link.old) }
{
    if piece.is_empty() {
        return Written::Whole;
    }
    let mut done = 0;
    while done < piece.len() {
        match link.put(&piece[done..]) {
            Wrote::Bytes(n) => done += n,
            Wrote::Failed => return Written::Failed,
        }
    }
    Written::Whole
}
