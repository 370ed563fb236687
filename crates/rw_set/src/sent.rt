ghost use Rattle.std.specs.Prelude.{◌≢◌, ◌≤◌, [], IsTrue, length, map};
ghost use Rattle.std.specs.List.{IsDistinct};
ghost use Rattle.std.proofs.Props.{props};
ghost use Rattle.sp_base.specs.Places.{same_place};
ghost use Rattle.ext_mean.specs.MeaningValues.{place_changed};
ghost use Rattle.rw_set.specs.Sending.{is_done};

use crate::read_set::ReadSet;
use sp_base::{Call, Outcome, Writes};

/// The run of a call that its client sent: at most 64 writes, of distinct places, and none beside an
/// outcome other than Done. Whether it is what the program means is another matter.
#[derive(Drop)]
pub struct Sent {
    pub call: Call,
    pub reads: ReadSet,
    pub outcome: Outcome,
    pub writes: Writes,
    pub ghost distinct: { IsDistinct same_place (map place_changed writes) } by { Prim.hlevel props },
    pub ghost few: { length writes ≤ 64 },
    pub ghost shaped: { writes ≢ [] → IsTrue (is_done outcome) },
}
