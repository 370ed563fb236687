ghost use Rattle.std.specs.Arc.{arc_value};
ghost use Rattle.ext_mean.specs.Asked.{AreAsked, IsComplete};
ghost use Rattle.ext_mean.specs.Meaning.{mean};
ghost use Rattle.ext_mean.specs.Outcomes.{EndsWith};
ghost use Rattle.ext_mean.specs.Views.{part};

use crate::read_set::ReadSet;
use ext_mean::Program;
use sp_base::{Call, Outcome, Rights, Writes};
use std::sync::Arc;

/// A run that has ended: what its program means on the records that it read, and these are in order
/// the records that it asked for.
#[derive(Drop)]
pub struct Finished {
    pub call: Call,
    pub program: Arc<Program>,
    /// The rights with which it ran.
    pub rights: Rights,
    pub reads: ReadSet,
    pub outcome: Outcome,
    pub writes: Writes,
    pub ghost meant: { EndsWith (mean (arc_value program) call.args call.budget (part reads rights)) outcome writes },
    pub ghost asked: { AreAsked (arc_value program) call.args call.budget rights reads },
    pub ghost complete: { IsComplete (arc_value program) call.args call.budget rights reads },
}
