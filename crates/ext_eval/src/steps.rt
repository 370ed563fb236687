ghost use Rattle.ext_mean.specs.Work.{charge, require};
ghost use Rattle.ext_eval.specs.Gives.{Gives};
ghost use Rattle.ext_eval.specs.Worlds.{world_of};

use crate::halt::Halt;
use crate::world::World;
use ext_mean::{Run, State};
use sp_base::Trap;

/// A charge is made before its work, and one that does not fit the budget ends the run as spent.
pub fn charge(world: &World, state: &mut State, units: u32) -> Result<(), Halt>
    ensures { Gives result state.new (charge (world_of world.now) units state.old) }
{
    if u64::from(state.used) + u64::from(units) > u64::from(world.budget) {
        return Err(Halt::Ended(Run::Spent));
    }
    state.used += units;
    Ok(())
}

/// A test of the language: where it fails, the run is trapped.
pub fn require(state: &mut State, test: bool, trap: Trap) -> Result<(), Halt>
    ensures { Gives result state.new (require test trap state.old) }
{
    if test {
        return Ok(());
    }
    Err(Halt::Ended(Run::Trapped {
        trap,
        used: state.used,
    }))
}
