ghost use Rattle.std.specs.Prelude.{◌≡◌, length, IfOk};
ghost use Rattle.ext_mean.specs.Views.{part};
ghost use Rattle.ext_mean.specs.Meaning.{main_of, mean, start};
ghost use Rattle.ext_eval.specs.Gives.{Gives};
ghost use Rattle.ext_eval.specs.Worlds.{world_of};

use crate::halt::Halt;
use crate::statements::called;
use crate::values::number_of;
use crate::world::World;
use ext_mean::{Program, Run, State, Value};
use sp_base::{Blob, Memory, ReadItem, Reply, Rights, Writes};
use sqlite_items::{Items, at};
use std::alloc::Global;

/// A run begins with nothing used, an empty reply, no changes and no variables.
fn start(alloc: Global) -> State
    ensures { result ≡ start }
{
    State {
        used: 0,
        reply: Blob::from_vec(Vec::new(alloc)),
        writes: Writes::new(alloc),
        locals: Items::new(alloc),
    }
}

/// Runs the last function, which is `main`.
#[tactic(auto, using(crate::proofs::CallLemmas::mains))]
fn run_main(world: &World, state: &mut State) -> Result<Value, Halt>
    ensures { Gives result state.new
        (main_of (world_of world.now) world.now.functions.now (length world.now.functions.now) state.old) }
{
    let count = world.functions.len();
    if count == 0 {
        return Ok(Value::Int(0));
    }
    let last = count - 1;
    let main = at(world.functions, last);
    match main {
        None => Ok(Value::Int(0)),
        Some(main) => {
            let callee = world.of_callee(last);
            called(&callee, state, main, &[])
        }
    }
}

/// The meaning of a program with these arguments and this budget, on the records that were read.
#[tactic(auto, unfolding(ext_mean::specs::Meaning::mean))]
pub fn eval(
    alloc: Global,
    program: &Program,
    args: &[u8],
    budget: u32,
    rights: &Rights,
    reads: &[ReadItem],
) -> Result<Run, Memory>
    ensures { IfOk result (λ run. run ≡ mean program.now args.now budget (part reads.now rights.now)) }
{
    let functions = program.functions.as_slice();
    let world = World {
        alloc,
        args,
        budget,
        rights,
        reads,
        functions,
        below: functions.len(),
    };
    let mut state = start(alloc);
    let ended = run_main(&world, &mut state);
    match ended {
        Ok(result) => Ok(Run::Done {
            reply: Reply {
                code: number_of(&result),
                bytes: state.reply,
            },
            writes: state.writes,
            used: state.used,
        }),
        Err(Halt::Ended(run)) => Ok(run),
        Err(Halt::Memory) => Err(Memory),
    }
}
