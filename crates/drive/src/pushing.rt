//! Calls that go on are handed back to their clients, where the placement rule says so and the session has room.

ghost use Rattle.std.specs.Prelude.{◌≡◌, ◌≤◌, ◌<◌, ◌+◌, length};
ghost use Rattle.drive.specs.Placing.{IsOfTask, goes_away, handed_by, placed, placed_turn};

use crate::running::Passed;
use book::End;
use parked::place;
use session::Begun;
use sp_base::Policy;
use std::collections::VecDeque;
use task::{Parked, Task};

/// What decides whether a call that goes on is handed back.
#[derive(Clone, Copy, Debug)]
pub struct Placement {
    pub policy: Policy,
    /// How many calls are live, this one among them.
    pub load: u32,
    /// How many calls more the session can park.
    pub room: u32,
}

/// How many calls are live while one of them has its turn: it and the others.
pub fn load_with(others: &VecDeque<Begun>) -> u32
    requires few { length others.now.items < 64 }
    ensures { result ≡ length others.now.items + 1 }
{
    others.len() as u32 + 1
}

/// Whether a call that goes on is handed back.
fn goes_away(placement: Placement, task: &Task) -> bool
    ensures { result ≡ goes_away placement task.now }
{
    let Placement { policy, load, room } = placement;
    let bytes = task.reads().weight();
    0 < room && place(policy, load, task.spent(), bytes, task.call().push_ok)
}

/// A call that goes on stays live, or is handed back.
fn place_one(placement: Placement, task: Task) -> Passed
    ensures { result ≡ placed placement task }
{
    if !goes_away(placement, &task) {
        return Passed::GoesOn(task);
    }
    let load = placement.load;
    let spent = task.spent();
    let parked = Parked::of(task);
    Passed::Ends(End::Pushed {
        load,
        spent,
        parked,
    })
}

/// What becomes of a call behind its turn.
pub fn place_turned(placement: Placement, turned: Passed) -> Passed
    ensures placed { result ≡ placed_turn placement turned }
    ensures task { IsOfTask turned }
{
    match turned {
        Passed::GoesOn(task) => {
            let _kept = task.spent();
            place_one(placement, task)
        }
        Passed::Ends(end) => Passed::Ends(end),
    }
}

/// How many calls more the session can park behind a turn.
pub fn room_behind(room: u32, passed: &Passed) -> u32
    requires { handed_by passed.now ≤ room }
    ensures { result + handed_by passed.now ≡ room }
{
    match passed {
        Passed::Ends(End::Pushed { .. }) => room - 1,
        Passed::Ends(End::Settled(_)) | Passed::Ends(End::Memory) | Passed::GoesOn(_) => room,
    }
}
