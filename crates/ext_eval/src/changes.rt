ghost use Rattle.std.specs.Prelude.{◌≡◌, IfOk};
ghost use Rattle.sp_base.specs.Places.{Place, same_place};
ghost use Rattle.ext_mean.specs.MeaningValues.{changed, place_changed};
ghost use Rattle.ext_mean.specs.MeaningStatements.{del, overwrite, put, resp, write};
ghost use Rattle.ext_eval.specs.Finding.{first_from};
ghost use Rattle.ext_eval.specs.Gives.{Gives};
ghost use Rattle.ext_eval.specs.Worlds.{world_of};

use crate::bytes::{fits, is_key, key_of, overwritten};
use crate::halt::Halt;
use crate::locals::{assign, variable};
use crate::records::is_write_at;
use crate::rights::can_write;
use crate::steps::require;
use crate::values::{buffer_of, with_bytes};
use crate::world::World;
use ext_mean::{Name, State, Value};
use sp_base::{Blob, Change, MOST_REPLY, MOST_WRITES, Memory, TableId, Trap, Write, Writes};
use std::alloc::Global;
use std::mem;

/// Where among the changes the one of a place stands.
fn place_of_change(writes: &[Write], table: u64, key: &[u8]) -> Option<usize>
    ensures { let place : Place = record { table = table; key = key.now } in
        result ≡ first_from (λ write. same_place (place_changed write) place) 0 writes.now }
{
    for (at, write) in writes.iter().enumerate() {
        if is_write_at(write, table, key) {
            return Some(at);
        }
    }
    None
}

/// The changes after one more: it takes the place of the one at its own place, or is the last.
#[tactic(auto, using(crate::proofs::FindingLemmas::finding))]
fn changed(mut writes: Vec<Write>, pending: Option<usize>, new: Write) -> Result<Vec<Write>, Memory>
    requires { pending
        ≡ first_from (λ write. same_place (place_changed write) (place_changed new)) 0 writes.items }
    ensures { IfOk result (λ after. after.items ≡ changed new writes.items) }
{
    match pending {
        Some(at) => {
            writes[at] = new;
            Ok(writes)
        }
        None => {
            writes.push(new)?;
            Ok(writes)
        }
    }
}

/// A change of one record, which is new where nothing is pending at its place.
#[tactic(auto, using(crate::proofs::FindingLemmas::finding))]
fn write(alloc: Global, state: &mut State, new: Write) -> Result<(), Halt>
    ensures { Gives result state.new (write new state.old) }
{
    let table = u64::from(new.table.0);
    let pending = place_of_change(state.writes.as_slice(), table, new.key.bytes());
    let room = pending.is_some() || state.writes.len() < MOST_WRITES;
    require(state, room, Trap::Size)?;
    let writes = mem::replace(&mut state.writes, Writes::new(alloc)).into_vec();
    let after = changed(writes, pending, new)?;
    state.writes = Writes::from_vec(after);
    Ok(())
}

/// `put` of a buffer.
pub fn put(world: &World, state: &mut State, buffer: Value) -> Result<(), Halt>
    ensures { Gives result state.new (put buffer state.old) }
{
    match buffer {
        Value::Buf(buffer) => write(
            world.alloc,
            state,
            Write {
                table: buffer.table,
                key: buffer.key,
                change: Change::Put(buffer.bytes),
            },
        ),
        _ => Ok(()),
    }
}

/// `del(table, key)`
pub fn del(world: &World, state: &mut State, table: u64, key: &[u8]) -> Result<(), Halt>
    ensures { Gives result state.new (del (world_of world.now) table key.now state.old) }
{
    require(state, is_key(key), Trap::Size)?;
    require(state, can_write(world.rights, table), Trap::Denied)?;
    let key = key_of(world.alloc, key)?;
    let table = TableId(table as u32);
    let change = Change::Del;
    write(world.alloc, state, Write { table, key, change })
}

/// `resp(bytes)`: the reply has at most 4,096 bytes.
pub fn resp(world: &World, state: &mut State, bytes: &[u8]) -> Result<(), Halt>
    ensures { Gives result state.new (resp bytes.now state.old) }
{
    let room = fits(state.reply.len() as u64, bytes.len() as u64, MOST_REPLY);
    require(state, room, Trap::Size)?;
    let empty = Blob::from_vec(Vec::new(world.alloc));
    let mut reply = mem::replace(&mut state.reply, empty).into_vec();
    reply.extend_from_slice(bytes)?;
    state.reply = Blob::from_vec(reply);
    Ok(())
}

/// Bytes written into the buffer of a variable, where they are within it.
pub fn overwrite(
    world: &World,
    state: &mut State,
    name: &Name,
    place: u64,
    bytes: &[u8],
) -> Result<(), Halt>
    ensures { Gives result state.new (overwrite name.now place bytes.now state.old) }
{
    let buffer = variable(world, state, name)?;
    let old = buffer_of(&buffer);
    let within = fits(place, bytes.len() as u64, old.len());
    require(state, within, Trap::Range)?;
    let new = overwritten(world.alloc, old, place as usize, bytes)?;
    let buffer = with_bytes(world.alloc, &buffer, new)?;
    assign(world, state, name, buffer)
}
