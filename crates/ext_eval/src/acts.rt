ghost use Rattle.std.specs.Prelude.{map};
ghost use Rattle.ext_mean.specs.Work.{in_order};
ghost use Rattle.ext_mean.specs.MeaningExpressions.{evaluate};
ghost use Rattle.ext_eval.specs.Acts.{assigns, copies, declares, deletes, puts, responds, returns, sets, sets_word};
ghost use Rattle.ext_eval.specs.Gives.{Gives};
ghost use Rattle.ext_eval.specs.Worlds.{world_of};

use crate::changes::{del, overwrite, put, resp};
use crate::expressions::evaluate;
use crate::halt::Halt;
use crate::locals::{assign, declare, variable};
use crate::steps::require;
use crate::values::{bytes_of, number_of};
use crate::world::World;
use ext_mean::{Expr, Name, State, Value};
use sp_base::Trap;
use sqlite_items::Items;

/// `let name: kind = value;`
pub fn declares(
    world: &World,
    state: &mut State,
    name: &Name,
    value: &Expr,
) -> Result<Option<Value>, Halt>
    ensures { Gives result state.new (declares (world_of world.now) name.now value.now state.old) }
{
    let value = evaluate(world, state, value)?;
    declare(world, state, name, value)?;
    Ok(None)
}

/// `name = value;`
pub fn assigns(
    world: &World,
    state: &mut State,
    name: &Name,
    value: &Expr,
) -> Result<Option<Value>, Halt>
    ensures { Gives result state.new (assigns (world_of world.now) name.now value.now state.old) }
{
    let value = evaluate(world, state, value)?;
    assign(world, state, name, value)?;
    Ok(None)
}

/// `set(name, place, value);`: one byte.
pub fn sets(
    world: &World,
    state: &mut State,
    name: &Name,
    place: &Expr,
    value: &Expr,
) -> Result<Option<Value>, Halt>
    ensures { Gives result state.new (sets (world_of world.now) name.now place.now value.now state.old) }
{
    let place = evaluate(world, state, place)?;
    let value = evaluate(world, state, value)?;
    let number = number_of(&value);
    require(state, number < 256, Trap::Range)?;
    overwrite(world, state, name, number_of(&place), &[number as u8])?;
    Ok(None)
}

/// `set8(name, place, value);`: eight bytes, little endian.
pub fn sets_word(
    world: &World,
    state: &mut State,
    name: &Name,
    place: &Expr,
    value: &Expr,
) -> Result<Option<Value>, Halt>
    ensures { Gives result state.new (sets_word (world_of world.now) name.now place.now value.now state.old) }
{
    let place = evaluate(world, state, place)?;
    let value = evaluate(world, state, value)?;
    let bytes = number_of(&value).to_le_bytes();
    overwrite(world, state, name, number_of(&place), &bytes)?;
    Ok(None)
}

/// `copy(name, place, source);`
pub fn copies(
    world: &World,
    state: &mut State,
    name: &Name,
    place: &Expr,
    source: &Expr,
) -> Result<Option<Value>, Halt>
    ensures { Gives result state.new (copies (world_of world.now) name.now place.now source.now state.old) }
{
    let place = evaluate(world, state, place)?;
    let source = evaluate(world, state, source)?;
    overwrite(world, state, name, number_of(&place), bytes_of(&source))?;
    Ok(None)
}

/// `put(name);`: the buffer becomes the change at its place.
pub fn puts(world: &World, state: &mut State, name: &Name) -> Result<Option<Value>, Halt>
    ensures { Gives result state.new (puts name.now state.old) }
{
    let buffer = variable(world, state, name)?;
    put(world, state, buffer)?;
    Ok(None)
}

/// `del(table, key);`
pub fn deletes(
    world: &World,
    state: &mut State,
    table: &Expr,
    key: &Expr,
) -> Result<Option<Value>, Halt>
    ensures { Gives result state.new (deletes (world_of world.now) table.now key.now state.old) }
{
    let table = evaluate(world, state, table)?;
    let key = evaluate(world, state, key)?;
    del(world, state, number_of(&table), bytes_of(&key))?;
    Ok(None)
}

/// `resp(value);`: the bytes join the reply.
pub fn responds(world: &World, state: &mut State, value: &Expr) -> Result<Option<Value>, Halt>
    ensures { Gives result state.new (responds (world_of world.now) value.now state.old) }
{
    let value = evaluate(world, state, value)?;
    resp(world, state, bytes_of(&value))?;
    Ok(None)
}

/// `return value;`
pub fn returns(world: &World, state: &mut State, value: &Expr) -> Result<Option<Value>, Halt>
    ensures { Gives result state.new (returns (world_of world.now) value.now state.old) }
{
    let value = evaluate(world, state, value)?;
    Ok(Some(value))
}

/// The arguments of a call, from left to right.
pub fn arguments(world: &World, state: &mut State, args: &[Expr]) -> Result<Items<Value>, Halt>
    ensures { Gives result state.new (in_order (map (evaluate (world_of world.now)) args.now) state.old) }
{
    let mut values = Items::new(world.alloc);
    for arg in args {
        let value = evaluate(world, state, arg)?;
        values.push(value)?;
    }
    Ok(values)
}
