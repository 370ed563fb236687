ghost use Rattle.std.specs.Prelude.{◌≡◌, replicate, IfOk};
ghost use Rattle.ext_mean.specs.MeaningExpressions.{binary, byte_at, evaluate, expression_form, new_buffer, new_temp, sub_at, word_at};
ghost use Rattle.ext_mean.specs.declared.expr.Expr.TheOpen.{Expr-F};
ghost use Rattle.ext_eval.specs.Gives.{Gives};
ghost use Rattle.ext_eval.specs.Worlds.{world_of};

use crate::bytes::{fits, is_key, key_of, part_of, word_of};
use crate::halt::Halt;
use crate::locals::variable;
use crate::operators::{decides, operate};
use crate::rights::can_write;
use crate::steps::{charge, require};
use crate::values::{buffer_of, bytes_of, number_of, truth_of};
use crate::world::World;
use ext_mean::{BinOp, Buffer, Expr, State, Value};
use sp_base::{Blob, MOST_VALUE, Memory, TableId, Trap};
use sqlite_items::Boxed;
use std::alloc::Global;

/// `byte(bytes, place)`
fn byte_at(state: &mut State, bytes: &[u8], place: u64) -> Result<Value, Halt>
    ensures { Gives result state.new (byte_at bytes.now place state.old) }
{
    require(state, place < bytes.len() as u64, Trap::Range)?;
    Ok(Value::Int(u64::from(bytes[place as usize])))
}

/// `u64(bytes, place)`: eight bytes, little endian.
fn word_at(state: &mut State, bytes: &[u8], place: u64) -> Result<Value, Halt>
    ensures { Gives result state.new (word_at bytes.now place state.old) }
{
    require(state, fits(place, 8, bytes.len()), Trap::Range)?;
    Ok(Value::Int(word_of(part_of(bytes, place as usize, 8))))
}

/// `sub(bytes, from, count)`
fn sub_at(
    alloc: Global,
    state: &mut State,
    bytes: &[u8],
    from: u64,
    count: u64,
) -> Result<Value, Halt>
    ensures { Gives result state.new (sub_at bytes.now from count state.old) }
{
    require(state, fits(from, count, bytes.len()), Trap::Range)?;
    let part = Blob::of(alloc, part_of(bytes, from as usize, count as usize))?;
    Ok(Value::Slice(part))
}

/// A buffer of zeros.
fn zeros(alloc: Global, size: usize) -> Result<Blob, Memory>
    ensures { IfOk result (λ blob. blob ≡ replicate size 0) }
{
    Ok(Blob::from_vec(vec![in alloc; 0; size]?))
}

/// `temp(size)`: a buffer of zeros with no place.
fn new_temp(world: &World, state: &mut State, size: u64) -> Result<Value, Halt>
    ensures { Gives result state.new (new_temp (world_of world.now) size state.old) }
{
    require(state, size <= MOST_VALUE as u64, Trap::Size)?;
    charge(world, state, size as u32 / 16)?;
    let bytes = zeros(world.alloc, size as usize)?;
    Ok(Value::Temp(bytes))
}

/// `alloc(table, key, size)`: a buffer of zeros for the record at a place.
fn new_buffer(
    world: &World,
    state: &mut State,
    table: u64,
    key: &[u8],
    size: u64,
) -> Result<Value, Halt>
    ensures { Gives result state.new (new_buffer (world_of world.now) table key.now size state.old) }
{
    require(state, is_key(key) && size <= MOST_VALUE as u64, Trap::Size)?;
    require(state, can_write(world.rights, table), Trap::Denied)?;
    charge(world, state, size as u32 / 16)?;
    let key = key_of(world.alloc, key)?;
    let bytes = zeros(world.alloc, size as usize)?;
    Ok(Value::Buf(Buffer {
        table: TableId(table as u32),
        key,
        bytes,
    }))
}

/// The bytes of an expression, and then a number.
#[cycle(evaluate)]
fn evaluate_byte(
    world: &World,
    state: &mut State,
    bytes: &Boxed<Expr>,
    place: &Boxed<Expr>,
) -> Result<Value, Halt>
    ensures { Gives result state.new (expression_form (world_of world.now)
        (Expr-F.Byte (evaluate (world_of world.now) bytes.now) (evaluate (world_of world.now) place.now)) state.old) }
{
    let bytes = evaluate(world, state, bytes.get())?;
    let place = evaluate(world, state, place.get())?;
    byte_at(state, bytes_of(&bytes), number_of(&place))
}

#[cycle(evaluate)]
fn evaluate_word(
    world: &World,
    state: &mut State,
    bytes: &Boxed<Expr>,
    place: &Boxed<Expr>,
) -> Result<Value, Halt>
    ensures { Gives result state.new (expression_form (world_of world.now)
        (Expr-F.Word (evaluate (world_of world.now) bytes.now) (evaluate (world_of world.now) place.now)) state.old) }
{
    let bytes = evaluate(world, state, bytes.get())?;
    let place = evaluate(world, state, place.get())?;
    word_at(state, bytes_of(&bytes), number_of(&place))
}

#[cycle(evaluate)]
fn evaluate_sub(
    world: &World,
    state: &mut State,
    bytes: &Boxed<Expr>,
    from: &Boxed<Expr>,
    count: &Boxed<Expr>,
) -> Result<Value, Halt>
    ensures { Gives result state.new (expression_form (world_of world.now)
        (Expr-F.Sub (evaluate (world_of world.now) bytes.now) (evaluate (world_of world.now) from.now)
        (evaluate (world_of world.now) count.now)) state.old) }
{
    let bytes = evaluate(world, state, bytes.get())?;
    let from = evaluate(world, state, from.get())?;
    let count = evaluate(world, state, count.get())?;
    let whole = bytes_of(&bytes);
    sub_at(
        world.alloc,
        state,
        whole,
        number_of(&from),
        number_of(&count),
    )
}

#[cycle(evaluate)]
fn evaluate_alloc(
    world: &World,
    state: &mut State,
    table: &Boxed<Expr>,
    key: &Boxed<Expr>,
    size: &Boxed<Expr>,
) -> Result<Value, Halt>
    ensures { Gives result state.new (expression_form (world_of world.now)
        (Expr-F.Alloc (evaluate (world_of world.now) table.now) (evaluate (world_of world.now) key.now)
        (evaluate (world_of world.now) size.now)) state.old) }
{
    let table = evaluate(world, state, table.get())?;
    let key = evaluate(world, state, key.get())?;
    let size = evaluate(world, state, size.get())?;
    new_buffer(
        world,
        state,
        number_of(&table),
        bytes_of(&key),
        number_of(&size),
    )
}

/// The left side, and the right side unless the left one decides.
#[cycle(evaluate)]
fn evaluate_binary(
    world: &World,
    state: &mut State,
    operator: BinOp,
    left: &Boxed<Expr>,
    right: &Boxed<Expr>,
) -> Result<Value, Halt>
    ensures { Gives result state.new (binary operator
        (evaluate (world_of world.now) left.now) (evaluate (world_of world.now) right.now) state.old) }
{
    let left = evaluate(world, state, left.get())?;
    if decides(operator, &left) {
        return Ok(Value::Bool(truth_of(&left)));
    }
    let right = evaluate(world, state, right.get())?;
    operate(state, operator, &left, &right)
}

/// The value of an expression, from left to right.
#[cycle(evaluate)]
#[tactic(auto, using(ext_mean::proofs::Equations::equations))]
pub fn evaluate(world: &World, state: &mut State, expression: &Expr) -> Result<Value, Halt>
    ensures { Gives result state.new (evaluate (world_of world.now) expression.now state.old) }
{
    match expression {
        Expr::Number(number) => Ok(Value::Int(*number)),
        Expr::Str(bytes) => Ok(Value::Slice(bytes.share(world.alloc)?)),
        Expr::Truth(truth) => Ok(Value::Bool(*truth)),
        Expr::Var(name) => variable(world, state, name),
        Expr::Args => Ok(Value::Slice(Blob::of(world.alloc, world.args)?)),
        Expr::Len(bytes) => {
            let bytes = evaluate(world, state, bytes.get())?;
            Ok(Value::Int(bytes_of(&bytes).len() as u64))
        }
        Expr::View(name) => {
            let buffer = variable(world, state, name)?;
            Ok(Value::Slice(Blob::of(world.alloc, buffer_of(&buffer))?))
        }
        Expr::Temp(size) => {
            let size = evaluate(world, state, size.get())?;
            new_temp(world, state, number_of(&size))
        }
        Expr::Byte(bytes, place) => evaluate_byte(world, state, bytes, place),
        Expr::Word(bytes, place) => evaluate_word(world, state, bytes, place),
        Expr::Sub(bytes, from, count) => evaluate_sub(world, state, bytes, from, count),
        Expr::Alloc(table, key, size) => evaluate_alloc(world, state, table, key, size),
        Expr::Not(test) => {
            let test = evaluate(world, state, test.get())?;
            Ok(Value::Bool(!truth_of(&test)))
        }
        Expr::Bin(operator, left, right) => evaluate_binary(world, state, *operator, left, right),
    }
}
