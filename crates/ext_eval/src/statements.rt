ghost use Rattle.std.specs.Prelude.{◌≡◌, ◌≤◌, ◌/◌, ◌%◌, length, map};
ghost use Rattle.ext_mean.specs.MeaningValues.{pieces};
ghost use Rattle.ext_mean.specs.MeaningExpressions.{evaluate};
ghost use Rattle.ext_mean.specs.MeaningStatements.{execute, one_by_one, run_block, turns};
ghost use Rattle.ext_mean.specs.Meaning.{call_below, called};
ghost use Rattle.ext_eval.specs.Arms.{arms_of};
ghost use Rattle.ext_eval.specs.Blocks.{calls_and_declares, chooses, gets, gets_many, gets_piece};
ghost use Rattle.ext_eval.specs.Gives.{Gives};
ghost use Rattle.ext_eval.specs.Worlds.{calls_of, world_of};

use crate::acts::{
    arguments, assigns, copies, declares, deletes, puts, responds, returns, sets, sets_word,
};
use crate::arms::Arms;
use crate::bytes::is_width;
use crate::expressions::evaluate;
use crate::halt::Halt;
use crate::locals::{bound, declare, forget, is_name};
use crate::records::{get, read};
use crate::steps::{charge, require};
use crate::values::{bytes_of, number_of, truth_of};
use crate::world::World;
use ext_mean::{Block, Expr, Function, Name, Run, State, Statement, Value};
use sp_base::{Blob, Trap};
use sqlite_items::at;
use std::mem;

/// The units of a turn of a `while`, besides those of its statements.
const UNITS_OF_TURN: u32 = 1;

/// Runs statements in order, until one returns.
#[cycle(run)]
fn run_statements(
    world: &World,
    state: &mut State,
    statements: &[Statement],
) -> Result<Option<Value>, Halt>
    ensures { Gives result state.new (one_by_one
        (map (execute (world_of world.now) (calls_of world.now)) statements.now) state.old) }
{
    for statement in statements {
        let returned = execute(world, state, statement)?;
        match returned {
            None => {}
            Some(value) => return Ok(Some(value)),
        }
    }
    Ok(None)
}

/// Runs a block's statements. Its own variables are forgotten behind it.
#[cycle(run)]
#[tactic(auto, using(crate::proofs::BlockLemmas::blocks))]
fn run_block(world: &World, state: &mut State, block: &Block) -> Result<Option<Value>, Halt>
    ensures { Gives result state.new (run_block (world_of world.now) (calls_of world.now) block.now state.old) }
{
    let depth = state.locals.len();
    let returned = run_statements(world, state, block.items.as_slice())?;
    forget(state, depth);
    Ok(returned)
}

/// The arm of a read: `some` binds the record's bytes.
#[cycle(run)]
fn run_arm(
    world: &World,
    state: &mut State,
    arms: &Arms,
    found: Option<Blob>,
) -> Result<Option<Value>, Halt>
    ensures { Gives result state.new (arms_of world.now arms.now found state.old) }
{
    match found {
        None => run_block(world, state, arms.no),
        Some(bytes) => {
            let depth = state.locals.len();
            declare(world, state, arms.some, Value::Slice(bytes))?;
            let returned = run_block(world, state, arms.yes)?;
            forget(state, depth);
            Ok(returned)
        }
    }
}

/// `if` on a test.
#[cycle(run)]
fn run_branch(
    world: &World,
    state: &mut State,
    test: &Expr,
    yes: &Block,
    no: &Block,
) -> Result<Option<Value>, Halt>
    ensures { Gives result state.new (chooses (world_of world.now) test.now
        (run_block (world_of world.now) (calls_of world.now) yes.now)
        (run_block (world_of world.now) (calls_of world.now) no.now) state.old) }
{
    let test = evaluate(world, state, test)?;
    if truth_of(&test) {
        return run_block(world, state, yes);
    }
    run_block(world, state, no)
}

/// The turns of a `while`: 1 unit before each test. No run makes more turns than its budget has
/// units.
#[cycle(run)]
fn repeat(
    world: &World,
    state: &mut State,
    test: &Expr,
    body: &Block,
) -> Result<Option<Value>, Halt>
    ensures { Gives result state.new (turns (world_of world.now) world.now.budget
        (evaluate (world_of world.now) test.now)
        (run_block (world_of world.now) (calls_of world.now) body.now) state.old) }
{
    for _turn in 0..world.budget {
        charge(world, state, UNITS_OF_TURN)?;
        let truth = evaluate(world, state, test)?;
        if !truth_of(&truth) {
            return Ok(None);
        }
        let returned = run_block(world, state, body)?;
        match returned {
            None => {}
            Some(value) => return Ok(Some(value)),
        }
    }
    Err(Halt::Ended(Run::Spent))
}

/// `get(table, key)` with its arms.
#[cycle(run)]
fn run_get(
    world: &World,
    state: &mut State,
    table: &Expr,
    key: &Expr,
    arms: &Arms,
) -> Result<Option<Value>, Halt>
    ensures { Gives result state.new
        (gets (world_of world.now) table.now key.now (arms_of world.now arms.now) state.old) }
{
    let table = evaluate(world, state, table)?;
    let key = evaluate(world, state, key)?;
    let found = get(world, state, number_of(&table), bytes_of(&key))?;
    run_arm(world, state, arms, found)
}

/// Reads each piece of the keys in order, with its arm.
#[cycle(run)]
fn run_pieces(
    world: &World,
    state: &mut State,
    table: u64,
    keys: &[u8],
    width: usize,
    arms: &Arms,
) -> Result<Option<Value>, Halt>
    requires some { 1 ≤ width }
    requires short { width ≤ 64 }
    requires whole { length keys.now % width ≡ 0 }
    ensures { Gives result state.new (one_by_one
        (map (gets_piece (world_of world.now) table (arms_of world.now arms.now)) (pieces (length keys.now / width) width keys.now)) state.old) }
{
    let mut rest = keys;
    for _piece in 0..keys.len() / width {
        let (key, behind) = rest.split_at(width);
        rest = behind;
        let found = read(world, state, table, key)?;
        let returned = run_arm(world, state, arms, found)?;
        match returned {
            None => {}
            Some(value) => return Ok(Some(value)),
        }
    }
    Ok(None)
}

/// `multiget(table, keys, width)` with its arms.
#[cycle(run)]
fn run_multiget(
    world: &World,
    state: &mut State,
    operands: (&Expr, &Expr, &Expr),
    arms: &Arms,
) -> Result<Option<Value>, Halt>
    ensures { Gives result state.new (gets_many (world_of world.now)
        operands.entry.0.now operands.entry.1.now operands.entry.2.now (arms_of world.now arms.now) state.old) }
{
    let (table, keys, width) = operands;
    let table = evaluate(world, state, table)?;
    let keys = evaluate(world, state, keys)?;
    let width = evaluate(world, state, width)?;
    let keys = bytes_of(&keys);
    let width = number_of(&width);
    require(state, is_width(width, keys.len()), Trap::Width)?;
    run_pieces(world, state, number_of(&table), keys, width as usize, arms)
}

/// A called function's block runs with its parameters as the only variables, and then the caller's
/// variables are in scope again.
#[cycle(run)]
pub fn called(
    world: &World,
    state: &mut State,
    function: &Function,
    values: &[Value],
) -> Result<Value, Halt>
    ensures { Gives result state.new
        (called (world_of world.now) (calls_of world.now) function.now values.now state.old) }
{
    let locals = bound(world.alloc, function.params.as_slice(), values)?;
    let caller = mem::replace(&mut state.locals, locals);
    let returned = run_block(world, state, &function.body)?;
    state.locals = caller;
    match returned {
        Some(value) => Ok(value),
        None => Ok(Value::Int(0)),
    }
}

/// Calls the last of the first `below` functions that has the name. It may call those before it.
#[cycle(run)]
#[tactic(auto, using(crate::proofs::CallLemmas::calls))]
fn call_below(
    world: &World,
    below: usize,
    state: &mut State,
    name: &Name,
    values: &[Value],
) -> Result<Value, Halt>
    ensures { Gives result state.new
        (call_below (world_of world.now) world.now.functions.now below name.now values.now state.old) }
{
    if below == 0 {
        return Ok(Value::Int(0));
    }
    let last = below - 1;
    let function = at(world.functions, last);
    match function {
        None => call_below(world, last, state, name, values),
        Some(function) => {
            if is_name(&function.name, name) {
                let callee = world.of_callee(last);
                return called(&callee, state, function, values);
            }
            call_below(world, last, state, name, values)
        }
    }
}

/// `let name: kind = function(args);`
#[cycle(run)]
fn run_call(
    world: &World,
    state: &mut State,
    name: &Name,
    function: &Name,
    args: &[Expr],
) -> Result<Option<Value>, Halt>
    ensures { Gives result state.new
        (calls_and_declares (world_of world.now) (calls_of world.now) name.now function.now args.now state.old) }
{
    let values = arguments(world, state, args)?;
    let result = call_below(world, world.below, state, function, values.as_slice())?;
    declare(world, state, name, result)?;
    Ok(None)
}

/// Runs a statement, which costs 1 unit before its operands. Answers the value that it returned.
#[cycle(run)]
#[tactic(auto, using(ext_mean::proofs::Equations::equations))]
fn execute(world: &World, state: &mut State, statement: &Statement) -> Result<Option<Value>, Halt>
    ensures { Gives result state.new
        (execute (world_of world.now) (calls_of world.now) statement.now state.old) }
{
    charge(world, state, 1)?;
    match statement {
        Statement::Let { name, value, .. } => declares(world, state, name, value),
        Statement::LetCall {
            name,
            function,
            args,
            ..
        } => run_call(world, state, name, function, args.as_slice()),
        Statement::Assign { name, value } => assigns(world, state, name, value),
        Statement::If { test, yes, no } => run_branch(world, state, test, yes, no),
        Statement::While { test, body } => repeat(world, state, test, body),
        Statement::Get {
            table,
            key,
            some,
            yes,
            no,
        } => run_get(world, state, table, key, &Arms { some, yes, no }),
        Statement::Multi {
            table,
            keys,
            width,
            some,
            yes,
            no,
        } => run_multiget(world, state, (table, keys, width), &Arms { some, yes, no }),
        Statement::Set { name, place, value } => sets(world, state, name, place, value),
        Statement::Set8 { name, place, value } => sets_word(world, state, name, place, value),
        Statement::Copy {
            name,
            place,
            source,
        } => copies(world, state, name, place, source),
        Statement::Put { name } => puts(world, state, name),
        Statement::Del { table, key } => deletes(world, state, table, key),
        Statement::Resp { value } => responds(world, state, value),
        Statement::Return { value } => returns(world, state, value),
    }
}
