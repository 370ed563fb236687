ghost use Rattle.std.specs.Prelude.{◌≡◌, IfOk, OnOk};
ghost use Rattle.std.specs.Str.{bytes_eq};
ghost use Rattle.ext_mean.specs.MeaningValues.{assigned, bound, value_of};
ghost use Rattle.ext_mean.specs.Work.{Next};
ghost use Rattle.ext_mean.specs.MeaningExpressions.{variable};
ghost use Rattle.ext_mean.specs.MeaningStatements.{assign, declare, forget};
ghost use Rattle.ext_eval.specs.Gives.{Gives};
ghost use Rattle.ext_eval.specs.Finding.{first_from};

use crate::halt::Halt;
use crate::values::share;
use crate::world::World;
use ext_mean::{Local, Name, Param, State, Value};
use sp_base::{Memory, same_bytes};
use sqlite_items::Items;
use std::alloc::Global;

/// Whether two names are the same.
pub fn is_name(name: &Name, other: &Name) -> bool
    ensures { result ≡ bytes_eq name.now other.now }
{
    same_bytes(name.bytes(), other.bytes())
}

/// A copy of a variable's value.
fn value_of(alloc: Global, name: &Name, locals: &[Local]) -> Result<Value, Memory>
    ensures { IfOk result (λ value. value ≡ value_of name.now locals.now) }
{
    for local in locals {
        if is_name(&local.name, name) {
            return share(alloc, &local.value);
        }
    }
    Ok(Value::Int(0))
}

/// A variable's value.
pub fn variable(world: &World, state: &mut State, name: &Name) -> Result<Value, Halt>
    ensures { Gives result state.new (variable name.now state.old) }
{
    let value = value_of(world.alloc, name, state.locals.as_slice())?;
    Ok(value)
}

/// Where among the variables the first of this name stands.
fn place_named(name: &Name, locals: &[Local]) -> Option<usize>
    ensures { result ≡ first_from (λ local. bytes_eq local.name name.now) 0 locals.now }
{
    for (at, local) in locals.iter().enumerate() {
        if is_name(&local.name, name) {
            return Some(at);
        }
    }
    None
}

/// The variables after `name = value`.
#[tactic(auto, using(crate::proofs::FindingLemmas::finding))]
fn assigned(
    alloc: Global,
    locals: &mut Items<Local>,
    name: &Name,
    value: Value,
) -> Result<(), Memory>
    ensures { OnOk result (locals.new ≡ assigned name.now value locals.old) }
{
    let found = place_named(name, locals.as_slice());
    match found {
        Some(at) => {
            let name = name.share(alloc)?;
            locals.set(at, Local { name, value });
            Ok(())
        }
        None => Ok(()),
    }
}

/// `name = value` for a variable that is in scope.
pub fn assign(world: &World, state: &mut State, name: &Name, value: Value) -> Result<(), Halt>
    ensures { Gives result state.new (assign name.now value state.old) }
{
    assigned(world.alloc, &mut state.locals, name, value)?;
    Ok(())
}

/// A variable's declaration stands behind those before it.
pub fn declare(world: &World, state: &mut State, name: &Name, value: Value) -> Result<(), Halt>
    ensures { Gives result state.new (declare name.now value state.old) }
{
    let name = name.share(world.alloc)?;
    state.locals.push(Local { name, value })?;
    Ok(())
}

/// The variables behind the first `depth` are no longer in scope.
pub fn forget(state: &mut State, depth: usize)
    ensures { forget depth state.old ≡ Next tt state.new }
{
    while state.locals.len() > depth {
        let _ = state.locals.pop();
    }
}

/// Each parameter with a copy of its argument.
pub fn bound(alloc: Global, params: &[Param], values: &[Value]) -> Result<Items<Local>, Memory>
    ensures { IfOk result (λ locals. locals ≡ bound params.now values.now) }
{
    let mut locals = Items::new(alloc);
    for (at, param) in params.iter().enumerate() {
        if at >= values.len() {
            return Ok(locals);
        }
        let name = param.name.share(alloc)?;
        let value = share(alloc, &values[at])?;
        locals.push(Local { name, value })?;
    }
    Ok(locals)
}
