//! The code of blocks and of the statements that have them.

ghost use Rattle.std.specs.Prelude.{◌≡◌, ◌+◌, ◌++◌, [], ◌∷◌, if◌then◌else◌, length, nat_lt, take, OnOk};
ghost use Rattle.ext_mean.specs.Typing.{arm_name};
ghost use Rattle.gen_code.specs.Codes.{◌▸◌, block_code, emit, found_code, get_code, if_code, multi_code, statement_code, value_ops, while_code};
ghost use Rattle.gen_code.specs.declared.op.Op.TheVariants as op;

use crate::names::Callees;
use crate::numbers::{narrow, place_behind};
use crate::statements::{
    write_assign, write_call, write_copy, write_del, write_let, write_put, write_resp, write_return,
    write_set, write_set8,
};
use crate::values::{write_one, write_value};
use crate::variables::Variables;
use ext_mean::{Block, Expr, Kind, Name, Statement};
use gen_code::Op;
use sp_base::Memory;
use sqlite_items::Items;
use std::alloc::Global;

/// The units of a statement, before its operands.
const UNITS_OF_STATEMENT: u32 = 1;

/// The units of each test of a `while`, besides the statement's.
const UNITS_OF_TURN: u32 = 1;

/// Ends the scope of the variables from a slot on, with code that drops them, where there are any.
fn end_scope(variables: &mut Variables, ops: &mut Items<Op>, outer: usize) -> Result<(), Memory>
    ensures ops { OnOk result (ops.new ≡ ops.old
        ++ (if nat_lt outer (length variables.old.in_scope.items) then (op.Drop outer ∷ []) else [])) }
    ensures scope { OnOk result (variables.new.in_scope.items ≡ take outer variables.old.in_scope.items) }
    ensures declared { OnOk result (variables.new.declared ≡ variables.old.declared) }
{
    if outer < variables.in_scope.len() {
        ops.push(Op::Drop(narrow(outer)?))?;
    }
    variables.in_scope.truncate(outer);
    Ok(())
}

/// Adds the code of a block. Its variables are gone at its end.
#[cycle(block)]
#[tactic(auto, using(crate::proofs::CodeForms::statement_forms))]
pub fn write_block(
    alloc: Global,
    callees: &Callees,
    variables: &mut Variables,
    ops: &mut Items<Op>,
    block: &Block,
) -> Result<(), Memory>
    ensures ops { OnOk result (ops.new ≡ ops.old
        ++ (block_code callees.now.functions.now callees.now.count block.now).ops variables.old.in_scope.items (length ops.old)) }
    ensures scope { OnOk result (variables.new.in_scope.items ≡ variables.old.in_scope.items) }
    ensures declared { OnOk result (variables.new.declared ≡ variables.old.declared
        + (block_code callees.now.functions.now callees.now.count block.now).locals) }
{
    let outer = variables.in_scope.as_slice().len();
    for statement in block.items.as_slice() {
        write_statement(alloc, callees, variables, ops, statement)?;
    }
    end_scope(variables, ops, outer)?;
    Ok(())
}

/// Adds the code of a statement: its unit, and then what it does. What it declares comes into scope.
#[cycle(block)]
#[tactic(auto, using(crate::proofs::CodeForms::statement_forms))]
fn write_statement(
    alloc: Global,
    callees: &Callees,
    variables: &mut Variables,
    ops: &mut Items<Op>,
    statement: &Statement,
) -> Result<(), Memory>
    ensures ops { OnOk result (ops.new ≡ ops.old
        ++ (statement_code callees.now.functions.now callees.now.count statement.now).ops variables.old.in_scope.items (length ops.old)) }
    ensures scope { OnOk result (variables.new.in_scope.items ≡ variables.old.in_scope.items
        ++ (statement_code callees.now.functions.now callees.now.count statement.now).declares) }
    ensures declared { OnOk result (variables.new.declared ≡ variables.old.declared
        + (statement_code callees.now.functions.now callees.now.count statement.now).locals) }
{
    ops.push(Op::Charge(UNITS_OF_STATEMENT))?;
    let scope = variables.in_scope.as_slice();
    match statement {
        Statement::Let { name, kind, value } => {
            write_let(alloc, ops, scope, value)?;
            variables.declare(alloc, name, *kind)?;
        }
        Statement::LetCall {
            name,
            kind,
            function,
            args,
        } => {
            write_call(alloc, callees, ops, scope, function, args.as_slice())?;
            variables.declare(alloc, name, *kind)?;
        }
        Statement::Assign { name, value } => write_assign(alloc, ops, scope, name, value)?,
        Statement::If { test, yes, no } => {
            write_if(alloc, callees, variables, ops, test, yes, no)?
        }
        Statement::While { test, body } => {
            write_while(alloc, callees, variables, ops, test, body)?
        }
        Statement::Get {
            table,
            key,
            some,
            yes,
            no,
        } => write_get(alloc, callees, variables, ops, (table, key), some, yes, no)?,
        Statement::Multi {
            table,
            keys,
            width,
            some,
            yes,
            no,
        } => {
            let operands = (table, keys, width);
            write_multi(alloc, callees, variables, ops, operands, some, yes, no)?
        }
        Statement::Set { name, place, value } => {
            write_set(alloc, ops, scope, name, (place, value))?
        }
        Statement::Set8 { name, place, value } => {
            write_set8(alloc, ops, scope, name, (place, value))?
        }
        Statement::Copy {
            name,
            place,
            source,
        } => write_copy(alloc, ops, scope, name, (place, source))?,
        Statement::Put { name } => write_put(ops, scope, name)?,
        Statement::Del { table, key } => write_del(alloc, ops, scope, table, key)?,
        Statement::Resp { value } => write_resp(alloc, ops, scope, value)?,
        Statement::Return { value } => write_return(alloc, ops, scope, value)?,
    }
    Ok(())
}

/// Adds the code of `if`.
#[cycle(block)]
fn write_if(
    alloc: Global,
    callees: &Callees,
    variables: &mut Variables,
    ops: &mut Items<Op>,
    test: &Expr,
    yes: &Block,
    no: &Block,
) -> Result<(), Memory>
    ensures ops { OnOk result (ops.new ≡ ops.old ++ if_code (value_ops test.now)
        (block_code callees.now.functions.now callees.now.count yes.now).ops
        (block_code callees.now.functions.now callees.now.count no.now).ops
        variables.old.in_scope.items (length ops.old)) }
    ensures scope { OnOk result (variables.new.in_scope.items ≡ variables.old.in_scope.items) }
    ensures declared { OnOk result (variables.new.declared ≡ variables.old.declared
        + ((block_code callees.now.functions.now callees.now.count yes.now).locals
        + (block_code callees.now.functions.now callees.now.count no.now).locals)) }
{
    let scope = variables.in_scope.as_slice();
    write_value(alloc, ops, scope, test)?;
    let past_first = ops.len();
    ops.push(Op::JumpFalse(0))?;
    write_block(alloc, callees, variables, ops, yes)?;
    let past_second = ops.len();
    ops.push(Op::Jump(0))?;
    let at_false = place_behind(ops, 0)?;
    ops.set(past_first, Op::JumpFalse(at_false));
    write_block(alloc, callees, variables, ops, no)?;
    let end = place_behind(ops, 0)?;
    ops.set(past_second, Op::Jump(end));
    Ok(())
}

/// Adds the code of `while`.
#[cycle(block)]
fn write_while(
    alloc: Global,
    callees: &Callees,
    variables: &mut Variables,
    ops: &mut Items<Op>,
    test: &Expr,
    body: &Block,
) -> Result<(), Memory>
    ensures ops { OnOk result (ops.new ≡ ops.old ++ while_code (value_ops test.now)
        (block_code callees.now.functions.now callees.now.count body.now).ops
        variables.old.in_scope.items (length ops.old)) }
    ensures scope { OnOk result (variables.new.in_scope.items ≡ variables.old.in_scope.items) }
    ensures declared { OnOk result (variables.new.declared ≡ variables.old.declared
        + (block_code callees.now.functions.now callees.now.count body.now).locals) }
{
    let turn = place_behind(ops, 0)?;
    ops.push(Op::Charge(UNITS_OF_TURN))?;
    let scope = variables.in_scope.as_slice();
    write_value(alloc, ops, scope, test)?;
    let past_body = ops.len();
    ops.push(Op::JumpFalse(0))?;
    write_block(alloc, callees, variables, ops, body)?;
    ops.push(Op::Jump(turn))?;
    let end = place_behind(ops, 0)?;
    ops.set(past_body, Op::JumpFalse(end));
    Ok(())
}

/// Adds the code of the arm of a record that is there.
#[cycle(block)]
fn write_found(
    alloc: Global,
    callees: &Callees,
    variables: &mut Variables,
    ops: &mut Items<Op>,
    some: &Name,
    yes: &Block,
) -> Result<(), Memory>
    ensures ops { OnOk result (ops.new ≡ ops.old ++ found_code some.now
        (block_code callees.now.functions.now callees.now.count yes.now).ops
        variables.old.in_scope.items (length ops.old)) }
    ensures scope { OnOk result (variables.new.in_scope.items ≡ variables.old.in_scope.items) }
    ensures declared { OnOk result (variables.new.declared ≡ variables.old.declared
        + (1 + (block_code callees.now.functions.now callees.now.count yes.now).locals)) }
{
    let outside = variables.in_scope.len();
    let slot = narrow(outside)?;
    ops.push(Op::Store(slot))?;
    variables.declare(alloc, some, Kind::Slice)?;
    write_block(alloc, callees, variables, ops, yes)?;
    ops.push(Op::Drop(slot))?;
    variables.in_scope.truncate(outside);
    Ok(())
}

/// Adds the code of `get`.
#[cycle(block)]
fn write_get(
    alloc: Global,
    callees: &Callees,
    variables: &mut Variables,
    ops: &mut Items<Op>,
    operands: (&Expr, &Expr),
    some: &Name,
    yes: &Block,
    no: &Block,
) -> Result<(), Memory>
    ensures ops { OnOk result (ops.new ≡ ops.old ++ (value_ops operands.entry.0.now ▸ (value_ops operands.entry.1.now
        ▸ get_code some.now (block_code callees.now.functions.now callees.now.count yes.now).ops
        (block_code callees.now.functions.now callees.now.count no.now).ops))
        variables.old.in_scope.items (length ops.old)) }
    ensures scope { OnOk result (variables.new.in_scope.items ≡ variables.old.in_scope.items) }
    ensures declared { OnOk result (variables.new.declared ≡ variables.old.declared
        + (1 + (block_code callees.now.functions.now callees.now.count yes.now).locals
        + (block_code callees.now.functions.now callees.now.count no.now).locals)) }
{
    let scope = variables.in_scope.as_slice();
    write_value(alloc, ops, scope, operands.0)?;
    write_value(alloc, ops, scope, operands.1)?;
    let read = ops.len();
    ops.push(Op::Get(0))?;
    write_found(alloc, callees, variables, ops, some, yes)?;
    let past_second = ops.len();
    ops.push(Op::Jump(0))?;
    let at_none = place_behind(ops, 0)?;
    ops.set(read, Op::Get(at_none));
    write_block(alloc, callees, variables, ops, no)?;
    let end = place_behind(ops, 0)?;
    ops.set(past_second, Op::Jump(end));
    Ok(())
}

/// Adds the code of `multiget`: its operands, the place of the first key, and its turns.
#[cycle(block)]
fn write_multi(
    alloc: Global,
    callees: &Callees,
    variables: &mut Variables,
    ops: &mut Items<Op>,
    operands: (&Expr, &Expr, &Expr),
    some: &Name,
    yes: &Block,
    no: &Block,
) -> Result<(), Memory>
    ensures ops { OnOk result (ops.new ≡ ops.old ++ (value_ops operands.entry.0.now ▸ (value_ops operands.entry.1.now
        ▸ (value_ops operands.entry.2.now ▸ (emit (op.Num 0 ∷ [])
        ▸ multi_code some.now (block_code callees.now.functions.now callees.now.count yes.now).ops
        (block_code callees.now.functions.now callees.now.count no.now).ops))))
        variables.old.in_scope.items (length ops.old)) }
    ensures scope { OnOk result (variables.new.in_scope.items ≡ variables.old.in_scope.items) }
    ensures declared { OnOk result (variables.new.declared ≡ variables.old.declared
        + (1 + (block_code callees.now.functions.now callees.now.count yes.now).locals
        + (block_code callees.now.functions.now callees.now.count no.now).locals)) }
{
    let scope = variables.in_scope.as_slice();
    write_value(alloc, ops, scope, operands.0)?;
    write_value(alloc, ops, scope, operands.1)?;
    write_one(alloc, ops, scope, operands.2, Op::Num(0))?;
    write_turns(alloc, callees, variables, ops, some, yes, no)?;
    Ok(())
}

/// Adds the turns of a `multiget`, one for each key.
#[cycle(block)]
fn write_turns(
    alloc: Global,
    callees: &Callees,
    variables: &mut Variables,
    ops: &mut Items<Op>,
    some: &Name,
    yes: &Block,
    no: &Block,
) -> Result<(), Memory>
    ensures ops { OnOk result (ops.new ≡ ops.old ++ multi_code some.now
        (block_code callees.now.functions.now callees.now.count yes.now).ops
        (block_code callees.now.functions.now callees.now.count no.now).ops
        variables.old.in_scope.items (length ops.old)) }
    ensures scope { OnOk result (variables.new.in_scope.items ≡ variables.old.in_scope.items) }
    ensures declared { OnOk result (variables.new.declared ≡ variables.old.declared
        + (1 + (block_code callees.now.functions.now callees.now.count yes.now).locals
        + (block_code callees.now.functions.now callees.now.count no.now).locals)) }
{
    let next_key = place_behind(ops, 0)?;
    let read = ops.len();
    ops.push(Op::Multi(0))?;
    let past_first = ops.len();
    ops.push(Op::JumpFalse(0))?;
    write_found(alloc, callees, variables, ops, some, yes)?;
    ops.push(Op::Jump(next_key))?;
    let at_none = place_behind(ops, 0)?;
    ops.set(past_first, Op::JumpFalse(at_none));
    let slot = variables.next_slot()?;
    ops.push(Op::Store(slot))?;
    ops.push(Op::Drop(slot))?;
    write_block(alloc, callees, variables, ops, no)?;
    ops.push(Op::Jump(next_key))?;
    let end = place_behind(ops, 0)?;
    ops.set(read, Op::Multi(end));
    Ok(())
}
