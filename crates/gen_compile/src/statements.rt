//! The code of statements that have no blocks, behind their unit.

ghost use Rattle.std.specs.Prelude.{◌≡◌, ◌++◌, [], ◌∷◌, length, OnOk};
ghost use Rattle.gen_code.specs.Codes.{◌▸◌, all_values, emit, expression_code, number_below, on_next, on_slot, value_ops};
ghost use Rattle.gen_code.specs.declared.op.Op.TheVariants as op;

use crate::names::{Callees, number_of, slot_of};
use crate::numbers::narrow;
use crate::values::{write_all, write_moved, write_one, write_two};
use ext_mean::{Expr, Name, Param};
use gen_code::Op;
use sp_base::Memory;
use sqlite_items::Items;
use std::alloc::Global;

/// `let name: kind = value;`
pub fn write_let(
    alloc: Global,
    ops: &mut Items<Op>,
    scope: &[Param],
    value: &Expr,
) -> Result<(), Memory>
    ensures { OnOk result (ops.new ≡ ops.old
        ++ (value_ops value.now ▸ on_next op.Store) scope.now (length ops.old)) }
{
    let slot = narrow(scope.len())?;
    write_one(alloc, ops, scope, value, Op::Store(slot))
}

/// `let name: kind = function(args);`
pub fn write_call(
    alloc: Global,
    callees: &Callees,
    ops: &mut Items<Op>,
    scope: &[Param],
    function: &Name,
    args: &[Expr],
) -> Result<(), Memory>
    ensures { OnOk result (ops.new ≡ ops.old ++ (all_values args.now
        ▸ (emit (op.Call (number_below callees.now.functions.now callees.now.count function.now) ∷ [])
        ▸ on_next op.Store)) scope.now (length ops.old)) }
{
    write_all(alloc, ops, scope, args)?;
    ops.push(Op::Call(number_of(callees, function)?))?;
    ops.push(Op::Store(narrow(scope.len())?))?;
    Ok(())
}

/// `name = value;`
pub fn write_assign(
    alloc: Global,
    ops: &mut Items<Op>,
    scope: &[Param],
    name: &Name,
    value: &Expr,
) -> Result<(), Memory>
    ensures { OnOk result (ops.new ≡ ops.old
        ++ (value_ops value.now ▸ on_slot op.Store name.now) scope.now (length ops.old)) }
{
    let slot = slot_of(scope, name)?;
    write_one(alloc, ops, scope, value, Op::Store(slot))
}

/// `set(name, place, value);`
pub fn write_set(
    alloc: Global,
    ops: &mut Items<Op>,
    scope: &[Param],
    name: &Name,
    operands: (&Expr, &Expr),
) -> Result<(), Memory>
    ensures { OnOk result (ops.new ≡ ops.old ++ (value_ops operands.entry.0.now
        ▸ (value_ops operands.entry.1.now ▸ on_slot op.Set name.now)) scope.now (length ops.old)) }
{
    let slot = slot_of(scope, name)?;
    write_two(alloc, ops, scope, operands, Op::Set(slot))
}

/// `set8(name, place, value);`
pub fn write_set8(
    alloc: Global,
    ops: &mut Items<Op>,
    scope: &[Param],
    name: &Name,
    operands: (&Expr, &Expr),
) -> Result<(), Memory>
    ensures { OnOk result (ops.new ≡ ops.old ++ (value_ops operands.entry.0.now
        ▸ (value_ops operands.entry.1.now ▸ on_slot op.Set8 name.now)) scope.now (length ops.old)) }
{
    let slot = slot_of(scope, name)?;
    write_two(alloc, ops, scope, operands, Op::Set8(slot))
}

/// `copy(name, place, source);`
pub fn write_copy(
    alloc: Global,
    ops: &mut Items<Op>,
    scope: &[Param],
    name: &Name,
    operands: (&Expr, &Expr),
) -> Result<(), Memory>
    ensures { OnOk result (ops.new ≡ ops.old ++ (value_ops operands.entry.0.now
        ▸ (value_ops operands.entry.1.now ▸ on_slot op.Copy name.now)) scope.now (length ops.old)) }
{
    let slot = slot_of(scope, name)?;
    write_two(alloc, ops, scope, operands, Op::Copy(slot))
}

/// `put(name);`
pub fn write_put(ops: &mut Items<Op>, scope: &[Param], name: &Name) -> Result<(), Memory>
    ensures { OnOk result (ops.new ≡ ops.old ++ on_slot op.Put name.now scope.now (length ops.old)) }
{
    ops.push(Op::Put(slot_of(scope, name)?))?;
    Ok(())
}

/// `del(table, key);`
pub fn write_del(
    alloc: Global,
    ops: &mut Items<Op>,
    scope: &[Param],
    table: &Expr,
    key: &Expr,
) -> Result<(), Memory>
    ensures { OnOk result (ops.new ≡ ops.old
        ++ (value_ops table.now ▸ (value_ops key.now ▸ emit (op.Del ∷ []))) scope.now (length ops.old)) }
{
    write_two(alloc, ops, scope, (table, key), Op::Del)
}

/// `resp(value);`
pub fn write_resp(
    alloc: Global,
    ops: &mut Items<Op>,
    scope: &[Param],
    value: &Expr,
) -> Result<(), Memory>
    ensures { OnOk result (ops.new ≡ ops.old
        ++ (value_ops value.now ▸ emit (op.Resp ∷ [])) scope.now (length ops.old)) }
{
    write_one(alloc, ops, scope, value, Op::Resp)
}

/// `return value;`
pub fn write_return(
    alloc: Global,
    ops: &mut Items<Op>,
    scope: &[Param],
    value: &Expr,
) -> Result<(), Memory>
    ensures { OnOk result (ops.new ≡ ops.old
        ++ ((expression_code value.now).moved ▸ emit (op.Return ∷ [])) scope.now (length ops.old)) }
{
    write_moved(alloc, ops, scope, value)?;
    ops.push(Op::Return)?;
    Ok(())
}
