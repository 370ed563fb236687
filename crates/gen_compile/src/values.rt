//! The code of expressions.

ghost use Rattle.std.specs.Prelude.{◌≡◌, ◌++◌, [], ◌∷◌, length, OnOk};
ghost use Rattle.gen_code.specs.Codes.{◌▸◌, all_values, and_code, binary_code, emit, equality, expression_code, operator_kind, operator_ops, or_code, value_ops};

use crate::names::{kind_of, slot_of};
use crate::numbers::place_behind;
use ext_mean::{BinOp, Expr, Kind, Param};
use gen_code::Op;
use sp_base::Memory;
use sqlite_items::Items;
use std::alloc::Global;

/// The type that an operator gives.
fn operator_kind(operator: BinOp) -> Kind
    ensures { result ≡ operator_kind operator }
{
    match operator {
        BinOp::Or | BinOp::And | BinOp::Equal | BinOp::NotEqual => Kind::Bool,
        BinOp::Less | BinOp::LessEqual | BinOp::Greater | BinOp::GreaterEqual => Kind::Bool,
        BinOp::Add | BinOp::Subtract | BinOp::Multiply | BinOp::Divide | BinOp::Remainder => {
            Kind::Int
        }
    }
}

/// The type of an expression, known by its form.
#[tactic(auto, using(crate::proofs::CodeForms::value_forms))]
fn type_of(scope: &[Param], expression: &Expr) -> Kind
    ensures { result ≡ (expression_code expression.now).type scope.now }
{
    match expression {
        Expr::Number(_) | Expr::Len(_) | Expr::Byte(_, _) | Expr::Word(_, _) => Kind::Int,
        Expr::Str(_) | Expr::Args | Expr::View(_) | Expr::Sub(_, _, _) => Kind::Slice,
        Expr::Truth(_) | Expr::Not(_) => Kind::Bool,
        Expr::Temp(_) => Kind::Temp,
        Expr::Alloc(_, _, _) => Kind::Buf,
        Expr::Var(name) => kind_of(scope, name).unwrap_or(Kind::Int),
        Expr::Bin(operator, _, _) => operator_kind(*operator),
    }
}

/// The equality of two values of a type.
fn equality(kind: Kind) -> Op
    ensures { result ≡ equality kind }
{
    match kind {
        Kind::Int => Op::EqInt,
        Kind::Bool => Op::EqBool,
        Kind::Slice | Kind::Buf | Kind::Temp => Op::EqSlice,
    }
}

/// Adds two instructions.
fn push_two(ops: &mut Items<Op>, first: Op, second: Op) -> Result<(), Memory>
    ensures { OnOk result (ops.new ≡ ops.old ++ first ∷ second ∷ []) }
{
    ops.push(first)?;
    ops.push(second)?;
    Ok(())
}

/// Adds what an operator does with the values of its two sides.
fn write_operator(ops: &mut Items<Op>, operator: BinOp, kind: Kind) -> Result<(), Memory>
    ensures { OnOk result (ops.new ≡ ops.old ++ operator_ops operator kind) }
{
    match operator {
        BinOp::Or | BinOp::And => push_two(ops, Op::Not, Op::Not)?,
        BinOp::Equal => ops.push(equality(kind))?,
        BinOp::NotEqual => push_two(ops, equality(kind), Op::Not)?,
        BinOp::Less => ops.push(Op::Less)?,
        BinOp::LessEqual => ops.push(Op::LessEq)?,
        BinOp::Greater => push_two(ops, Op::LessEq, Op::Not)?,
        BinOp::GreaterEqual => push_two(ops, Op::Less, Op::Not)?,
        BinOp::Add => ops.push(Op::Add)?,
        BinOp::Subtract => ops.push(Op::Minus)?,
        BinOp::Multiply => ops.push(Op::Times)?,
        BinOp::Divide => ops.push(Op::Over)?,
        BinOp::Remainder => ops.push(Op::Rest)?,
    }
    Ok(())
}

/// Adds the code of an expression, which leaves its value.
#[cycle(value)]
#[tactic(auto, using(crate::proofs::CodeForms::value_forms))]
pub fn write_value(
    alloc: Global,
    ops: &mut Items<Op>,
    scope: &[Param],
    expression: &Expr,
) -> Result<(), Memory>
    ensures { OnOk result (ops.new ≡ ops.old ++ value_ops expression.now scope.now (length ops.old)) }
{
    match expression {
        Expr::Number(number) => ops.push(Op::Num(*number))?,
        Expr::Str(bytes) => ops.push(Op::Str(bytes.share(alloc)?))?,
        Expr::Truth(truth) => ops.push(Op::Truth(*truth))?,
        Expr::Var(name) => ops.push(Op::Load(slot_of(scope, name)?))?,
        Expr::Args => ops.push(Op::Args)?,
        Expr::View(name) => ops.push(Op::View(slot_of(scope, name)?))?,
        Expr::Len(bytes) => write_one(alloc, ops, scope, bytes.get(), Op::Len)?,
        Expr::Temp(size) => write_one(alloc, ops, scope, size.get(), Op::Temp)?,
        Expr::Not(test) => write_one(alloc, ops, scope, test.get(), Op::Not)?,
        Expr::Byte(bytes, place) => {
            write_two(alloc, ops, scope, (bytes.get(), place.get()), Op::Byte)?
        }
        Expr::Word(bytes, place) => {
            write_two(alloc, ops, scope, (bytes.get(), place.get()), Op::Word)?
        }
        Expr::Sub(bytes, from, count) => {
            let operands = (bytes.get(), from.get(), count.get());
            write_three(alloc, ops, scope, operands, Op::Sub)?
        }
        Expr::Alloc(table, key, size) => {
            let operands = (table.get(), key.get(), size.get());
            write_three(alloc, ops, scope, operands, Op::Alloc)?
        }
        Expr::Bin(operator, left, right) => {
            write_sides(alloc, ops, scope, *operator, left.get(), right.get())?
        }
    }
    Ok(())
}

/// Adds the code of an expression, and an instruction for its value.
#[cycle(value)]
pub fn write_one(
    alloc: Global,
    ops: &mut Items<Op>,
    scope: &[Param],
    operand: &Expr,
    op: Op,
) -> Result<(), Memory>
    ensures { OnOk result (ops.new ≡ ops.old
        ++ (value_ops operand.now ▸ emit (op ∷ [])) scope.now (length ops.old)) }
{
    write_value(alloc, ops, scope, operand)?;
    ops.push(op)?;
    Ok(())
}

/// Adds the code of two expressions, and an instruction for their values.
#[cycle(value)]
pub fn write_two(
    alloc: Global,
    ops: &mut Items<Op>,
    scope: &[Param],
    operands: (&Expr, &Expr),
    op: Op,
) -> Result<(), Memory>
    ensures { OnOk result (ops.new ≡ ops.old
        ++ (value_ops operands.entry.0.now ▸ (value_ops operands.entry.1.now ▸ emit (op ∷ []))) scope.now (length ops.old)) }
{
    write_value(alloc, ops, scope, operands.0)?;
    write_one(alloc, ops, scope, operands.1, op)
}

/// Adds the code of three expressions, and an instruction for their values.
#[cycle(value)]
pub fn write_three(
    alloc: Global,
    ops: &mut Items<Op>,
    scope: &[Param],
    operands: (&Expr, &Expr, &Expr),
    op: Op,
) -> Result<(), Memory>
    ensures { OnOk result (ops.new ≡ ops.old
        ++ (value_ops operands.entry.0.now ▸ (value_ops operands.entry.1.now
        ▸ (value_ops operands.entry.2.now ▸ emit (op ∷ [])))) scope.now (length ops.old)) }
{
    write_value(alloc, ops, scope, operands.0)?;
    write_two(alloc, ops, scope, (operands.1, operands.2), op)
}

/// Adds the code of an operator and its two sides.
#[cycle(value)]
fn write_sides(
    alloc: Global,
    ops: &mut Items<Op>,
    scope: &[Param],
    operator: BinOp,
    left: &Expr,
    right: &Expr,
) -> Result<(), Memory>
    ensures { OnOk result (ops.new ≡ ops.old
        ++ binary_code operator (expression_code left.now) (expression_code right.now) scope.now (length ops.old)) }
{
    match operator {
        BinOp::Or => write_or(alloc, ops, scope, left, right),
        BinOp::And => write_and(alloc, ops, scope, left, right),
        BinOp::Equal
        | BinOp::NotEqual
        | BinOp::Less
        | BinOp::LessEqual
        | BinOp::Greater
        | BinOp::GreaterEqual
        | BinOp::Add
        | BinOp::Subtract
        | BinOp::Multiply
        | BinOp::Divide
        | BinOp::Remainder => write_both(alloc, ops, scope, operator, left, right),
    }
}

/// Adds the code of an operator that looks at both sides.
#[cycle(value)]
fn write_both(
    alloc: Global,
    ops: &mut Items<Op>,
    scope: &[Param],
    operator: BinOp,
    left: &Expr,
    right: &Expr,
) -> Result<(), Memory>
    ensures { OnOk result (ops.new ≡ ops.old
        ++ (value_ops left.now ▸ (value_ops right.now
        ▸ emit (operator_ops operator ((expression_code left.now).type scope.now)))) scope.now (length ops.old)) }
{
    write_value(alloc, ops, scope, left)?;
    write_value(alloc, ops, scope, right)?;
    write_operator(ops, operator, type_of(scope, left))
}

/// Adds the code of `left && right`.
#[cycle(value)]
fn write_and(
    alloc: Global,
    ops: &mut Items<Op>,
    scope: &[Param],
    left: &Expr,
    right: &Expr,
) -> Result<(), Memory>
    ensures { OnOk result (ops.new ≡ ops.old
        ++ and_code (value_ops left.now) (value_ops right.now) scope.now (length ops.old)) }
{
    write_value(alloc, ops, scope, left)?;
    let kept = ops.len();
    ops.push(Op::JumpFalse(0))?;
    write_value(alloc, ops, scope, right)?;
    push_two(ops, Op::Not, Op::Not)?;
    ops.push(Op::Jump(place_behind(ops, 2)?))?;
    let at_false = place_behind(ops, 0)?;
    ops.set(kept, Op::JumpFalse(at_false));
    ops.push(Op::Truth(false))?;
    Ok(())
}

/// Adds the code of `left || right`.
#[cycle(value)]
fn write_or(
    alloc: Global,
    ops: &mut Items<Op>,
    scope: &[Param],
    left: &Expr,
    right: &Expr,
) -> Result<(), Memory>
    ensures { OnOk result (ops.new ≡ ops.old
        ++ or_code (value_ops left.now) (value_ops right.now) scope.now (length ops.old)) }
{
    write_value(alloc, ops, scope, left)?;
    ops.push(Op::JumpFalse(place_behind(ops, 3)?))?;
    ops.push(Op::Truth(true))?;
    let kept = ops.len();
    ops.push(Op::Jump(0))?;
    write_value(alloc, ops, scope, right)?;
    push_two(ops, Op::Not, Op::Not)?;
    let end = place_behind(ops, 0)?;
    ops.set(kept, Op::Jump(end));
    Ok(())
}

/// Adds the code of an expression whose variable, if it is one, is not used again.
#[tactic(auto, using(crate::proofs::CodeForms::value_forms))]
pub fn write_moved(
    alloc: Global,
    ops: &mut Items<Op>,
    scope: &[Param],
    expression: &Expr,
) -> Result<(), Memory>
    ensures { OnOk result (ops.new ≡ ops.old ++ (expression_code expression.now).moved scope.now (length ops.old)) }
{
    match expression {
        Expr::Var(name) => ops.push(Op::Move(slot_of(scope, name)?))?,
        Expr::Number(_) | Expr::Str(_) | Expr::Truth(_) | Expr::Args | Expr::View(_) => {
            write_value(alloc, ops, scope, expression)?
        }
        Expr::Len(_) | Expr::Temp(_) | Expr::Not(_) | Expr::Byte(_, _) | Expr::Word(_, _) => {
            write_value(alloc, ops, scope, expression)?
        }
        Expr::Sub(_, _, _) | Expr::Alloc(_, _, _) | Expr::Bin(_, _, _) => {
            write_value(alloc, ops, scope, expression)?
        }
    }
    Ok(())
}

/// Adds the code of expressions one after another.
pub fn write_all(
    alloc: Global,
    ops: &mut Items<Op>,
    scope: &[Param],
    expressions: &[Expr],
) -> Result<(), Memory>
    ensures { OnOk result (ops.new ≡ ops.old ++ all_values expressions.now scope.now (length ops.old)) }
{
    for expression in expressions {
        write_value(alloc, ops, scope, expression)?;
    }
    Ok(())
}
