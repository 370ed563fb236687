ghost use Rattle.std.specs.Prelude.{◌≡◌};
ghost use Rattle.ext_mean.specs.MeaningExpressions.{decides, operate, quotient, remainder};
ghost use Rattle.ext_eval.specs.Gives.{Gives};

use crate::halt::Halt;
use crate::steps::require;
use crate::values::{number_of, same_value, truth_of};
use ext_mean::{BinOp, State, Value};
use sp_base::Trap;

/// Whether the left side decides: `||` where it is true, `&&` where it is false.
pub fn decides(operator: BinOp, left: &Value) -> bool
    ensures { result ≡ decides operator left.now }
{
    match operator {
        BinOp::Or => truth_of(left),
        BinOp::And => !truth_of(left),
        _ => false,
    }
}

fn quotient(state: &mut State, left: u64, right: u64) -> Result<Value, Halt>
    ensures { Gives result state.new (quotient left right state.old) }
{
    require(state, right > 0, Trap::Divide)?;
    Ok(Value::Int(left / right))
}

fn remainder(state: &mut State, left: u64, right: u64) -> Result<Value, Halt>
    ensures { Gives result state.new (remainder left right state.old) }
{
    require(state, right > 0, Trap::Divide)?;
    Ok(Value::Int(left % right))
}

/// An operator on two values.
pub fn operate(
    state: &mut State,
    operator: BinOp,
    left: &Value,
    right: &Value,
) -> Result<Value, Halt>
    ensures { Gives result state.new (operate operator left.now right.now state.old) }
{
    match operator {
        BinOp::Or | BinOp::And => Ok(Value::Bool(truth_of(right))),
        BinOp::Equal => Ok(Value::Bool(same_value(left, right))),
        BinOp::NotEqual => Ok(Value::Bool(!same_value(left, right))),
        BinOp::Less => Ok(Value::Bool(number_of(left) < number_of(right))),
        BinOp::LessEqual => Ok(Value::Bool(number_of(left) <= number_of(right))),
        BinOp::Greater => Ok(Value::Bool(number_of(left) > number_of(right))),
        BinOp::GreaterEqual => Ok(Value::Bool(number_of(left) >= number_of(right))),
        BinOp::Add => Ok(Value::Int(number_of(left).wrapping_add(number_of(right)))),
        BinOp::Subtract => Ok(Value::Int(number_of(left).wrapping_sub(number_of(right)))),
        BinOp::Multiply => Ok(Value::Int(number_of(left).wrapping_mul(number_of(right)))),
        BinOp::Divide => quotient(state, number_of(left), number_of(right)),
        BinOp::Remainder => remainder(state, number_of(left), number_of(right)),
    }
}
