ghost use Rattle.std.specs.Prelude.{◌≡◌};
ghost use Rattle.ext_mean.specs.declared.statement.Kind.TheVariants as kind;
ghost use Rattle.ext_mean.specs.Types.{type_of, operator_type, asks, asks_equal, asks_both, earlier};

use crate::codes::{asks, earlier, gives, untyped};
use crate::scope::{asks_buffer, kind_of, variable_type};
use ext_mean::{BinOp, Expr, Kind, Param, TypeCode};

/// `==` and `!=` take two ints, two bools or two slices.
fn asks_equal(left: Result<Kind, TypeCode>, right: Result<Kind, TypeCode>) -> Option<TypeCode>
    ensures { result ≡ asks_equal left right }
{
    match left {
        Ok(Kind::Int) => asks(Kind::Int, right),
        Ok(Kind::Bool) => asks(Kind::Bool, right),
        Ok(Kind::Slice) => asks(Kind::Slice, right),
        other => earlier(asks(Kind::Int, other), untyped(right)),
    }
}

/// Two operands of one type.
fn asks_both(
    wanted: Kind,
    left: Result<Kind, TypeCode>,
    right: Result<Kind, TypeCode>,
) -> Option<TypeCode>
    ensures { result ≡ asks_both wanted left right }
{
    earlier(asks(wanted, left), asks(wanted, right))
}

/// A slice and two ints.
fn asks_slice_and_ints(
    bytes: Result<Kind, TypeCode>,
    first: Result<Kind, TypeCode>,
    second: Result<Kind, TypeCode>,
) -> Option<TypeCode>
    ensures { result ≡ earlier (asks kind.Slice bytes) (asks_both kind.Int first second) }
{
    let code = asks(Kind::Slice, bytes);
    earlier(code, asks_both(Kind::Int, first, second))
}

/// The type of an operator, with the types of its operands.
fn operator_type(
    operator: BinOp,
    left: Result<Kind, TypeCode>,
    right: Result<Kind, TypeCode>,
) -> Result<Kind, TypeCode>
    ensures { result ≡ operator_type operator left right }
{
    match operator {
        BinOp::Or | BinOp::And => gives(Kind::Bool, asks_both(Kind::Bool, left, right)),
        BinOp::Equal | BinOp::NotEqual => gives(Kind::Bool, asks_equal(left, right)),
        BinOp::Less | BinOp::LessEqual | BinOp::Greater | BinOp::GreaterEqual => {
            gives(Kind::Bool, asks_both(Kind::Int, left, right))
        }
        BinOp::Add | BinOp::Subtract | BinOp::Multiply | BinOp::Divide | BinOp::Remainder => {
            gives(Kind::Int, asks_both(Kind::Int, left, right))
        }
    }
}

/// The type of an expression, with these variables in scope, or why it has none.
#[tactic(auto, unfolding(ext_mean::specs::Types::type_of))]
pub fn type_of(scope: &[Param], expression: &Expr) -> Result<Kind, TypeCode>
    ensures { result ≡ type_of scope.now expression.now }
{
    match expression {
        Expr::Number(_) => Ok(Kind::Int),
        Expr::Str(_) | Expr::Args => Ok(Kind::Slice),
        Expr::Truth(_) => Ok(Kind::Bool),
        Expr::Var(name) => variable_type(kind_of(scope, name)),
        Expr::Len(bytes) => gives(Kind::Int, asks(Kind::Slice, type_of(scope, bytes.get()))),
        Expr::View(name) => gives(Kind::Slice, asks_buffer(kind_of(scope, name))),
        Expr::Temp(size) => gives(Kind::Temp, asks(Kind::Int, type_of(scope, size.get()))),
        Expr::Byte(bytes, place) | Expr::Word(bytes, place) => {
            let bytes = asks(Kind::Slice, type_of(scope, bytes.get()));
            gives(
                Kind::Int,
                earlier(bytes, asks(Kind::Int, type_of(scope, place.get()))),
            )
        }
        Expr::Sub(bytes, from, count) => {
            let bytes = type_of(scope, bytes.get());
            let from = type_of(scope, from.get());
            let count = type_of(scope, count.get());
            gives(Kind::Slice, asks_slice_and_ints(bytes, from, count))
        }
        Expr::Alloc(table, key, size) => {
            let key = type_of(scope, key.get());
            let table = type_of(scope, table.get());
            let size = type_of(scope, size.get());
            gives(Kind::Buf, asks_slice_and_ints(key, table, size))
        }
        Expr::Not(test) => gives(Kind::Bool, asks(Kind::Bool, type_of(scope, test.get()))),
        Expr::Bin(operator, left, right) => operator_type(
            *operator,
            type_of(scope, left.get()),
            type_of(scope, right.get()),
        ),
    }
}
