ghost use Rattle.std.specs.Prelude.{◌≡◌, ◌||◌, is_none, not};
ghost use Rattle.ext_mean.specs.Items.{ends_with_return, is_return};
ghost use Rattle.ext_mean.specs.Typing.{head_code, is_main, repeats};
ghost use Rattle.ext_mean.specs.TypesOfItems.{function_named};

use crate::codes::{earlier, same_kind, unless};
use crate::scope::{is_name, kind_of};
use ext_mean::{Block, Function, Kind, Name, Param, Statement, TypeCode};

/// Whether a statement is a `return`.
fn is_return(statement: &Statement) -> bool
    ensures { result ≡ is_return statement.now }
{
    matches!(statement, Statement::Return { .. })
}

/// Whether a block ends with a `return`.
fn ends_with_return(block: &Block) -> bool
    ensures { result ≡ ends_with_return block.now }
{
    let mut returns = false;
    for statement in block.items.as_slice() {
        returns = is_return(statement);
    }
    returns
}

/// Whether a parameter's name stands twice.
fn repeats(params: &[Param]) -> bool
    ensures { result ≡ repeats params.now }
{
    for (i, param) in params.iter().enumerate() {
        if kind_of(&params[i + 1..], &param.name).is_some() {
            return true;
        }
    }
    false
}

/// `main` has no parameters and the result int.
fn is_main(function: &Function) -> bool
    ensures { result ≡ is_main function.now }
{
    function.name.bytes() == b"main".as_slice()
        && function.params.len() == 0
        && same_kind(Kind::Int, function.result)
}

/// Whether no function has this name.
fn is_new(name: &Name, functions: &[Function]) -> bool
    ensures { result ≡ is_none (function_named name.now functions.now) }
{
    for function in functions {
        if is_name(&function.name, name) {
            return false;
        }
    }
    true
}

/// Whether a function may stand there: the last one is `main`.
fn may_stand(last: bool, function: &Function) -> bool
    ensures { result ≡ (not last || is_main function.now) }
{
    !last || is_main(function)
}

/// The code of a function's head, behind the functions before it.
pub fn head_code(before: &[Function], last: bool, function: &Function) -> Option<TypeCode>
    ensures { result ≡ head_code before.now last function.now }
{
    let free = is_new(&function.name, before);
    let known = same_kind(Kind::Slice, function.result);
    let shape = earlier(
        unless(ends_with_return(&function.body), TypeCode::NoReturn),
        unless(may_stand(last, function), TypeCode::Main),
    );
    let head = earlier(unless(!known, TypeCode::Kind), shape);
    let params = unless(!repeats(function.params.as_slice()), TypeCode::Twice);
    earlier(unless(free, TypeCode::Twice), earlier(params, head))
}
