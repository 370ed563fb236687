ghost use Rattle.std.specs.Prelude.{◌≡◌, Option, option_map};
ghost use Rattle.std.specs.Str.{bytes_eq};
ghost use Rattle.std.specs.Option.{option_copied};
ghost use Rattle.ext_mean.specs.Types.{kind_of, asks_buffer, variable_type};
ghost use Rattle.ext_mean.specs.TypesOfItems.{function_named, new_name, assigned_code, put_code};

use crate::codes::{asks, is_buffer, same_kind, unless};
use ext_mean::{Function, Kind, Name, Param, TypeCode};

/// Whether two names are the same.
pub fn is_name(name: &Name, other: &Name) -> bool
    ensures { result ≡ bytes_eq name.now other.now }
{
    name.bytes() == other.bytes()
}

/// The type of a variable that is in scope.
pub fn kind_of(scope: &[Param], name: &Name) -> Option<Kind>
    ensures { result ≡ kind_of scope.now name.now }
{
    for variable in scope {
        if is_name(&variable.name, name) {
            return Some(variable.kind);
        }
    }
    None
}

/// The first function of this name.
pub fn function_named<'a>(name: &Name, functions: &'a [Function]) -> Option<&'a Function>
    ensures { option_copied result ≡ function_named name.now functions.now }
{
    for function in functions {
        if is_name(&function.name, name) {
            return Some(function);
        }
    }
    None
}

/// The type of a variable as an expression.
pub fn variable_type(found: Option<Kind>) -> Result<Kind, TypeCode>
    ensures { result ≡ variable_type found }
{
    match found {
        Some(kind) => Ok(kind),
        None => Err(TypeCode::NoName),
    }
}

/// A place asks for a variable of type buf or temp.
pub fn asks_buffer(found: Option<Kind>) -> Option<TypeCode>
    ensures { result ≡ asks_buffer found }
{
    match found {
        Some(kind) => unless(is_buffer(kind), TypeCode::Kind),
        None => Some(TypeCode::NoName),
    }
}

/// A name that is declared may not be in scope.
pub fn new_name(scope: &[Param], name: &Name) -> Option<TypeCode>
    ensures { result ≡ new_name scope.now name.now }
{
    unless(kind_of(scope, name).is_none(), TypeCode::Twice)
}

/// A variable that is assigned, with the type of its new value.
pub fn assigned_code(found: Option<Kind>, value: Result<Kind, TypeCode>) -> Option<TypeCode>
    ensures { result ≡ assigned_code found value }
{
    match found {
        Some(kind) => asks(kind, value),
        None => Some(TypeCode::NoName),
    }
}

/// `put` takes a variable of type buf.
pub fn put_code(found: Option<Kind>) -> Option<TypeCode>
    ensures { result ≡ put_code found }
{
    match found {
        Some(kind) => unless(same_kind(Kind::Buf, kind), TypeCode::Kind),
        None => Some(TypeCode::NoName),
    }
}
