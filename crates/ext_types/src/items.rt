ghost use Rattle.std.specs.Prelude.{◌≡◌};
ghost use Rattle.std.specs.Option.{option_copied};
ghost use Rattle.ext_mean.specs.declared.statement.Statement.TheViews.{out-Statement};
ghost use Rattle.ext_mean.specs.TypesOfItems.{arguments_code, assigned_code, call_code, function_named, new_name, statement_code};
ghost use Rattle.ext_mean.specs.declared.statement.Kind.TheVariants as kind;
ghost use Rattle.ext_mean.specs.Types.{asks, asks_buffer, earlier, kind_of, type_of};
ghost use Rattle.ext_types.specs.Places.{setting};

use crate::codes::{asks, earlier, same_kind, unless, untyped};
use crate::expressions::type_of;
use crate::place::Place;
use crate::scope::{asks_buffer, assigned_code, function_named, kind_of, new_name, put_code};
use ext_mean::{Expr, Function, Kind, Name, Param, Statement, TypeCode};

/// Arguments against parameters: as many, each of its parameter's type.
fn arguments_code(scope: &[Param], params: &[Param], args: &[Expr]) -> Option<TypeCode>
    ensures { result ≡ arguments_code scope.now params.now args.now }
{
    match args {
        [] => match params {
            [] => None,
            [_, ..] => Some(TypeCode::Count),
        },
        [arg, args @ ..] => match params {
            [] => {
                let code = earlier(untyped(type_of(scope, arg)), Some(TypeCode::Count));
                earlier(code, arguments_code(scope, params, args))
            }
            [param, params @ ..] => {
                let code = asks(param.kind, type_of(scope, arg));
                earlier(code, arguments_code(scope, params, args))
            }
        },
    }
}

/// A call of the function of this name before the caller, which gives a variable of a type.
fn call_code(
    place: &Place,
    scope: &[Param],
    name: &Name,
    wanted: Kind,
    args: &[Expr],
) -> Option<TypeCode>
    ensures { result ≡ call_code (setting place.now) scope.now name.now wanted
        (function_named name.now place.now.before.now) args.now }
{
    match function_named(name, place.before) {
        Some(function) => {
            let code = arguments_code(scope, function.params.as_slice(), args);
            earlier(
                code,
                unless(same_kind(wanted, function.result), TypeCode::Kind),
            )
        }
        None => {
            let code = arguments_code(scope, &[], args);
            match function_named(name, place.functions) {
                Some(_) => earlier(code, Some(TypeCode::Order)),
                None => earlier(code, Some(TypeCode::NoName)),
            }
        }
    }
}

/// A change of the bytes of a variable of type buf or temp at a place.
fn change_code(
    scope: &[Param],
    name: &Name,
    place: &Expr,
    wanted: Kind,
    value: &Expr,
) -> Option<TypeCode>
    ensures { result ≡ earlier (asks_buffer (kind_of scope.now name.now))
        (earlier (asks kind.Int (type_of scope.now place.now)) (asks wanted (type_of scope.now value.now))) }
{
    let code = asks_buffer(kind_of(scope, name));
    let place = asks(Kind::Int, type_of(scope, place));
    earlier(code, earlier(place, asks(wanted, type_of(scope, value))))
}

/// A table and a key.
fn key_code(scope: &[Param], table: &Expr, key: &Expr) -> Option<TypeCode>
    ensures { result ≡ earlier (asks kind.Int (type_of scope.now table.now))
        (asks kind.Slice (type_of scope.now key.now)) }
{
    let table = asks(Kind::Int, type_of(scope, table));
    earlier(table, asks(Kind::Slice, type_of(scope, key)))
}

/// A table, the keys of a `multiget` and their width.
fn keys_code(scope: &[Param], table: &Expr, keys: &Expr, width: &Expr) -> Option<TypeCode>
    ensures { result ≡ earlier (asks kind.Int (type_of scope.now table.now))
        (earlier (asks kind.Slice (type_of scope.now keys.now)) (asks kind.Int (type_of scope.now width.now))) }
{
    let code = asks(Kind::Int, type_of(scope, table));
    let keys = asks(Kind::Slice, type_of(scope, keys));
    earlier(code, earlier(keys, asks(Kind::Int, type_of(scope, width))))
}

/// `let name: kind = value;`
fn let_code(scope: &[Param], name: &Name, kind: Kind, value: &Expr) -> Option<TypeCode>
    ensures { result ≡ earlier (new_name scope.now name.now) (asks kind (type_of scope.now value.now)) }
{
    earlier(new_name(scope, name), asks(kind, type_of(scope, value)))
}

/// `let name: kind = function(args);`
fn let_call_code(
    at: &Place,
    scope: &[Param],
    variable: (&Name, Kind),
    function: &Name,
    args: &[Expr],
) -> Option<TypeCode>
    ensures { result ≡ earlier (new_name scope.now variable.entry.0.now)
        (call_code (setting at.now) scope.now function.now variable.entry.1
        (function_named function.now at.now.before.now) args.now) }
{
    let code = call_code(at, scope, function, variable.1, args);
    earlier(new_name(scope, variable.0), code)
}

/// `name = value;`
fn assign_code(scope: &[Param], name: &Name, value: &Expr) -> Option<TypeCode>
    ensures { result ≡ assigned_code (kind_of scope.now name.now) (type_of scope.now value.now) }
{
    assigned_code(kind_of(scope, name), type_of(scope, value))
}

/// The test of an `if` or `while`.
fn test_code(scope: &[Param], test: &Expr) -> Option<TypeCode>
    ensures { result ≡ asks kind.Bool (type_of scope.now test.now) }
{
    asks(Kind::Bool, type_of(scope, test))
}

/// The code of a statement's own item.
pub fn statement_code(at: &Place, scope: &[Param], statement: &Statement) -> Option<TypeCode>
    ensures { result ≡ statement_code (setting at.now) scope.now (out-Statement statement.now) }
{
    match statement {
        Statement::Let { name, kind, value } => let_code(scope, name, *kind, value),
        Statement::LetCall {
            name,
            kind,
            function,
            args,
        } => let_call_code(at, scope, (name, *kind), function, args.as_slice()),
        Statement::Assign { name, value } => assign_code(scope, name, value),
        Statement::If { test, .. } | Statement::While { test, .. } => test_code(scope, test),
        Statement::Get {
            table,
            key,
            some,
            ..
        } => earlier(new_name(scope, some), key_code(scope, table, key)),
        Statement::Multi {
            table,
            keys,
            width,
            some,
            ..
        } => earlier(new_name(scope, some), keys_code(scope, table, keys, width)),
        Statement::Set { name, place, value } | Statement::Set8 { name, place, value } => {
            change_code(scope, name, place, Kind::Int, value)
        }
        Statement::Copy {
            name,
            place,
            source,
        } => change_code(scope, name, place, Kind::Slice, source),
        Statement::Put { name } => put_code(kind_of(scope, name)),
        Statement::Del { table, key } => key_code(scope, table, key),
        Statement::Resp { value } => asks(Kind::Slice, type_of(scope, value)),
        Statement::Return { value } => asks(at.result, type_of(scope, value)),
    }
}
