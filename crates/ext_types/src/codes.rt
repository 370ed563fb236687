ghost use Rattle.std.specs.Prelude.{◌≡◌};
ghost use Rattle.ext_mean.specs.Types.{rank, earlier, unless, untyped, asks, gives, same_kind, is_buffer};

use ext_mean::{Kind, TypeCode};

/// The place of a code in their order.
fn rank(code: TypeCode) -> u8
    ensures { result ≡ rank code }
{
    match code {
        TypeCode::NoName => 0,
        TypeCode::Order => 1,
        TypeCode::Twice => 2,
        TypeCode::Count => 3,
        TypeCode::Kind => 4,
        TypeCode::NoReturn => 5,
        TypeCode::Main => 6,
    }
}

/// The one of two codes that goes before the other.
pub fn earlier(first: Option<TypeCode>, second: Option<TypeCode>) -> Option<TypeCode>
    ensures { result ≡ earlier first second }
{
    match first {
        None => second,
        Some(one) => match second {
            None => Some(one),
            Some(other) => {
                if rank(one) <= rank(other) {
                    Some(one)
                } else {
                    Some(other)
                }
            }
        },
    }
}

/// What a test that fails gives an item.
pub fn unless(test: bool, code: TypeCode) -> Option<TypeCode>
    ensures { result ≡ unless test code }
{
    if test { None } else { Some(code) }
}

/// Whether two types are the same.
pub fn same_kind(one: Kind, other: Kind) -> bool
    ensures { result ≡ same_kind one other }
{
    match one {
        Kind::Int => matches!(other, Kind::Int),
        Kind::Bool => matches!(other, Kind::Bool),
        Kind::Slice => matches!(other, Kind::Slice),
        Kind::Buf => matches!(other, Kind::Buf),
        Kind::Temp => matches!(other, Kind::Temp),
    }
}

/// Whether it is the type of a buffer.
pub fn is_buffer(kind: Kind) -> bool
    ensures { result ≡ is_buffer kind }
{
    matches!(kind, Kind::Buf | Kind::Temp)
}

/// Why an expression has no type.
pub fn untyped(found: Result<Kind, TypeCode>) -> Option<TypeCode>
    ensures { result ≡ untyped found }
{
    match found {
        Ok(_) => None,
        Err(code) => Some(code),
    }
}

/// A place asks for an expression of a type.
pub fn asks(wanted: Kind, found: Result<Kind, TypeCode>) -> Option<TypeCode>
    ensures { result ≡ asks wanted found }
{
    match found {
        Ok(kind) => unless(same_kind(wanted, kind), TypeCode::Kind),
        Err(code) => Some(code),
    }
}

/// An expression has this type unless its operands have a code.
pub fn gives(kind: Kind, operands: Option<TypeCode>) -> Result<Kind, TypeCode>
    ensures { result ≡ gives kind operands }
{
    match operands {
        None => Ok(kind),
        Some(code) => Err(code),
    }
}
