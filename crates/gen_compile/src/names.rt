//! What the names of a program stand for in its code.

ghost use Rattle.std.specs.Prelude.{◌≡◌, ◌+◌, ◌^◌, ◌<◌, ◌≤◌, length, IfOk, OnErr};
ghost use Rattle.std.specs.Str.{bytes_eq};
ghost use Rattle.ext_mean.specs.Types.{kind_of};
ghost use Rattle.gen_code.specs.Codes.{number_below, slot_of};

use crate::numbers::narrow;
use ext_mean::{Function, Kind, Name, Param};
use sp_base::Memory;

/// Whether two names are the same.
fn is_name(name: &Name, other: &Name) -> bool
    ensures { result ≡ bytes_eq name.now other.now }
{
    name.bytes() == other.bytes()
}

/// The type of a variable that is in scope.
pub fn kind_of(scope: &[Param], name: &Name) -> Option<Kind>
    ensures { result ≡ kind_of scope.now name.now }
{
    for variable in scope {
        if is_name(&variable.name, name) {
            return Some(variable.kind);
        }
    }
    None
}

/// The place of a variable among those in scope, and a place behind all where it is not in scope.
fn place_of(scope: &[Param], name: &Name) -> usize
    ensures { result ≡ slot_of scope.now name.now }
{
    for (place, variable) in scope.iter().enumerate() {
        if is_name(&variable.name, name) {
            return place;
        }
    }
    scope.len() + 1
}

/// The slot of a variable.
pub fn slot_of(scope: &[Param], name: &Name) -> Result<u16, Memory>
    ensures value { IfOk result (λ slot. slot ≡ slot_of scope.now name.now) }
    ensures wide { OnErr result (2 ^ 16 ≤ slot_of scope.now name.now) }
{
    narrow(place_of(scope, name))
}

/// The functions that a function may call: the first so many of a program's.
#[derive(Clone, Copy)]
pub struct Callees<'a> {
    pub functions: &'a [Function],
    pub count: usize,
}

/// The number of the last of them that has a name, or 0 where none has.
fn last_named(callees: &Callees, name: &Name) -> usize
    ensures { result ≡ number_below callees.now.functions.now callees.now.count name.now }
{
    let functions = callees.functions;
    let mut left = callees.count;
    while left > 0 {
        left -= 1;
        if let Some(function) = functions.get(left) {
            if is_name(&function.name, name) {
                return left;
            }
        }
    }
    0
}

/// The number of the function that a call means.
pub fn number_of(callees: &Callees, name: &Name) -> Result<u16, Memory>
    ensures value { IfOk result (λ number. number ≡ number_below callees.now.functions.now callees.now.count name.now) }
    ensures wide { OnErr result (2 ^ 16 ≤ number_below callees.now.functions.now callees.now.count name.now) }
{
    narrow(last_named(callees, name))
}
