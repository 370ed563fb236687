ghost use Rattle.std.specs.Prelude.{◌≡◌, Option};
ghost use Rattle.std.specs.Str.{bytes_eq};
ghost use Rattle.std.specs.Option.{option_copied};
ghost use Rattle.ext_mean.specs.declared.expr.Expr.TheViews.{out-Expr};
ghost use Rattle.ext_mean.specs.Origins.{any_marked, buffer_number, moved_by, origin_of, slice_origin, variable_named, view_origin, views};
ghost use Rattle.ext_mean.specs.OwnedItems.{number_of, uses_gone};

use crate::marks::{is_marked, moves_marked};
use ext_mean::{Expr, Kind, Name, Origin, Variable};

/// Whether two names are the same.
fn is_name(name: &Name, other: &Name) -> bool
    ensures { result ≡ bytes_eq name.now other.now }
{
    name.bytes() == other.bytes()
}

/// The variable of this name that is in scope.
pub fn variable_named<'a>(name: &Name, scope: &'a [Variable]) -> Option<&'a Variable>
    ensures { option_copied result ≡ variable_named name.now scope.now }
{
    for variable in scope {
        if is_name(&variable.name, name) {
            return Some(variable);
        }
    }
    None
}

/// The number of a variable.
pub fn number_of(name: &Name, scope: &[Variable]) -> Option<usize>
    ensures { result ≡ number_of (variable_named name.now scope.now) }
{
    match variable_named(name, scope) {
        Some(variable) => Some(variable.number),
        None => None,
    }
}

/// A slice variable as the origin of a value.
fn slice_origin(name: &Name, scope: &[Variable]) -> Origin
    ensures { result ≡ slice_origin (variable_named name.now scope.now) }
{
    match variable_named(name, scope) {
        Some(variable) => match variable.kind {
            Kind::Slice => Origin::Slice(variable.number),
            _ => Origin::Nothing,
        },
        None => Origin::Nothing,
    }
}

/// The view of a variable as the origin of a value.
fn view_origin(name: &Name, scope: &[Variable]) -> Origin
    ensures { result ≡ view_origin (variable_named name.now scope.now) }
{
    match variable_named(name, scope) {
        Some(variable) => Origin::View(variable.number),
        None => Origin::Nothing,
    }
}

/// From what a value may borrow: a view or a slice variable, as itself or at the first place of `sub`.
#[tactic(auto, unfolding(ext_mean::specs::Origins::origin_of))]
pub fn origin_of(scope: &[Variable], expression: &Expr) -> Origin
    ensures { result ≡ origin_of scope.now expression.now }
{
    match expression {
        Expr::Var(name) => slice_origin(name, scope),
        Expr::View(name) => view_origin(name, scope),
        Expr::Sub(bytes, _, _) => origin_of(scope, bytes.get()),
        _ => Origin::Nothing,
    }
}

/// The number of a buffer of this name.
fn buffer_number(name: &Name, scope: &[Variable]) -> Option<usize>
    ensures { result ≡ buffer_number (variable_named name.now scope.now) }
{
    match variable_named(name, scope) {
        Some(variable) => match variable.kind {
            Kind::Buf | Kind::Temp => Some(variable.number),
            _ => None,
        },
        None => None,
    }
}

/// The buffer that is the whole expression, which is then moved.
pub fn moved_by(scope: &[Variable], expression: &Expr) -> Option<usize>
    ensures { result ≡ moved_by scope.now expression.now }
{
    match expression {
        Expr::Var(name) => buffer_number(name, scope),
        _ => None,
    }
}

/// Whether a variable is marked.
pub fn any_marked(marks: &[bool], name: &Name, scope: &[Variable]) -> bool
    ensures { result ≡ any_marked marks.now (variable_named name.now scope.now) }
{
    match variable_named(name, scope) {
        Some(variable) => is_marked(marks, variable.number),
        None => false,
    }
}

/// Whether an expression has the view of a marked variable anywhere.
#[tactic(auto, unfolding(ext_mean::specs::Origins::views))]
pub fn views(scope: &[Variable], marks: &[bool], expression: &Expr) -> bool
    ensures { result ≡ views scope.now marks.now expression.now }
{
    match expression {
        Expr::View(name) => any_marked(marks, name, scope),
        Expr::Len(only) | Expr::Temp(only) | Expr::Not(only) => views(scope, marks, only.get()),
        Expr::Byte(first, second) | Expr::Word(first, second) | Expr::Bin(_, first, second) => {
            views(scope, marks, first.get()) || views(scope, marks, second.get())
        }
        Expr::Sub(first, second, third) | Expr::Alloc(first, second, third) => {
            views(scope, marks, first.get())
                || views(scope, marks, second.get())
                || views(scope, marks, third.get())
        }
        Expr::Number(_) | Expr::Str(_) | Expr::Truth(_) | Expr::Var(_) | Expr::Args => false,
    }
}

/// Whether a whole expression views or moves a buffer that is gone.
pub fn uses_gone(scope: &[Variable], gone: &[bool], expression: &Expr) -> bool
    ensures { result ≡ uses_gone scope.now gone.now expression.now }
{
    views(scope, gone, expression) || moves_marked(gone, moved_by(scope, expression))
}
