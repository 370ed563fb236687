ghost use Rattle.std.specs.Prelude.{◌≡◌, ◌||◌, ◌∷◌, [], false, IfOk};
ghost use Rattle.ext_mean.specs.OwnedItems.{any_views, assigns, calls, changes, first_code, looks, loops, moves};
ghost use Rattle.ext_borrow.specs.Scenes.{seen};

use crate::arguments::{any_frozen, any_gone, borrows_moved, moved_all, moves_twice, views_moved};
use crate::frozen::{is_frozen, outlived};
use crate::marks::no_marks;
use crate::origins::{any_marked, moved_by, number_of, origin_of, uses_gone, views};
use crate::scene::Scene;
use crate::table::Row;
use ext_mean::{BorrowCode, Expr, Name, Variable};
use sp_base::Memory;
use std::alloc::Global;

/// The first code that applies.
fn first_code(moved: bool, frozen: bool, outlived: bool, both: bool) -> Option<BorrowCode>
    ensures { result ≡ first_code moved frozen outlived both }
{
    if moved {
        Some(BorrowCode::Moved)
    } else if frozen {
        Some(BorrowCode::Frozen)
    } else if outlived {
        Some(BorrowCode::Outlived)
    } else if both {
        Some(BorrowCode::MoveAndBorrow)
    } else {
        None
    }
}

fn one_or(first: bool, second: bool) -> bool
    ensures { result ≡ (first || second) }
{
    first || second
}

fn views_one(scope: &[Variable], gone: &[bool], only: &Expr) -> bool
    ensures { result ≡ any_views scope.now gone.now (only.now ∷ []) }
{
    views(scope, gone, only)
}

fn views_two(scope: &[Variable], gone: &[bool], first: &Expr, second: &Expr) -> bool
    ensures { result ≡ any_views scope.now gone.now (first.now ∷ second.now ∷ []) }
{
    views(scope, gone, first) || views_one(scope, gone, second)
}

/// An item that looks at one expression.
pub fn look_at(scene: &Scene, gone: &[bool], only: &Expr) -> Option<BorrowCode>
    ensures { result ≡ looks (seen scene.now) gone.now (only.now ∷ []) }
{
    let moved = views_one(scene.scope.as_slice(), gone, only);
    first_code(moved, false, false, false)
}

/// An item that looks at two expressions.
pub fn look_at_two(scene: &Scene, gone: &[bool], first: &Expr, second: &Expr) -> Option<BorrowCode>
    ensures { result ≡ looks (seen scene.now) gone.now (first.now ∷ second.now ∷ []) }
{
    let moved = views_two(scene.scope.as_slice(), gone, first, second);
    first_code(moved, false, false, false)
}

/// A `while`.
pub fn loop_on(scene: &Scene, gone: &[bool], test: &Expr, leaves_gone: bool) -> Option<BorrowCode>
    ensures { result ≡ loops (seen scene.now) gone.now (test.now ∷ []) leaves_gone }
{
    let views = views_one(scene.scope.as_slice(), gone, test);
    first_code(one_or(views, leaves_gone), false, false, false)
}

/// A `multiget`.
pub fn loop_over(
    scene: &Scene,
    gone: &[bool],
    table: &Expr,
    keys: &Expr,
    width: &Expr,
    leaves_gone: bool,
) -> Option<BorrowCode>
    ensures { result
        ≡ loops (seen scene.now) gone.now (table.now ∷ keys.now ∷ width.now ∷ []) leaves_gone }
{
    let scope = scene.scope.as_slice();
    let views = one_or(
        views(scope, gone, table),
        views_two(scope, gone, keys, width),
    );
    first_code(one_or(views, leaves_gone), false, false, false)
}

/// An item that moves a whole expression.
pub fn moving(
    loans: &[Row],
    scene: &Scene,
    gone: &[bool],
    value: &Expr,
    outlived: bool,
) -> Option<BorrowCode>
    ensures { result ≡ moves loans.now (seen scene.now) gone.now value.now outlived }
{
    let scope = scene.scope.as_slice();
    let frozen = is_frozen(loans, scene, moved_by(scope, value));
    first_code(uses_gone(scope, gone, value), frozen, outlived, false)
}

/// An item that changes a buffer at a place.
pub fn changing(
    loans: &[Row],
    scene: &Scene,
    gone: &[bool],
    name: &Name,
    operands: (&Expr, &Expr),
    itself: bool,
) -> Option<BorrowCode>
    ensures { result ≡ changes loans.now (seen scene.now) gone.now name.now
        (operands.entry.0.now ∷ operands.entry.1.now ∷ []) itself }
{
    let scope = scene.scope.as_slice();
    let views = views_two(scope, gone, operands.0, operands.1);
    let frozen = is_frozen(loans, scene, number_of(name, scope));
    first_code(
        one_or(any_marked(gone, name, scope), views),
        one_or(frozen, itself),
        false,
        false,
    )
}

/// A `put`.
pub fn putting(loans: &[Row], scene: &Scene, gone: &[bool], name: &Name) -> Option<BorrowCode>
    ensures { result ≡ changes loans.now (seen scene.now) gone.now name.now [] false }
{
    let scope = scene.scope.as_slice();
    let frozen = is_frozen(loans, scene, number_of(name, scope));
    first_code(any_marked(gone, name, scope), frozen, false, false)
}

/// An assignment.
pub fn assigning(
    loans: &[Row],
    scene: &Scene,
    gone: &[bool],
    name: &Name,
    value: &Expr,
) -> Option<BorrowCode>
    ensures { result ≡ assigns loans.now (seen scene.now) gone.now name.now value.now }
{
    let scope = scene.scope.as_slice();
    let number = number_of(name, scope);
    let moved = is_frozen(loans, scene, moved_by(scope, value));
    let frozen = one_or(moved, is_frozen(loans, scene, number));
    let outlived = outlived(loans, number, origin_of(scope, value));
    first_code(uses_gone(scope, gone, value), frozen, outlived, false)
}

/// A call.
pub fn calling(
    alloc: Global,
    loans: &[Row],
    scene: &Scene,
    gone: &[bool],
    args: &[Expr],
) -> Result<Option<BorrowCode>, Memory>
    ensures { IfOk result (λ code. code ≡ calls loans.now (seen scene.now) gone.now args.now) }
{
    let scope = scene.scope.as_slice();
    let mut first = no_marks(alloc, gone.len())?;
    let twice = moves_twice(scope, &mut first, args);
    let mut second = no_marks(alloc, gone.len())?;
    let later = views_moved(scope, &mut second, args);
    let mut moved = no_marks(alloc, gone.len())?;
    moved_all(scope, &mut moved, args);
    let borrows = borrows_moved(loans, scope, moved.as_slice(), args);
    let frozen = any_frozen(loans, scene, args);
    let used = one_or(any_gone(scope, gone, args), twice);
    Ok(first_code(used, frozen, false, one_or(borrows, later)))
}
