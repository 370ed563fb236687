ghost use Rattle.std.specs.Prelude.{◌≡◌};
ghost use Rattle.ext_mean.specs.OwnedItems.{any_frozen, any_gone, borrows_moved, moved_all, moves_twice, views_moved};
ghost use Rattle.ext_borrow.specs.Scenes.{seen};

use crate::frozen::{borrows_marked, is_frozen};
use crate::marks::{mark, moves_marked};
use crate::origins::{moved_by, origin_of, uses_gone, views};
use crate::scene::Scene;
use crate::table::Row;
use ext_mean::{Expr, Variable};

/// Marks the buffers that arguments move.
pub fn moved_all(scope: &[Variable], marks: &mut Vec<bool>, args: &[Expr])
    ensures { marks.new.items ≡ moved_all scope.now marks.old.items args.now }
{
    for arg in args {
        mark(moved_by(scope, arg), marks);
    }
}

/// Whether an argument uses what is gone.
pub fn any_gone(scope: &[Variable], gone: &[bool], args: &[Expr]) -> bool
    ensures { result ≡ any_gone scope.now gone.now args.now }
{
    for arg in args {
        if uses_gone(scope, gone, arg) {
            return true;
        }
    }
    false
}

/// Whether an argument moves what an earlier one moved. The marks are those of the earlier ones.
pub fn moves_twice(scope: &[Variable], moved: &mut Vec<bool>, args: &[Expr]) -> bool
    ensures { result ≡ moves_twice scope.now moved.old.items args.now }
{
    for arg in args {
        let buffer = moved_by(scope, arg);
        if moves_marked(moved.as_slice(), buffer) {
            return true;
        }
        mark(buffer, moved);
    }
    false
}

/// Whether an argument moves what is frozen.
pub fn any_frozen(loans: &[Row], scene: &Scene, args: &[Expr]) -> bool
    ensures { result ≡ any_frozen loans.now (seen scene.now) args.now }
{
    for arg in args {
        if is_frozen(loans, scene, moved_by(scene.scope.as_slice(), arg)) {
            return true;
        }
    }
    false
}

/// Whether an argument views what an earlier one moved. The marks are those of the earlier ones.
pub fn views_moved(scope: &[Variable], moved: &mut Vec<bool>, args: &[Expr]) -> bool
    ensures { result ≡ views_moved scope.now moved.old.items args.now }
{
    for arg in args {
        if views(scope, moved.as_slice(), arg) {
            return true;
        }
        mark(moved_by(scope, arg), moved);
    }
    false
}

/// Whether an argument may borrow from a buffer that another one moves.
pub fn borrows_moved(loans: &[Row], scope: &[Variable], moved: &[bool], args: &[Expr]) -> bool
    ensures { result ≡ borrows_moved loans.now scope.now moved.now args.now }
{
    for arg in args {
        if borrows_marked(loans, moved, origin_of(scope, arg)) {
            return true;
        }
    }
    false
}
