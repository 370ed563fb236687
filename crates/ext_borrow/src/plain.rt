ghost use Rattle.std.specs.Prelude.{◌≡◌, ◌-◌, ◌||◌, ◌∷◌, [], OnOk, length, take};
ghost use Rattle.ext_mean.specs.Ownership.{Owned, declares_more, extended, form_passes, with_held};
ghost use Rattle.ext_mean.specs.OwnedItems.{looks, loops, newly_gone};
ghost use Rattle.ext_mean.specs.Progress.{after, joined};
ghost use Rattle.ext_mean.specs.declared.statement.Statement.TheOpen.{Statement-F};
ghost use Rattle.ext_borrow.specs.Scenes.{seen};
ghost use Rattle.ext_borrow.specs.Walks.{Passes};

use crate::arguments::moved_all;
use crate::frozen::{copies_itself, outlived};
use crate::giving::declare;
use crate::items::{
    assigning, calling, changing, look_at, look_at_two, loop_on, loop_over, moving, putting,
};
use crate::marks::{either_newly_gone, mark, newly_gone, unmark};
use crate::origins::{moved_by, number_of, origin_of};
use crate::state::Walk;
use crate::table::Row;
use ext_mean::{BorrowCode, Expr, Kind, Name, Progress};
use sp_base::Memory;
use std::alloc::Global;

/// Passes `let name: kind = value;`.
pub fn pass_let(
    alloc: Global,
    loans: &[Row],
    walk: &mut Walk,
    variable: (&Name, Kind),
    value: &Expr,
) -> Result<(), Memory>
    ensures passes { OnOk result (Passes walk.old walk.new (form_passes {A = Owned} loans.now
        (seen walk.old.scene) walk.old.gone.items
        (Statement-F.Let variable.entry.0.now variable.entry.1 value.now))) }
    ensures scene { OnOk result (seen walk.new.scene ≡ declares_more (seen walk.old.scene)
        (length walk.old.gone.items) (record { name = variable.entry.0.now; kind = variable.entry.1 } ∷ [])) }
{
    let number = walk.gone.len();
    let scope = walk.scene.scope.as_slice();
    let outlived = outlived(loans, Some(number), origin_of(scope, value));
    let moved = moved_by(scope, value);
    let code = moving(loans, &walk.scene, walk.gone.as_slice(), value, outlived);
    walk.progress.note(code)?;
    mark(moved, &mut walk.gone);
    walk.gone.push(false)?;
    declare(alloc, &mut walk.scene.scope, variable.0, variable.1, number)
}

/// Passes `let name: kind = function(args);`.
pub fn pass_call(
    alloc: Global,
    loans: &[Row],
    walk: &mut Walk,
    variable: (&Name, Kind),
    args: &[Expr],
) -> Result<(), Memory>
    ensures passes { OnOk result (Passes walk.old walk.new (form_passes {A = Owned} loans.now
        (seen walk.old.scene) walk.old.gone.items
        (Statement-F.LetCall variable.entry.0.now variable.entry.1 [] args.now))) }
    ensures scene { OnOk result (seen walk.new.scene ≡ declares_more (seen walk.old.scene)
        (length walk.old.gone.items) (record { name = variable.entry.0.now; kind = variable.entry.1 } ∷ [])) }
{
    let number = walk.gone.len();
    let code = calling(alloc, loans, &walk.scene, walk.gone.as_slice(), args)?;
    walk.progress.note(code)?;
    moved_all(walk.scene.scope.as_slice(), &mut walk.gone, args);
    walk.gone.push(false)?;
    declare(alloc, &mut walk.scene.scope, variable.0, variable.1, number)
}

/// Passes `name = value;`.
pub fn pass_assign(loans: &[Row], walk: &mut Walk, name: &Name, value: &Expr) -> Result<(), Memory>
    ensures passes { OnOk result (Passes walk.old walk.new (form_passes {A = Owned} loans.now
        (seen walk.old.scene) walk.old.gone.items (Statement-F.Assign name.now value.now))) }
    ensures scene { walk.new.scene ≡ walk.old.scene }
{
    let scope = walk.scene.scope.as_slice();
    let moved = moved_by(scope, value);
    let number = number_of(name, scope);
    let code = assigning(loans, &walk.scene, walk.gone.as_slice(), name, value);
    walk.progress.note(code)?;
    mark(moved, &mut walk.gone);
    unmark(number, &mut walk.gone);
    Ok(())
}

/// Passes `return value;`.
pub fn pass_return(loans: &[Row], walk: &mut Walk, value: &Expr) -> Result<(), Memory>
    ensures passes { OnOk result (Passes walk.old walk.new (form_passes {A = Owned} loans.now
        (seen walk.old.scene) walk.old.gone.items (Statement-F.Return value.now))) }
    ensures scene { walk.new.scene ≡ walk.old.scene }
{
    let moved = moved_by(walk.scene.scope.as_slice(), value);
    let code = moving(loans, &walk.scene, walk.gone.as_slice(), value, false);
    walk.progress.note(code)?;
    mark(moved, &mut walk.gone);
    Ok(())
}

/// Passes `put(name);`.
pub fn pass_put(loans: &[Row], walk: &mut Walk, name: &Name) -> Result<(), Memory>
    ensures passes { OnOk result (Passes walk.old walk.new (form_passes {A = Owned} loans.now
        (seen walk.old.scene) walk.old.gone.items (Statement-F.Put name.now))) }
    ensures scene { walk.new.scene ≡ walk.old.scene }
{
    let moved = number_of(name, walk.scene.scope.as_slice());
    let code = putting(loans, &walk.scene, walk.gone.as_slice(), name);
    walk.progress.note(code)?;
    mark(moved, &mut walk.gone);
    Ok(())
}

/// Passes `set(name, place, value);` or `set8(name, place, value);`.
pub fn pass_set(
    loans: &[Row],
    walk: &mut Walk,
    name: &Name,
    operands: (&Expr, &Expr),
) -> Result<(), Memory>
    ensures passes { OnOk result (Passes walk.old walk.new (form_passes {A = Owned} loans.now
        (seen walk.old.scene) walk.old.gone.items
        (Statement-F.Set name.now operands.entry.0.now operands.entry.1.now))) }
    ensures scene { walk.new.scene ≡ walk.old.scene }
{
    let code = changing(
        loans,
        &walk.scene,
        walk.gone.as_slice(),
        name,
        operands,
        false,
    );
    walk.progress.note(code)
}

/// Passes `copy(name, place, source);`.
pub fn pass_copy(
    loans: &[Row],
    walk: &mut Walk,
    name: &Name,
    operands: (&Expr, &Expr),
) -> Result<(), Memory>
    ensures passes { OnOk result (Passes walk.old walk.new (form_passes {A = Owned} loans.now
        (seen walk.old.scene) walk.old.gone.items
        (Statement-F.Copy name.now operands.entry.0.now operands.entry.1.now))) }
    ensures scene { walk.new.scene ≡ walk.old.scene }
{
    let scope = walk.scene.scope.as_slice();
    let itself = copies_itself(loans, number_of(name, scope), origin_of(scope, operands.1));
    let code = changing(
        loans,
        &walk.scene,
        walk.gone.as_slice(),
        name,
        operands,
        itself,
    );
    walk.progress.note(code)
}

/// Passes an item that looks at one expression.
pub fn look_once(walk: &mut Walk, only: &Expr) -> Result<(), Memory>
    ensures progress { OnOk result (walk.new.progress
        ≡ after walk.old.progress (looks (seen walk.old.scene) walk.old.gone.items (only.now ∷ []) ∷ [])) }
    ensures gone { walk.new.gone ≡ walk.old.gone }
    ensures scene { walk.new.scene ≡ walk.old.scene }
{
    let code = look_at(&walk.scene, walk.gone.as_slice(), only);
    walk.progress.note(code)
}

/// Passes an item that looks at two expressions.
pub fn look_twice(walk: &mut Walk, first: &Expr, second: &Expr) -> Result<(), Memory>
    ensures progress { OnOk result (walk.new.progress ≡ after walk.old.progress
        (looks (seen walk.old.scene) walk.old.gone.items (first.now ∷ second.now ∷ []) ∷ [])) }
    ensures gone { walk.new.gone ≡ walk.old.gone }
    ensures scene { walk.new.scene ≡ walk.old.scene }
{
    let code = look_at_two(&walk.scene, walk.gone.as_slice(), first, second);
    walk.progress.note(code)
}

/// Leaves a `while`.
pub fn leave_while(
    alloc: Global,
    walk: &mut Walk,
    place: Progress<BorrowCode>,
    before: &[bool],
    test: &Expr,
) -> Result<(), Memory>
    ensures progress { OnOk result (walk.new.progress ≡ joined (after place
        (loops (seen walk.old.scene) before.now (test.now ∷ [])
        (newly_gone before.now walk.old.gone.items) ∷ [])) walk.old.progress) }
    ensures gone { OnOk result (walk.new.gone.items ≡ extended before.now walk.old.gone.items) }
    ensures scene { walk.new.scene ≡ walk.old.scene }
{
    let leaves = newly_gone(before, walk.gone.as_slice());
    let code = loop_on(&walk.scene, before, test, leaves);
    walk.leave_loop(alloc, place, before, code)
}

/// Enters the arms of a `multiget`: its keys are held.
pub fn hold(walk: &mut Walk, keys: &Expr) -> Result<(), Memory>
    ensures scene { OnOk result (seen walk.new.scene ≡ with_held (seen walk.old.scene) keys.now) }
    ensures gone { walk.new.gone ≡ walk.old.gone }
    ensures progress { walk.new.progress ≡ walk.old.progress }
{
    let origin = origin_of(walk.scene.scope.as_slice(), keys);
    walk.scene.held.push(origin)?;
    Ok(())
}

/// Leaves a `multiget`, whose `some` blocks leave these buffers gone.
pub fn leave_multiget(
    alloc: Global,
    walk: &mut Walk,
    place: Progress<BorrowCode>,
    before: &[bool],
    first: &[bool],
    operands: (&Expr, &Expr, &Expr),
) -> Result<(), Memory>
    ensures progress { OnOk result (walk.new.progress ≡ joined (after place
        (loops (seen walk.new.scene) before.now
        (operands.entry.0.now ∷ operands.entry.1.now ∷ operands.entry.2.now ∷ [])
        (newly_gone before.now first.now || newly_gone before.now walk.old.gone.items) ∷ []))
        walk.old.progress) }
    ensures gone { OnOk result (walk.new.gone.items ≡ extended before.now walk.old.gone.items) }
    ensures scene { walk.new.scene.scope ≡ walk.old.scene.scope }
    ensures held { OnOk result (walk.new.scene.held.items
        ≡ take (length walk.old.scene.held.items - 1) walk.old.scene.held.items) }
{
    let _keys = walk.scene.held.pop();
    let leaves = either_newly_gone(before, first, walk.gone.as_slice());
    let code = loop_over(
        &walk.scene,
        before,
        operands.0,
        operands.1,
        operands.2,
        leaves,
    );
    walk.leave_loop(alloc, place, before, code)
}
