ghost use Rattle.std.specs.Prelude.{◌≡◌, [], ◌∷◌, ◌++◌, OnOk};
ghost use Rattle.ext_mean.specs.Typing.{arm_name, block_codes, checked};
ghost use Rattle.ext_types.specs.Places.{setting};
ghost use Rattle.ext_mean.specs.Progress.{after};

use crate::items::statement_code;
use crate::place::Place;
use ext_mean::{Block, Kind, Name, Param, Progress, Statement, TypeCode};
use sp_base::Memory;
use std::alloc::Global;

/// Brings a variable into scope.
pub fn declare(alloc: Global, scope: &mut Vec<Param>, name: &Name, kind: Kind) -> Result<(), Memory>
    ensures { OnOk result (scope.new.items ≡ scope.old.items ++ record { name = name.now; kind = kind } ∷ []) }
{
    let name = name.share(alloc)?;
    scope.push(Param { name, kind })?;
    Ok(())
}

/// Goes through a block's items. The variables that it declares are in scope to its end.
#[cycle(walk)]
#[tactic(auto, using(ext_mean::proofs::ProgressLemmas::progress_lemmas), unfolding(ext_mean::specs::Typing::block_codes))]
pub fn check_block(
    alloc: Global,
    place: &Place,
    scope: &mut Vec<Param>,
    progress: &mut Progress<TypeCode>,
    block: &Block,
) -> Result<(), Memory>
    ensures codes { OnOk result
        (progress.new ≡ after progress.old (block_codes (setting place.now) block.now scope.old.items)) }
    ensures scope { OnOk result (scope.new.items ≡ scope.old.items) }
{
    let outer = scope.len();
    for statement in block.items.as_slice() {
        check_statement(alloc, place, scope, progress, statement)?;
    }
    scope.truncate(outer);
    Ok(())
}

/// Goes through the `some` block of a read, where the record is named.
#[cycle(walk)]
fn check_arm(
    alloc: Global,
    place: &Place,
    scope: &mut Vec<Param>,
    progress: &mut Progress<TypeCode>,
    some: &Name,
    found: &Block,
) -> Result<(), Memory>
    ensures codes { OnOk result (progress.new
        ≡ after progress.old (block_codes (setting place.now) found.now (scope.old.items ++ arm_name some.now))) }
    ensures scope { OnOk result (scope.new.items ≡ scope.old.items) }
{
    let outside = scope.len();
    declare(alloc, scope, some, Kind::Slice)?;
    check_block(alloc, place, scope, progress, found)?;
    scope.truncate(outside);
    Ok(())
}

/// Goes through a statement's items, and brings into scope what it declares.
#[cycle(walk)]
#[tactic(auto, using(ext_mean::proofs::ProgressLemmas::progress_lemmas), unfolding(ext_mean::specs::Typing::checked))]
fn check_statement(
    alloc: Global,
    place: &Place,
    scope: &mut Vec<Param>,
    progress: &mut Progress<TypeCode>,
    statement: &Statement,
) -> Result<(), Memory>
    ensures codes { OnOk result (progress.new
        ≡ after progress.old ((checked (setting place.now) statement.now).codes scope.old.items)) }
    ensures scope { OnOk result (scope.new.items
        ≡ scope.old.items ++ (checked (setting place.now) statement.now).declares) }
{
    let code = statement_code(place, scope.as_slice(), statement);
    progress.note(code)?;
    match statement {
        Statement::Let { name, kind, .. } | Statement::LetCall { name, kind, .. } => {
            declare(alloc, scope, name, *kind)
        }
        Statement::If { yes, no, .. } => {
            check_block(alloc, place, scope, progress, yes)?;
            check_block(alloc, place, scope, progress, no)
        }
        Statement::While { body, .. } => check_block(alloc, place, scope, progress, body),
        Statement::Get { some, yes, no, .. } | Statement::Multi { some, yes, no, .. } => {
            check_arm(alloc, place, scope, progress, some, yes)?;
            check_block(alloc, place, scope, progress, no)
        }
        _ => Ok(()),
    }
}
