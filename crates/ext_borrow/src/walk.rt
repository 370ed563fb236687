ghost use Rattle.std.specs.Prelude.{◌≡◌, ◌++◌, ◌∷◌, [], OnOk, false, length};
ghost use Rattle.ext_mean.specs.Items.{is_return};
ghost use Rattle.ext_mean.specs.Ownership.{declares_more, owned, owned_block, with_arm};
ghost use Rattle.ext_borrow.specs.Scenes.{seen};
ghost use Rattle.ext_borrow.specs.Walks.{Passes};

use crate::giving::declare;
use crate::plain::{
    hold, leave_multiget, leave_while, look_once, look_twice, pass_assign, pass_call, pass_copy,
    pass_let, pass_put, pass_return, pass_set,
};
use crate::state::Walk;
use crate::table::Row;
use ext_mean::{Block, Expr, Kind, Name, Statement};
use sp_base::Memory;
use std::alloc::Global;

/// Whether a statement is a `return`.
fn is_return(statement: &Statement) -> bool
    ensures { result ≡ is_return statement.now }
{
    matches!(statement, Statement::Return { .. })
}

/// Passes a block's items. The variables that it declares are in scope to its end.
#[cycle(walk)]
pub fn pass_block(
    alloc: Global,
    loans: &[Row],
    walk: &mut Walk,
    block: &Block,
) -> Result<(), Memory>
    ensures passes { OnOk result (Passes walk.old walk.new
        (owned_block loans.now block.now (seen walk.old.scene) walk.old.gone.items)) }
    ensures scene { OnOk result (seen walk.new.scene ≡ seen walk.old.scene) }
{
    let outer = walk.scene.scope.len();
    let before = walk.marks(alloc)?;
    let mut returns = false;
    for statement in block.items.as_slice() {
        pass_statement(alloc, loans, walk, statement)?;
        returns = is_return(statement);
    }
    walk.scene.scope.truncate(outer);
    walk.leave(alloc, returns, before.as_slice())
}

/// Passes the `some` block of a read, where the record is named.
#[cycle(walk)]
fn pass_arm(
    alloc: Global,
    loans: &[Row],
    walk: &mut Walk,
    some: &Name,
    found: &Block,
) -> Result<(), Memory>
    ensures passes { OnOk result (Passes walk.old walk.new (owned_block loans.now found.now
        (with_arm (seen walk.old.scene) (length walk.old.gone.items) some.now)
        (walk.old.gone.items ++ false ∷ []))) }
    ensures scene { OnOk result (seen walk.new.scene ≡ seen walk.old.scene) }
{
    let outside = walk.scene.scope.len();
    let number = walk.gone.len();
    declare(alloc, &mut walk.scene.scope, some, Kind::Slice, number)?;
    walk.gone.push(false)?;
    pass_block(alloc, loans, walk, found)?;
    walk.scene.scope.truncate(outside);
    Ok(())
}

/// Passes `if test { .. } else { .. }`.
#[cycle(walk)]
fn pass_if(
    alloc: Global,
    loans: &[Row],
    walk: &mut Walk,
    test: &Expr,
    yes: &Block,
    no: &Block,
) -> Result<(), Memory>
    ensures passes { OnOk result (Passes walk.old walk.new
        ((owned loans.now (Statement.If test.now yes.now no.now)).passes
        (seen walk.old.scene) walk.old.gone.items)) }
    ensures scene { OnOk result (seen walk.new.scene ≡ seen walk.old.scene) }
{
    let before = walk.marks(alloc)?;
    look_once(walk, test)?;
    pass_block(alloc, loans, walk, yes)?;
    let first = walk.turn(alloc, before.as_slice())?;
    pass_block(alloc, loans, walk, no)?;
    walk.unite(alloc, first.as_slice())
}

/// Passes `while test { .. }`.
#[cycle(walk)]
fn pass_while(
    alloc: Global,
    loans: &[Row],
    walk: &mut Walk,
    test: &Expr,
    body: &Block,
) -> Result<(), Memory>
    ensures passes { OnOk result (Passes walk.old walk.new
        ((owned loans.now (Statement.While test.now body.now)).passes
        (seen walk.old.scene) walk.old.gone.items)) }
    ensures scene { OnOk result (seen walk.new.scene ≡ seen walk.old.scene) }
{
    let before = walk.marks(alloc)?;
    let place = walk.enter()?;
    pass_block(alloc, loans, walk, body)?;
    leave_while(alloc, walk, place, before.as_slice(), test)
}

/// Passes `get(table, key)` with its arms, of which the first names the record.
#[cycle(walk)]
fn pass_get(
    alloc: Global,
    loans: &[Row],
    walk: &mut Walk,
    operands: (&Expr, &Expr),
    arms: (&Name, &Block, &Block),
) -> Result<(), Memory>
    ensures passes { OnOk result (Passes walk.old walk.new
        ((owned loans.now (Statement.Get operands.entry.0.now operands.entry.1.now
        arms.entry.0.now arms.entry.1.now arms.entry.2.now)).passes
        (seen walk.old.scene) walk.old.gone.items)) }
    ensures scene { OnOk result (seen walk.new.scene ≡ seen walk.old.scene) }
{
    let (table, key) = operands;
    let (some, yes, no) = arms;
    let before = walk.marks(alloc)?;
    look_twice(walk, table, key)?;
    pass_arm(alloc, loans, walk, some, yes)?;
    let first = walk.turn(alloc, before.as_slice())?;
    pass_block(alloc, loans, walk, no)?;
    walk.unite(alloc, first.as_slice())
}

/// Passes `multiget(table, keys, width)` with its arms, of which the first names each record.
#[cycle(walk)]
fn pass_multiget(
    alloc: Global,
    loans: &[Row],
    walk: &mut Walk,
    operands: (&Expr, &Expr, &Expr),
    arms: (&Name, &Block, &Block),
) -> Result<(), Memory>
    ensures passes { OnOk result (Passes walk.old walk.new
        ((owned loans.now (Statement.Multi operands.entry.0.now operands.entry.1.now
        operands.entry.2.now arms.entry.0.now arms.entry.1.now arms.entry.2.now)).passes
        (seen walk.old.scene) walk.old.gone.items)) }
    ensures scene { OnOk result (seen walk.new.scene ≡ seen walk.old.scene) }
{
    let (some, yes, no) = arms;
    let before = walk.marks(alloc)?;
    let place = walk.enter()?;
    hold(walk, operands.1)?;
    pass_arm(alloc, loans, walk, some, yes)?;
    let first = walk.turn(alloc, before.as_slice())?;
    pass_block(alloc, loans, walk, no)?;
    leave_multiget(
        alloc,
        walk,
        place,
        before.as_slice(),
        first.as_slice(),
        operands,
    )
}

/// Passes a statement's items, and brings into scope what it declares.
#[cycle(walk)]
#[tactic(auto, unfolding(ext_mean::specs::Ownership::owned))]
fn pass_statement(
    alloc: Global,
    loans: &[Row],
    walk: &mut Walk,
    statement: &Statement,
) -> Result<(), Memory>
    ensures passes { OnOk result (Passes walk.old walk.new
        ((owned loans.now statement.now).passes (seen walk.old.scene) walk.old.gone.items)) }
    ensures scene { OnOk result (seen walk.new.scene ≡ declares_more (seen walk.old.scene)
        (length walk.old.gone.items) (owned loans.now statement.now).declares) }
{
    match statement {
        Statement::Let { name, kind, value } => pass_let(alloc, loans, walk, (name, *kind), value),
        Statement::LetCall {
            name,
            kind,
            args,
            ..
        } => pass_call(alloc, loans, walk, (name, *kind), args.as_slice()),
        Statement::Assign { name, value } => pass_assign(loans, walk, name, value),
        Statement::If { test, yes, no } => pass_if(alloc, loans, walk, test, yes, no),
        Statement::While { test, body } => pass_while(alloc, loans, walk, test, body),
        Statement::Get {
            table,
            key,
            some,
            yes,
            no,
        } => pass_get(alloc, loans, walk, (table, key), (some, yes, no)),
        Statement::Multi {
            table,
            keys,
            width,
            some,
            yes,
            no,
        } => pass_multiget(alloc, loans, walk, (table, keys, width), (some, yes, no)),
        Statement::Set { name, place, value } => pass_set(loans, walk, name, (place, value)),
        Statement::Set8 { name, place, value } => pass_set(loans, walk, name, (place, value)),
        Statement::Copy {
            name,
            place,
            source,
        } => pass_copy(loans, walk, name, (place, source)),
        Statement::Put { name } => pass_put(loans, walk, name),
        Statement::Del { table, key } => look_twice(walk, table, key),
        Statement::Resp { value } => look_once(walk, value),
        Statement::Return { value } => pass_return(loans, walk, value),
    }
}
