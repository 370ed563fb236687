ghost use Rattle.std.specs.Prelude.{◌≡◌, ◌+◌, ◌^◌, ◌++◌, ◌∷◌, [], OnOk, OnErr};
ghost use Rattle.ext_mean.specs.Borrowing.{block_giving, giving, numbered};
ghost use Rattle.ext_mean.specs.Typing.{arm_name};

use crate::origins::{number_of, origin_of};
use ext_mean::{Block, Gift, Kind, Name, Statement, Variable};
use sp_base::Memory;
use std::alloc::Global;

/// What was gathered from the items so far.
#[derive(Drop)]
pub struct Gathered {
    /// What they give to variables.
    pub gifts: Vec<Gift>,
    /// How many variables they declare.
    pub count: usize,
}

impl Gathered {
    /// One more declaration.
    fn count_one(&mut self) -> Result<(), Memory>
        ensures count { OnOk result (self.new.count ≡ self.old.count + 1) }
        ensures gifts { self.new.gifts ≡ self.old.gifts }
        // No memory is taken: only a declaration past the numbers of 64 bits is too many.
        ensures full { OnErr result (self.old.count + 1 ≡ 2 ^ 64) }
    {
        match self.count.checked_add(1) {
            Some(count) => {
                self.count = count;
                Ok(())
            }
            None => Err(Memory),
        }
    }
}

/// Brings a variable with a number into scope.
pub fn declare(
    alloc: Global,
    scope: &mut Vec<Variable>,
    name: &Name,
    kind: Kind,
    number: usize,
) -> Result<(), Memory>
    ensures { OnOk result (scope.new.items
        ≡ scope.old.items ++ numbered number (record { name = name.now; kind = kind } ∷ [])) }
{
    let name = name.share(alloc)?;
    scope.push(Variable { name, kind, number })?;
    Ok(())
}

/// Gathers what a block gives.
#[cycle(gather)]
#[tactic(auto, unfolding(ext_mean::specs::Borrowing::block_giving))]
pub fn gather_block(
    alloc: Global,
    scope: &mut Vec<Variable>,
    gathered: &mut Gathered,
    block: &Block,
) -> Result<(), Memory>
    ensures gifts { OnOk result (gathered.new.gifts.items
        ≡ gathered.old.gifts.items ++ (block_giving block.now).gifts scope.old.items gathered.old.count) }
    ensures count { OnOk result (gathered.new.count ≡ gathered.old.count + (block_giving block.now).count) }
    ensures scope { OnOk result (scope.new.items ≡ scope.old.items) }
{
    let outer = scope.len();
    for statement in block.items.as_slice() {
        gather_statement(alloc, scope, gathered, statement)?;
    }
    scope.truncate(outer);
    Ok(())
}

/// Gathers what the `some` block of a read gives, where the record is named.
#[cycle(gather)]
fn gather_arm(
    alloc: Global,
    scope: &mut Vec<Variable>,
    gathered: &mut Gathered,
    some: &Name,
    found: &Block,
) -> Result<(), Memory>
    ensures gifts { OnOk result (gathered.new.gifts.items ≡ gathered.old.gifts.items
        ++ (block_giving found.now).gifts (scope.old.items ++ numbered gathered.old.count (arm_name some.now))
        (gathered.old.count + 1)) }
    ensures count { OnOk result
        (gathered.new.count ≡ gathered.old.count + 1 + (block_giving found.now).count) }
    ensures scope { OnOk result (scope.new.items ≡ scope.old.items) }
{
    let outer = scope.len();
    declare(alloc, scope, some, Kind::Slice, gathered.count)?;
    gathered.count_one()?;
    gather_block(alloc, scope, gathered, found)?;
    scope.truncate(outer);
    Ok(())
}

/// Gathers what a statement gives, and brings into scope what it declares.
#[cycle(gather)]
#[tactic(auto, unfolding(ext_mean::specs::Borrowing::giving))]
fn gather_statement(
    alloc: Global,
    scope: &mut Vec<Variable>,
    gathered: &mut Gathered,
    statement: &Statement,
) -> Result<(), Memory>
    ensures gifts { OnOk result (gathered.new.gifts.items
        ≡ gathered.old.gifts.items ++ (giving statement.now).gifts scope.old.items gathered.old.count) }
    ensures count { OnOk result (gathered.new.count ≡ gathered.old.count + (giving statement.now).count) }
    ensures scope { OnOk result (scope.new.items
        ≡ scope.old.items ++ numbered gathered.old.count (giving statement.now).declares) }
{
    match statement {
        Statement::Let { name, kind, value } => {
            let to = gathered.count;
            let origin = origin_of(scope.as_slice(), value);
            gathered.gifts.push(Gift { to, origin })?;
            declare(alloc, scope, name, *kind, to)?;
            gathered.count_one()
        }
        Statement::LetCall { name, kind, .. } => {
            declare(alloc, scope, name, *kind, gathered.count)?;
            gathered.count_one()
        }
        Statement::Assign { name, value } => {
            if let Some(to) = number_of(name, scope.as_slice()) {
                let origin = origin_of(scope.as_slice(), value);
                gathered.gifts.push(Gift { to, origin })?;
            }
            Ok(())
        }
        Statement::If { yes, no, .. } => {
            gather_block(alloc, scope, gathered, yes)?;
            gather_block(alloc, scope, gathered, no)
        }
        Statement::While { body, .. } => gather_block(alloc, scope, gathered, body),
        Statement::Get { some, yes, no, .. } | Statement::Multi { some, yes, no, .. } => {
            gather_arm(alloc, scope, gathered, some, yes)?;
            gather_block(alloc, scope, gathered, no)
        }
        _ => Ok(()),
    }
}
