ghost use Rattle.std.specs.Prelude.{◌≡◌, ◌+◌, IfOk, IfErr, OnOk, false, length, replicate};
ghost use Rattle.ext_mean.specs.Borrowing.{loans_of, numbered};
ghost use Rattle.ext_mean.specs.Ownership.{IsOwned, borrow_fault, owned_function, owned_functions};
ghost use Rattle.ext_mean.specs.Progress.{after, start};
ghost use Rattle.ext_borrow.specs.Refusals.{Explains};

use crate::giving::{Gathered, declare, gather_block};
use crate::marks::no_marks;
use crate::refusal::BorrowRefusal;
use crate::scene::Scene;
use crate::state::Walk;
use crate::table::{Row, loans};
use crate::walk::pass_block;
use ext_mean::{BorrowCode, Function, Param, Program, Progress, Variable};
use sp_base::Memory;
use std::alloc::Global;

/// A function's parameters as the variables in scope.
fn scope_of(alloc: Global, params: &[Param]) -> Result<Vec<Variable>, Memory>
    ensures { IfOk result (λ scope. scope.items ≡ numbered 0 params.now) }
{
    let mut scope = Vec::new(alloc);
    for (number, param) in params.iter().enumerate() {
        declare(alloc, &mut scope, &param.name, param.kind, number)?;
    }
    Ok(scope)
}

/// From what the slices of a function may borrow.
#[tactic(auto, unfolding(ext_mean::specs::Borrowing::loans_of))]
fn loans_in(alloc: Global, function: &Function) -> Result<Vec<Row>, Memory>
    ensures { IfOk result (λ loans. loans.items ≡ loans_of function.now) }
{
    let mut scope = scope_of(alloc, function.params.as_slice())?;
    let mut gathered = Gathered {
        gifts: Vec::new(alloc),
        count: function.params.len(),
    };
    gather_block(alloc, &mut scope, &mut gathered, &function.body)?;
    loans(alloc, gathered.gifts.as_slice(), gathered.count)
}

/// Goes through a function's items.
#[tactic(auto, using(ext_mean::proofs::ProgressLemmas::progress_lemmas))]
fn check_function(
    alloc: Global,
    function: &Function,
    progress: Progress<BorrowCode>,
) -> Result<Progress<BorrowCode>, Memory>
    ensures { IfOk result (λ is. is ≡ after progress (owned_function function.now)) }
{
    let loans = loans_in(alloc, function)?;
    let scene = Scene {
        scope: scope_of(alloc, function.params.as_slice())?,
        held: Vec::new(alloc),
    };
    let gone = no_marks(alloc, function.params.len())?;
    let mut walk = Walk {
        scene,
        gone,
        progress,
    };
    walk.note(None)?;
    pass_block(alloc, loans.as_slice(), &mut walk, &function.body)?;
    Ok(walk.progress)
}

/// Goes through all items.
#[tactic(auto, using(ext_mean::proofs::ProgressLemmas::progress_lemmas))]
fn check_functions(alloc: Global, functions: &[Function]) -> Result<Progress<BorrowCode>, Memory>
    ensures { IfOk result (λ progress. progress ≡ after start (owned_functions functions.now)) }
{
    let mut progress = Progress::start();
    for function in functions {
        progress = check_function(alloc, function, progress)?;
    }
    Ok(progress)
}

/// Whether a program keeps the rules of ownership: no item uses a buffer that is gone, changes one of
/// which a slice may still be read, lets a slice outlive its buffer, or moves and borrows. It is asked
/// of typed programs.
#[tactic(auto, unfolding(ext_mean::specs::Ownership::borrow_fault))]
pub fn check_borrows(alloc: Global, program: &Program) -> Result<(), BorrowRefusal>
    ensures ok { OnOk result (IsOwned program.now) }
    ensures fault { IfErr result (λ refusal. Explains refusal (borrow_fault program.now)) }
{
    match check_functions(alloc, program.functions.as_slice()) {
        Ok(progress) => match progress.found {
            None => Ok(()),
            Some((item, code)) => Err(BorrowRefusal::Fault { item, code }),
        },
        Err(Memory) => Err(BorrowRefusal::Memory),
    }
}
