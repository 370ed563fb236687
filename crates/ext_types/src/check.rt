ghost use Rattle.std.specs.Prelude.{◌≡◌, ◌<◌, ◌+◌, ◌==◌, ◌∷◌, None, IfOk, IfErr, OnOk, length, take};
ghost use Rattle.ext_mean.specs.Typing.{IsTyped, block_codes, function_codes, head_code, setting_of, type_fault};
ghost use Rattle.ext_mean.specs.Progress.{after, start};
ghost use Rattle.ext_types.specs.Refusals.{Explains};

use crate::functions::head_code;
use crate::place::Place;
use crate::refusal::TypeRefusal;
use crate::walk::{check_block, declare};
use ext_mean::{Function, Param, Program, Progress, TypeCode};
use sp_base::Memory;
use std::alloc::Global;

/// A function's parameters as the variables in scope.
fn scope_of(alloc: Global, params: &[Param]) -> Result<Vec<Param>, Memory>
    ensures { IfOk result (λ scope. scope.items ≡ params.now) }
{
    let mut scope = Vec::new(alloc);
    for param in params {
        declare(alloc, &mut scope, &param.name, param.kind)?;
    }
    Ok(scope)
}

/// Goes through the items of the function with a number: its head, and its block's.
fn check_function(
    alloc: Global,
    functions: &[Function],
    at: usize,
    function: &Function,
    progress: &mut Progress<TypeCode>,
) -> Result<(), Memory>
    requires { at < length functions.now }
    ensures { OnOk result (progress.new ≡ after progress.old
        (head_code (take at functions.now) (at + 1 == length functions.now) function.now
        ∷ block_codes (setting_of functions.now at function.now) function.now.body function.now.params)) }
{
    let before = &functions[..at];
    let last = at + 1 == functions.len();
    progress.note(head_code(before, last, function))?;
    let place = Place {
        functions,
        before,
        result: function.result,
    };
    let mut scope = scope_of(alloc, function.params.as_slice())?;
    check_block(alloc, &place, &mut scope, progress, &function.body)
}

/// Goes through all items.
fn check_functions(alloc: Global, functions: &[Function]) -> Result<Progress<TypeCode>, Memory>
    ensures { IfOk result (λ progress. progress ≡ after start (function_codes functions.now 0 functions.now)) }
{
    let mut progress = Progress::start();
    for (at, function) in functions.iter().enumerate() {
        check_function(alloc, functions, at, function, &mut progress)?;
    }
    Ok(progress)
}

/// Whether a program is typed: in each item a variable that is used is in scope, a function that is
/// called stands before, and each expression has the type that its place asks.
#[tactic(auto, unfolding(ext_mean::specs::Typing::type_fault))]
pub fn check_types(alloc: Global, program: &Program) -> Result<(), TypeRefusal>
    ensures ok { OnOk result (IsTyped program.now) }
    ensures fault { IfErr result (λ refusal. Explains refusal (type_fault program.now)) }
{
    match check_functions(alloc, program.functions.as_slice()) {
        Ok(progress) => match progress.found {
            None => Ok(()),
            Some((item, code)) => Err(TypeRefusal::Fault { item, code }),
        },
        Err(Memory) => Err(TypeRefusal::Memory),
    }
}
