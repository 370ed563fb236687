//! The tokens of functions and programs.

ghost use Rattle.std.specs.Prelude.{◌≡◌, ◌++◌, OnOk};
ghost use Rattle.ext_mean.specs.Canonical as canon;

use crate::shown_plain::{show_kind, show_mark, show_name, show_word};
use crate::shown_statements::show_block;
use ext_mean::{Function, Mark, Param, Program, Token, Word};
use sp_base::Memory;
use sqlite_items::Items;
use std::alloc::Global;

/// Adds the tokens of a program.
pub fn show_program(
    alloc: Global,
    tokens: &mut Items<Token>,
    program: &Program,
) -> Result<(), Memory>
    ensures { OnOk result (tokens.new ≡ tokens.old ++ canon.program_shown program.now) }
{
    for function in program.functions.as_slice() {
        show_function(alloc, tokens, function)?;
    }
    Ok(())
}

/// Adds a function.
fn show_function(
    alloc: Global,
    tokens: &mut Items<Token>,
    function: &Function,
) -> Result<(), Memory>
    ensures { OnOk result (tokens.new ≡ tokens.old ++ canon.function_shown function.now) }
{
    show_word(tokens, Word::Fn)?;
    show_name(alloc, tokens, &function.name)?;
    show_mark(tokens, Mark::Open)?;
    show_parameters(alloc, tokens, function.params.as_slice())?;
    show_mark(tokens, Mark::Close)?;
    show_mark(tokens, Mark::Arrow)?;
    show_kind(tokens, function.result)?;
    show_block(alloc, tokens, &function.body)
}

/// Adds the parameters with commas between them.
fn show_parameters(alloc: Global, tokens: &mut Items<Token>, params: &[Param]) -> Result<(), Memory>
    ensures { OnOk result (tokens.new ≡ tokens.old ++ canon.parameters_shown params.now) }
{
    if let [first, more @ ..] = params {
        show_parameter(alloc, tokens, first)?;
        show_listed_parameters(alloc, tokens, more)?;
    }
    Ok(())
}

/// Adds parameters, each behind a comma.
fn show_listed_parameters(
    alloc: Global,
    tokens: &mut Items<Token>,
    params: &[Param],
) -> Result<(), Memory>
    ensures { OnOk result (tokens.new ≡ tokens.old ++ canon.parameters_behind params.now) }
{
    for param in params {
        show_mark(tokens, Mark::Comma)?;
        show_parameter(alloc, tokens, param)?;
    }
    Ok(())
}

/// Adds `name: kind`.
fn show_parameter(alloc: Global, tokens: &mut Items<Token>, param: &Param) -> Result<(), Memory>
    ensures { OnOk result (tokens.new ≡ tokens.old ++ canon.parameter_shown param.now) }
{
    show_name(alloc, tokens, &param.name)?;
    show_mark(tokens, Mark::Colon)?;
    show_kind(tokens, param.kind)
}
