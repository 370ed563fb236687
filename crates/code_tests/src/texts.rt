//! Extensions as texts. A case stands on one line: the statements of `main`, or a whole program that begins
//! with `fn`, and then, behind an arrow, what is wanted.

ghost use Rattle.std.specs.Prelude.{IfOk};
ghost use Rattle.ext_mean.specs.Typing.{IsTyped};

use ext_check::check_text;
use ext_mean::Program;
use gen_code::Code;
use gen_compile::compile;
use std::alloc::Global;
use std::test::Fail;

/// A line, and what is wanted of it.
pub fn parts(line: &str) -> Result<(&str, &str), Fail> {
    match line.rsplit_once(" => ") {
        Some(parts) => Ok(parts),
        None => Err(Fail::new("no case")),
    }
}

/// The text of a case.
pub fn text_of(alloc: Global, case: &str) -> Result<String, Fail> {
    if case.starts_with("fn ") {
        return Ok(format!(in alloc; "{case}\n")?);
    }
    Ok(format!(in alloc; "fn main() -> int {{ {case} }}\n")?)
}

/// The program of a text. A text that may not run fails the test.
pub fn program_of(alloc: Global, text: &str) -> Result<Program, Fail>
    ensures { IfOk result (λ program. IsTyped program) }
{
    match check_text(alloc, text.as_bytes()) {
        Ok(program) => Ok(program),
        Err(fault) => Err(Fail::new(format!(in alloc; "{fault:?} {text}")?)),
    }
}

/// The code of a text.
pub fn code_of(alloc: Global, text: &str) -> Result<Code, Fail> {
    let program = program_of(alloc, text)?;
    Ok(compile(alloc, &program)?)
}
