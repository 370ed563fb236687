ghost use Rattle.std.specs.Prelude.{◌≡◌, ◌<◌, ℕ, IfOk, IfErr, OnOk, MatchResult, None, Some, length, slice_get};
ghost use Rattle.ext_mean.specs.declared.refusal.Refusal.{Refusal};
ghost use Rattle.ext_mean.specs.declared.tree.Program.{Program};
ghost use Rattle.ext_mean.specs.Ownership.{IsOwned, borrow_fault};
ghost use Rattle.ext_mean.specs.Typing.{IsTyped, type_fault};
ghost use Rattle.ext_borrow.specs.Refusals as borrows;
ghost use Rattle.ext_types.specs.Refusals as types;
ghost use Rattle.ext_check.specs.Checking.{Explains, HaveLines, IsAccepted, IsRefused, Judges, Tells, unparsed};

use crate::fault::CheckFault;
use ext_borrow::{BorrowRefusal, check_borrows};
use ext_mean::{Program, Refusal};
use ext_parse::{ParseFault, Parsed, parse};
use ext_types::{TypeRefusal, check_types};
use std::alloc::Global;

/// The program that a text spells, where it is typed and keeps the rules of ownership.
pub fn check_text(alloc: Global, text: &[u8]) -> Result<Program, CheckFault>
    // What is accepted is a program of the text that passes both checks.
    ensures accepted { IfOk result (λ program. IsAccepted text.now program) }
    // Where the text is such a program it is accepted, unless memory runs out.
    ensures only { (program : Program) → IsAccepted text.now program →
        MatchResult result (λ other. other ≡ program) (λ e. e ≡ CheckFault.Memory) }
    // A refusal is the text's first one.
    ensures refused { IfErr result (λ e. Explains text.now e) }
    // The text's first refusal is told, unless memory runs out.
    ensures only_refused { (line : ℕ) (code : Refusal) → IsRefused text.now line code → Tells result line code }
{
    checked(alloc, text)
}

/// The same, by what is told alone.
fn checked(alloc: Global, text: &[u8]) -> Result<Program, CheckFault>
    ensures accepted { IfOk result (λ program. IsAccepted text.now program) }
    ensures only { (program : Program) → IsAccepted text.now program →
        MatchResult result (λ other. other ≡ program) (λ e. e ≡ CheckFault.Memory) }
    ensures refused { IfErr result (λ e. Explains text.now e) }
{
    match parse(alloc, text) {
        Ok(parsed) => judged(alloc, parsed),
        Err(fault) => Err(unparsed(fault)),
    }
}

/// Why a text that spells no program is refused.
fn unparsed(fault: ParseFault) -> CheckFault
    ensures { result ≡ unparsed fault }
{
    match fault {
        ParseFault::Syntax { line, code } => CheckFault::Refused {
            line,
            code: Refusal::Syntax(code),
        },
        ParseFault::Memory => CheckFault::Memory,
    }
}

/// A program, where it passes both checks.
fn judged(alloc: Global, parsed: Parsed) -> Result<Program, CheckFault>
    requires { HaveLines parsed.program parsed.lines.items }
    ensures program { IfOk result (λ program. program ≡ parsed.program) }
    ensures typed { OnOk result (IsTyped parsed.program) }
    ensures owned { OnOk result (IsOwned parsed.program) }
    ensures faulty { IfErr result (λ e. Judges parsed.program parsed.lines.items e) }
{
    judge(alloc, &parsed)?;
    Ok(parsed.program)
}

/// Whether a program passes both checks.
fn judge(alloc: Global, parsed: &Parsed) -> Result<(), CheckFault>
    requires { HaveLines parsed.now.program parsed.now.lines.items }
    ensures typed { OnOk result (IsTyped parsed.now.program) }
    ensures owned { OnOk result (IsOwned parsed.now.program) }
    ensures faulty { IfErr result (λ e. Judges parsed.now.program parsed.now.lines.items e) }
{
    if let Err(refusal) = check_types(alloc, &parsed.program) {
        return Err(untyped(parsed, refusal));
    }
    match check_borrows(alloc, &parsed.program) {
        Ok(()) => Ok(()),
        Err(refusal) => Err(unowned(parsed, refusal)),
    }
}

/// Why a program that is not typed is refused.
fn untyped(parsed: &Parsed, refusal: TypeRefusal) -> CheckFault
    requires lines { HaveLines parsed.now.program parsed.now.lines.items }
    requires explains { types.Explains refusal (type_fault parsed.now.program) }
    ensures { Judges parsed.now.program parsed.now.lines.items result }
{
    match refusal {
        TypeRefusal::Fault { item, code } => CheckFault::Refused {
            line: line_of(parsed.lines.as_slice(), item),
            code: Refusal::Types(code),
        },
        TypeRefusal::Memory => CheckFault::Memory,
    }
}

/// Why a typed program that breaks the rules of ownership is refused.
fn unowned(parsed: &Parsed, refusal: BorrowRefusal) -> CheckFault
    requires lines { HaveLines parsed.now.program parsed.now.lines.items }
    requires typed { IsTyped parsed.now.program }
    requires explains { borrows.Explains refusal (borrow_fault parsed.now.program) }
    ensures { Judges parsed.now.program parsed.now.lines.items result }
{
    match refusal {
        BorrowRefusal::Fault { item, code } => CheckFault::Refused {
            line: line_of(parsed.lines.as_slice(), item),
            code: Refusal::Borrows(code),
        },
        BorrowRefusal::Memory => CheckFault::Memory,
    }
}

/// The line of an item.
fn line_of(lines: &[u32], item: u32) -> u32
    requires { item < length lines.now }
    ensures { slice_get lines.now item ≡ Some result }
{
    lines[item as usize]
}
