ghost use Rattle.std.specs.Prelude.{◌≡◌};
ghost use Rattle.task.specs.Extensions.{fault_of};

use crate::ext_fault::ExtFault;
use ext_check::{CheckFault, check_text};
use ext_mean::Program;
use gen_code::Code;
use gen_compile::compile;
use sp_base::{Blob, Memory};
use std::alloc::Global;
use std::marker::Model;
use std::sync::Arc;

/// An extension: a text, and the program that it is accepted as. Contracts see both.
#[derive(Drop)]
pub struct Ext {
    text: Blob,
    program: Arc<Program>,
    /// The code of the program, which was compiled once.
    code: Arc<Code>,
}

impl Model for Ext {
    ghost use Rattle.std.specs.Arc.{arc_value};
    ghost use Rattle.std.specs.Coded.{codes};
    ghost use Rattle.ext_mean.specs.contracts.statement.Block as block;
    ghost use Rattle.ext_check.specs.Checking.{IsAccepted};
    ghost use Rattle.gen_code.specs.Does.{Does};
    ghost use Rattle.task.specs.Extensions.{ExtValue};

    ghost Value = { ExtValue };

    ghost coded = { Prim.hlevel (codes, block.the_row.coded) };

    ghost view = { λ e. record { text = e.text; program = arc_value e.program } };

    ghost invariant = { λ e. IsAccepted e.text (arc_value e.program) × Does (arc_value e.code) (arc_value e.program) };
}

impl Ext {
    ghost use Rattle.std.specs.Prelude.{◌≡◌, ℕ, IfOk, IfErr};
    ghost use Rattle.std.specs.Arc.{arc_value};
    ghost use Rattle.ext_mean.specs.declared.refusal.Refusal.{Refusal};
    ghost use Rattle.ext_mean.specs.declared.tree.Program.{Program};
    ghost use Rattle.ext_check.specs.Checking.{IsAccepted, IsRefused};
    ghost use Rattle.gen_code.specs.Does.{Does};
    ghost use Rattle.task.specs.Extensions.{Explains, IsExtension, Makes, Tells};

    /// The extension of a text that parses, is typed and keeps the rules of ownership. A text is
    /// refused by the first of these that fails, in this order.
    pub fn make(alloc: Global, text: &[u8]) -> Result<Ext, ExtFault>
        // An extension has this text, and a program as which it is accepted.
        ensures accepted { IfOk result (λ ext. IsExtension text.now ext) }
        // Where the text is accepted it is made one, unless memory runs out.
        ensures only { (program : Program) → IsAccepted text.now program → Makes text.now program result }
        // A refusal is the text's first one.
        ensures refused { IfErr result (λ fault. Explains text.now fault) }
        // The text's first refusal is told, unless memory runs out.
        ensures only_refused { (line : ℕ) (code : Refusal) → IsRefused text.now line code → Tells line code result }
    {
        match check_text(alloc, text) {
            Ok(program) => Ext::of(alloc, text, program),
            Err(fault) => Err(rejected(fault)),
        }
    }

    /// The extension of a text that is accepted as this program, with the program's code.
    fn of(alloc: Global, text: &[u8], program: Program) -> Result<Ext, ExtFault>
        requires { IsAccepted text.now program }
        ensures ok { IfOk result (λ ext. ext ≡ record { text = text.now; program = program }) }
        ensures err { IfErr result (λ fault. fault ≡ ExtFault.Memory) }
    {
        let text = Blob::of(alloc, text)?;
        let code = compile(alloc, &program)?;
        let Ok(code) = Arc::new(alloc, code) else {
            return Err(ExtFault::Memory);
        };
        match Arc::new(alloc, program) {
            Ok(program) => Ok(Ext {
                text,
                program,
                code,
            }),
            Err(_) => Err(ExtFault::Memory),
        }
    }

    pub fn text(&self) -> &[u8]
        ensures { result.now ≡ self.now.text }
    {
        self.text.bytes()
    }

    /// The program as which the text is accepted.
    pub fn program(&self) -> &Program
        ensures program { result.now ≡ self.now.program }
        ensures accepted { IsAccepted self.now.text self.now.program }
    {
        &self.program
    }

    /// Another hold on the program, without a copy of its tree.
    pub fn program_shared(&self) -> Result<Arc<Program>, Memory>
        ensures { IfOk result (λ program. arc_value program ≡ self.now.program) }
    {
        Ok(Arc::try_clone(&self.program)?)
    }

    /// Another hold on the code, which does what the program means.
    pub(crate) fn code_shared(&self) -> Result<Arc<Code>, Memory>
        ensures { IfOk result (λ code. Does (arc_value code) self.now.program) }
    {
        Ok(Arc::try_clone(&self.code)?)
    }
}

/// The fault of a text that the checks refuse.
fn rejected(fault: CheckFault) -> ExtFault
    ensures { result ≡ fault_of fault }
{
    match fault {
        CheckFault::Refused { line, code } => ExtFault::Rejected { line, code },
        CheckFault::Memory => ExtFault::Memory,
    }
}
