ghost use Rattle.std.specs.Prelude.{◌≡◌, ◌∷◌, [], OnErr, OnOk};
ghost use Rattle.std.specs.Arc.{arc_value};
ghost use Rattle.std.specs.Option.{option_copied};
ghost use Rattle.client_core.specs.Talking.{program_in};

use ext_mean::Program;
use sp_base::{ExtNo, Memory};
use std::alloc::Global;
use std::marker::Model;
use std::sync::Arc;

/// The program of an extension, which may be shared. Contracts see the program.
#[derive(Drop)]
pub struct Given {
    program: Arc<Program>,
}

impl Model for Given {
    ghost use Rattle.std.specs.Arc.{arc_value};
    ghost use Rattle.std.specs.Coded.{codes};
    ghost use Rattle.ext_mean.specs.contracts.statement.Block as block;
    ghost use Rattle.ext_mean.specs.declared.tree.Program.{Program};

    ghost Value = { Program };

    ghost coded = { Prim.hlevel (codes, block.the_row.coded) };

    ghost view = { λ g. arc_value g.program };
}

impl Given {
    pub fn program(&self) -> &Program
        ensures { result.now ≡ self.now }
    {
        &self.program
    }
}

/// The programs of the extensions that a client was given, with their numbers. Contracts see their list.
#[derive(Drop)]
pub struct Programs {
    items: Vec<(ExtNo, Given)>,
}

impl Model for Programs {
    ghost use Rattle.std.specs.Prelude.{List};
    ghost use Rattle.sp_base.specs.declared.numbers.ExtNo.{ExtNo};
    ghost use Rattle.ext_mean.specs.declared.tree.Program.{Program};
    ghost use Rattle.std.specs.Coded.{codes};
    ghost use Rattle.ext_mean.specs.contracts.statement.Block as block;

    ghost Value = { List (ExtNo × Program) };

    ghost coded = { Prim.hlevel (codes, block.the_row.coded) };

    ghost view = { λ p. p.items.items };
}

impl Programs {
    /// None.
    pub fn new(alloc: Global) -> Programs
        ensures { result ≡ [] }
    {
        Programs {
            items: Vec::new(alloc),
        }
    }

    /// The program of the extension with this number, where it was given.
    pub fn get(&self, number: ExtNo) -> Option<&Given>
        ensures { option_copied result ≡ program_in self.now number }
    {
        for (known, given) in &self.items {
            if known.0 == number.0 {
                return Some(given);
            }
        }
        None
    }

    /// Keeps one program more, in front of the others. Without memory nothing changes.
    pub fn add(&mut self, number: ExtNo, program: Arc<Program>) -> Result<(), Memory>
        ensures ok { OnOk result (self.new ≡ (number, arc_value program) ∷ self.old) }
        ensures err { OnErr result (self.new ≡ self.old) }
    {
        self.items.insert(0, (number, Given { program }))?;
        Ok(())
    }
}
