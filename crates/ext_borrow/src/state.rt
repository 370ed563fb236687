ghost use Rattle.std.specs.Prelude.{◌≡◌, IfOk, OnOk, false, ◌∷◌, []};
ghost use Rattle.ext_mean.specs.Ownership.{either, extended, leaves};
ghost use Rattle.ext_mean.specs.Progress.{after, behind, joined};

use crate::marks::{either, extended};
use crate::scene::Scene;
use ext_mean::{BorrowCode, Progress};
use sp_base::Memory;
use std::alloc::Global;
use std::mem;

/// A walk through the items of a function.
#[derive(Drop)]
pub struct Walk {
    pub scene: Scene,
    /// The marks of the buffers that are gone.
    pub gone: Vec<bool>,
    pub progress: Progress<BorrowCode>,
}

impl Walk {
    /// Goes on behind an item.
    pub fn note(&mut self, code: Option<BorrowCode>) -> Result<(), Memory>
        ensures progress { OnOk result (self.new.progress ≡ after self.old.progress (code ∷ [])) }
        ensures gone { self.new.gone ≡ self.old.gone }
        ensures scene { self.new.scene ≡ self.old.scene }
    {
        self.progress.note(code)
    }

    /// The marks of what is gone.
    pub fn marks(&self, alloc: Global) -> Result<Vec<bool>, Memory>
        ensures { IfOk result (λ marks. marks.items ≡ self.now.gone.items) }
    {
        Ok(Vec::from_slice(alloc, self.gone.as_slice())?)
    }

    /// Turns from one block to the other, which begins with what was gone before both. What is gone
    /// behind the first is handed out.
    pub fn turn(&mut self, alloc: Global, before: &[bool]) -> Result<Vec<bool>, Memory>
        ensures first { IfOk result (λ first. first.items ≡ self.old.gone.items) }
        ensures gone { OnOk result (self.new.gone.items ≡ extended before.now self.old.gone.items) }
        ensures progress { self.new.progress ≡ self.old.progress }
        ensures scene { self.new.scene ≡ self.old.scene }
    {
        let again = extended(alloc, before, self.gone.len())?;
        Ok(mem::replace(&mut self.gone, again))
    }

    /// What is gone is gone behind either block.
    pub fn unite(&mut self, alloc: Global, first: &[bool]) -> Result<(), Memory>
        ensures gone { OnOk result (self.new.gone.items ≡ either first.now self.old.gone.items) }
        ensures progress { self.new.progress ≡ self.old.progress }
        ensures scene { self.new.scene ≡ self.old.scene }
    {
        self.gone = either(alloc, first, self.gone.as_slice())?;
        Ok(())
    }

    /// Leaves a block: one that ends with a `return` leaves what was gone before it.
    pub fn leave(&mut self, alloc: Global, returns: bool, before: &[bool]) -> Result<(), Memory>
        ensures gone { OnOk result (self.new.gone.items ≡ leaves returns before.now self.old.gone.items) }
        ensures progress { self.new.progress ≡ self.old.progress }
        ensures scene { self.new.scene ≡ self.old.scene }
    {
        if returns {
            self.gone = extended(alloc, before, self.gone.len())?;
        }
        Ok(())
    }

    /// Enters a loop, whose own item is judged behind its blocks. Its place is handed out.
    pub fn enter(&mut self) -> Result<Progress<BorrowCode>, Memory>
        ensures place { IfOk result (λ place. place ≡ self.old.progress) }
        ensures progress { OnOk result (self.new.progress ≡ behind self.old.progress) }
        ensures gone { self.new.gone ≡ self.old.gone }
        ensures scene { self.new.scene ≡ self.old.scene }
    {
        let place = self.progress;
        self.progress = place.behind()?;
        Ok(place)
    }

    /// Leaves a loop, whose own item has this code: behind it is gone what was gone before it.
    pub fn leave_loop(
        &mut self,
        alloc: Global,
        place: Progress<BorrowCode>,
        before: &[bool],
        code: Option<BorrowCode>,
    ) -> Result<(), Memory>
        ensures progress { OnOk result (self.new.progress
            ≡ joined (after place (code ∷ [])) self.old.progress) }
        ensures gone { OnOk result (self.new.gone.items ≡ extended before.now self.old.gone.items) }
        ensures scene { self.new.scene ≡ self.old.scene }
    {
        let mut progress = place;
        progress.note(code)?;
        progress.join(self.progress);
        self.progress = progress;
        self.gone = extended(alloc, before, self.gone.len())?;
        Ok(())
    }
}
