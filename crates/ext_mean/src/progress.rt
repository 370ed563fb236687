ghost use Rattle.std.specs.Prelude.{◌≡◌, ◌+◌, ◌^◌, IfOk, OnOk, OnErr, [], ◌∷◌};
ghost use Rattle.ext_mean.specs.Progress.{after, behind, joined, start};

use sp_base::Memory;

/// How far a check has come through the items of a program, and what it has found, by its codes.
#[derive(Clone, Copy, Debug)]
pub struct Progress<C> {
    /// The number of the next item.
    pub item: u32,
    /// The first faulty item and its code.
    pub found: Option<(u32, C)>,
}

impl<C: Copy> Progress<C> {
    /// In front of all items.
    pub fn start() -> Progress<C>
        ensures { result ≡ start }
    {
        Progress {
            item: 0,
            found: None,
        }
    }

    /// Goes on behind one item.
    pub fn note(&mut self, code: Option<C>) -> Result<(), Memory>
        ensures ok { OnOk result (self.new ≡ after self.old (code ∷ [])) }
        // No memory is taken: only an item past the numbers of 32 bits is too many.
        ensures full { OnErr result (self.old.item + 1 ≡ 2 ^ 32) }
    {
        if self.found.is_none() {
            if let Some(code) = code {
                self.found = Some((self.item, code));
            }
        }
        match self.item.checked_add(1) {
            Some(next) => {
                self.item = next;
                Ok(())
            }
            None => Err(Memory),
        }
    }

    /// The place behind this item, with nothing found.
    pub fn behind(&self) -> Result<Progress<C>, Memory>
        ensures ok { IfOk result (λ progress. progress ≡ behind self.now) }
        // No memory is taken: only an item past the numbers of 32 bits is too many.
        ensures full { OnErr result (self.now.item + 1 ≡ 2 ^ 32) }
    {
        match self.item.checked_add(1) {
            Some(item) => Ok(Progress { item, found: None }),
            None => Err(Memory),
        }
    }

    /// Goes on behind items that were gone through apart, from the place behind this one.
    pub fn join(&mut self, inner: Progress<C>)
        ensures { self.new ≡ joined self.old inner }
    {
        match self.found {
            Some(_) => {}
            None => self.found = inner.found,
        }
        self.item = inner.item;
    }
}
