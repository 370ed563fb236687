//! The variables of a function, as its code is written.

ghost use Rattle.std.specs.Prelude.{◌≡◌, ◌+◌, ◌^◌, ◌≤◌, [], ◌∷◌, ◌++◌, take, length, IfOk, OnOk, OnErr};

use crate::numbers::narrow;
use ext_mean::{Kind, Name, Param};
use sp_base::Memory;
use std::alloc::Global;

/// Those in scope, and how many were declared in all.
#[derive(Drop)]
pub struct Variables {
    pub in_scope: Vec<Param>,
    pub declared: u16,
}

impl Variables {
    /// Brings one more into scope.
    pub fn declare(&mut self, alloc: Global, name: &Name, kind: Kind) -> Result<(), Memory>
        ensures scope { OnOk result (self.new.in_scope.items
            ≡ self.old.in_scope.items ++ record { name = name.now; kind = kind } ∷ []) }
        ensures declared { OnOk result (self.new.declared ≡ self.old.declared + 1) }
    {
        let declared = match self.declared.checked_add(1) {
            Some(declared) => declared,
            None => return Err(Memory),
        };
        let name = name.share(alloc)?;
        self.in_scope.push(Param { name, kind })?;
        self.declared = declared;
        Ok(())
    }

    /// The slot behind those in scope.
    pub fn next_slot(&self) -> Result<u16, Memory>
        ensures value { IfOk result (λ slot. slot ≡ length self.now.in_scope.items) }
        ensures wide { OnErr result (2 ^ 16 ≤ length self.now.in_scope.items) }
    {
        narrow(self.in_scope.len())
    }
}
