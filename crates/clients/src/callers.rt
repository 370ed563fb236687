ghost use Rattle.std.specs.Prelude.{◌≡◌, OnOk, OnErr, Some, None, if◌then◌else◌};
ghost use Rattle.sp_base.specs.declared.numbers.Caller.{Caller};
ghost use Rattle.journal.specs.Folds.{same_caller};
ghost use Rattle.clients.specs.Numbering.{number_of};

use sp_base::{Caller, Memory};
use std::alloc::Global;
use std::collections::HashMap;

/// A number for each of some callers.
#[derive(Debug, Drop)]
pub struct Callers {
    /// By the numbers of the tenant and the caller.
    numbers: HashMap<(u32, u32), u64>,
}

impl Callers {
    pub fn new(alloc: Global) -> Callers
        ensures { (caller : Caller) → number_of result caller ≡ None }
    {
        Callers {
            numbers: HashMap::new(alloc),
        }
    }

    /// The caller's number, where it has one.
    pub fn number(&self, caller: Caller) -> Option<u64>
        ensures { result ≡ number_of self.now caller }
    {
        let key = (caller.tenant.0, caller.number);
        let number = *self.numbers.get(&key)?;
        Some(number)
    }

    /// Gives a caller a number. Without memory nothing changes.
    pub fn add(&mut self, caller: Caller, number: u64) -> Result<(), Memory>
        ensures ok { OnOk result ((other : Caller) → number_of self.new other ≡
            (if same_caller caller other then Some number else number_of self.old other)) }
        ensures err { OnErr result ((other : Caller) → number_of self.new other ≡ number_of self.old other) }
    {
        let key = (caller.tenant.0, caller.number);
        self.numbers.insert(key, number)?;
        Ok(())
    }

    /// Takes a caller's number away.
    pub fn remove(&mut self, caller: Caller)
        ensures { (other : Caller) → number_of self.new other ≡
            (if same_caller caller other then None else number_of self.old other) }
    {
        let key = (caller.tenant.0, caller.number);
        self.numbers.remove(&key);
    }
}
