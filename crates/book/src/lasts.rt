ghost use Rattle.std.specs.Prelude.{◌≡◌, OnOk, OnErr, if◌then◌else◌};
ghost use Rattle.sp_base.specs.declared.numbers.Caller.{Caller};
ghost use Rattle.journal.specs.Folds.{same_caller};
ghost use Rattle.book.specs.Indexes.{last_in};

use sp_base::{Caller, Memory};
use std::alloc::Global;
use std::collections::HashMap;

/// The number of each caller's last committed call.
#[derive(Drop)]
pub struct Lasts {
    /// By the caller's tenant and number.
    numbers: HashMap<(u32, u32), u64>,
}

impl Lasts {
    /// No calls.
    pub fn new(alloc: Global) -> Lasts
        ensures { (caller : Caller) → last_in result caller ≡ 0 }
    {
        Lasts {
            numbers: HashMap::new(alloc),
        }
    }

    /// The number of a caller's last call, or 0.
    pub fn get(&self, caller: Caller) -> u64
        ensures { result ≡ last_in self.now caller }
    {
        match self.numbers.get(&(caller.tenant.0, caller.number)) {
            Some(number) => *number,
            None => 0,
        }
    }

    /// Notes the number of a caller's last call. Without memory nothing changes.
    pub fn set(&mut self, caller: Caller, number: u64) -> Result<(), Memory>
        ensures ok { OnOk result ((other : Caller) → last_in self.new other
            ≡ (if same_caller caller other then number else last_in self.old other)) }
        ensures err { OnErr result ((other : Caller) → last_in self.new other ≡ last_in self.old other) }
    {
        self.numbers
            .insert((caller.tenant.0, caller.number), number)?;
        Ok(())
    }
}
