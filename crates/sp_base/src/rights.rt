ghost use Rattle.std.specs.Prelude.{◌≡◌, ◌≢◌, ◌<◌, ◌^◌, IfOk};
ghost use Rattle.sp_base.specs.RightsList.{AreRights, level_of};

use crate::memory::Memory;
use crate::numbers::TableId;
use std::alloc::Global;
use std::marker::Model;

/// What a tenant may do with a table.
#[derive(Clone, Copy, Debug, PartialEq, Eq)]
pub enum Level {
    Nothing,
    Read,
    /// Read and write.
    Write,
}

/// The tables that a tenant may use, with their levels. Contracts see the list.
#[derive(Debug, Drop)]
pub struct Rights {
    list: Vec<(TableId, Level)>,
}

impl Model for Rights {
    ghost use Rattle.std.specs.Prelude.{List};
    ghost use Rattle.sp_base.specs.declared.numbers.TableId.{TableId};
    ghost use Rattle.sp_base.specs.declared.rights.Level.{Level};
    ghost use Rattle.sp_base.specs.RightsList.{AreRights};

    ghost Value = { List (TableId × Level) };

    ghost view = { λ r. r.list.items };

    ghost invariant = { λ r. AreRights r.list.items };
}

impl Rights {
    /// The rights of this list.
    pub fn of(list: Vec<(TableId, Level)>) -> Rights
        requires { AreRights list.items }
        ensures { result ≡ list.items }
    {
        Rights { list }
    }

    pub fn as_slice(&self) -> &[(TableId, Level)]
        ensures list { result.now ≡ self.now }
        ensures rights { AreRights self.now }
    {
        self.list.as_slice()
    }

    /// The level of a table: `Nothing` for a number that the list does not have.
    pub fn level(&self, table: u64) -> Level
        ensures level { result ≡ level_of self.now table }
        ensures small { result ≢ Level.Nothing → table < 2 ^ 32 }
    {
        for (number, level) in &self.list {
            if u64::from(number.0) == table {
                return *level;
            }
        }
        Level::Nothing
    }

    /// Equal rights.
    pub fn share(&self, alloc: Global) -> Result<Rights, Memory>
        ensures { IfOk result (λ rights. rights ≡ self.now) }
    {
        let list = Vec::from_slice(alloc, self.list.as_slice())?;
        Ok(Rights { list })
    }
}
