//! One line of a script, as it reads alone.

ghost use Rattle.std.specs.Prelude.{◌≡◌};
ghost use Rattle.sched_text.specs.declared.line.LineFault.TheVariants.{Memory};

use crate::code::LineCode;
use crate::event::Event;
use sp_base::{Level, Policy, TableId, TenantId};
use std::alloc::{AllocError, AllocFailed};

/// What a script is for.
#[derive(Clone, Copy, Debug, PartialEq, Eq)]
pub enum Kind {
    /// It is played from beginning to end.
    Play,
    /// It sets a server up.
    SetUp,
}

/// The first field of a line.
#[derive(Clone, Copy, Debug, PartialEq, Eq)]
pub enum Word {
    Tenant,
    Table,
    Policy,
    Limit,
    Workers,
    Put,
    Ext,
    Begin,
    Turn,
    Steal,
    Away,
    Cut,
}

/// What a line of a script says.
#[derive(Debug, Drop)]
pub enum ScriptLine {
    Tenant {
        tenant: TenantId,
        key: u64,
    },
    Table {
        table: TableId,
        tenant: TenantId,
        level: Level,
    },
    Policy(Policy),
    Limit(u64),
    Workers(u32),
    /// A text of so many lines follows.
    Ext {
        tenant: TenantId,
        lines: u32,
    },
    /// Any other line of the body.
    Body(Event),
}

/// Why a line, or a part of one, was not read.
#[derive(Clone, Copy, Debug, PartialEq, Eq)]
pub enum LineFault {
    Code(LineCode),
    Memory,
}

impl From<AllocError> for LineFault {
    ghost from_gives = { λ _ e. e ≡ Memory };

    fn from(_: AllocError) -> LineFault {
        LineFault::Memory
    }
}

impl<T: Drop> From<AllocFailed<T>> for LineFault {
    ghost from_gives = { λ _ e. e ≡ Memory };

    fn from(_: AllocFailed<T>) -> LineFault {
        LineFault::Memory
    }
}

impl From<sp_base::Memory> for LineFault {
    ghost from_gives = { λ _ e. e ≡ Memory };

    fn from(_: sp_base::Memory) -> LineFault {
        LineFault::Memory
    }
}
