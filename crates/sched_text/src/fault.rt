ghost use Rattle.std.specs.Prelude.{◌≡◌};
ghost use Rattle.sched_text.specs.declared.fault.ScriptFault.TheVariants.{Memory};

use crate::code::LineCode;
use std::alloc::{AllocError, AllocFailed};
use thiserror::Error;

/// Why no script was read.
#[derive(Clone, Copy, Debug, PartialEq, Eq, Error)]
pub enum ScriptFault {
    /// The first bad line, and the first of its codes.
    #[error("script {line} {code}")]
    BadLine { line: u32, code: LineCode },
    #[error("out of memory")]
    Memory,
}

impl From<AllocError> for ScriptFault {
    ghost from_gives = { λ _ e. e ≡ Memory };

    fn from(_: AllocError) -> ScriptFault {
        ScriptFault::Memory
    }
}

impl<T: Drop> From<AllocFailed<T>> for ScriptFault {
    ghost from_gives = { λ _ e. e ≡ Memory };

    fn from(_: AllocFailed<T>) -> ScriptFault {
        ScriptFault::Memory
    }
}

impl From<sp_base::Memory> for ScriptFault {
    ghost from_gives = { λ _ e. e ≡ Memory };

    fn from(_: sp_base::Memory) -> ScriptFault {
        ScriptFault::Memory
    }
}
