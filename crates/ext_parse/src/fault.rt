ghost use Rattle.std.specs.Prelude.{◌≡◌};
ghost use Rattle.ext_parse.specs.declared.fault.ParseFault.TheVariants as fault;

use ext_mean::SyntaxCode;
use sp_base::Memory;
use std::alloc::{AllocError, AllocFailed};
use thiserror::Error;

/// Why a text gave no tree.
#[derive(Clone, Copy, Debug, PartialEq, Eq, Error)]
pub enum ParseFault {
    /// The text spells no program: its first fault, on this line, counted from 1.
    #[error("line {line} is no program: {code:?}")]
    Syntax { line: u32, code: SyntaxCode },
    #[error("out of memory")]
    Memory,
}

impl From<Memory> for ParseFault {
    ghost from_gives = { λ _ e. e ≡ fault.Memory };

    fn from(_: Memory) -> ParseFault {
        ParseFault::Memory
    }
}

impl From<AllocError> for ParseFault {
    ghost from_gives = { λ _ e. e ≡ fault.Memory };

    fn from(_: AllocError) -> ParseFault {
        ParseFault::Memory
    }
}

impl<T: Drop> From<AllocFailed<T>> for ParseFault {
    ghost from_gives = { λ _ e. e ≡ fault.Memory };

    fn from(_: AllocFailed<T>) -> ParseFault {
        ParseFault::Memory
    }
}
