ghost use Rattle.std.specs.Prelude.{◌≡◌};
ghost use Rattle.ext_check.specs.declared.fault.CheckFault.TheVariants as fault;

use ext_mean::Refusal;
use sp_base::Memory;
use thiserror::Error;

/// Why a text is not accepted.
#[derive(Clone, Copy, Debug, PartialEq, Eq, Error)]
pub enum CheckFault {
    /// The text is refused, first on this line, counted from 1, and for this reason.
    #[error("line {line} is refused: {code:?}")]
    Refused { line: u32, code: Refusal },
    #[error("out of memory")]
    Memory,
}

impl From<Memory> for CheckFault {
    ghost from_gives = { λ _ e. e ≡ fault.Memory };

    fn from(_: Memory) -> CheckFault {
        CheckFault::Memory
    }
}
