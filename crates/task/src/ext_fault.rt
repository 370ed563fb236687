ghost use Rattle.std.specs.Prelude.{◌≡◌};
ghost use Rattle.task.specs.declared.ext_fault.ExtFault.TheVariants as fault;

use ext_mean::Refusal;
use sp_base::Memory;

/// Why a text is no extension.
#[derive(Clone, Copy, Debug, PartialEq, Eq)]
pub enum ExtFault {
    /// The text is refused, first on this line, counted from 1, and for this reason.
    Rejected { line: u32, code: Refusal },
    Memory,
}

impl From<Memory> for ExtFault {
    ghost from_gives = { λ _ e. e ≡ fault.Memory };

    fn from(_: Memory) -> ExtFault {
        ExtFault::Memory
    }
}
