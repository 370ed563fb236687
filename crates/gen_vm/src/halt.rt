ghost use Rattle.std.specs.Prelude.{◌≡◌};
ghost use Rattle.gen_vm.specs.declared.halt.Halt.TheVariants as halt;

use ext_mean::Run;
use sp_base::Memory;
use std::alloc::{AllocError, AllocFailed};

/// Why a piece of work handed on nothing.
#[derive(Drop)]
pub enum Halt {
    /// There was no memory.
    Memory,
    /// The run ended or wants a record.
    Ended(Run),
}

impl From<Memory> for Halt {
    ghost from_gives = { λ _ e. e ≡ halt.Memory };

    fn from(_: Memory) -> Halt {
        Halt::Memory
    }
}

impl From<AllocError> for Halt {
    ghost from_gives = { λ _ e. e ≡ halt.Memory };

    fn from(_: AllocError) -> Halt {
        Halt::Memory
    }
}

impl<T: Drop> From<AllocFailed<T>> for Halt {
    ghost from_gives = { λ _ e. e ≡ halt.Memory };

    fn from(_: AllocFailed<T>) -> Halt {
        Halt::Memory
    }
}
