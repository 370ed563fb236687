ghost use Rattle.std.specs.Prelude.{◌≡◌, ◌<◌, ◌-◌, ◌^◌};
ghost use Rattle.wire.specs.declared.faults.ReadFault.TheVariants.{Memory};

use std::alloc::{AllocError, AllocFailed};
use thiserror::Error;

/// Why no message was read.
#[derive(Clone, Copy, Debug, PartialEq, Eq, Error)]
pub enum WireFault {
    /// No message spells the body; its first `at` bytes are the most that begin one.
    #[error("no message goes on at byte {at}")]
    Bad { at: u32 },
    #[error("out of memory")]
    Memory,
}

/// Why a field could not be read.
#[derive(Clone, Copy, Debug, PartialEq, Eq)]
pub enum ReadFault {
    /// The bad byte and those behind it: none where the bytes end early.
    Bad { left: usize },
    Memory,
}

impl From<AllocError> for ReadFault {
    ghost from_gives = { λ _ e. e ≡ Memory };

    fn from(_: AllocError) -> ReadFault {
        ReadFault::Memory
    }
}

impl<T: Drop> From<AllocFailed<T>> for ReadFault {
    ghost from_gives = { λ _ e. e ≡ Memory };

    fn from(_: AllocFailed<T>) -> ReadFault {
        ReadFault::Memory
    }
}

impl From<sp_base::Memory> for ReadFault {
    ghost from_gives = { λ _ e. e ≡ Memory };

    fn from(_: sp_base::Memory) -> ReadFault {
        ReadFault::Memory
    }
}

/// The place of the bad byte among `len` bytes. A place above 2^32 - 1 is told as that number.
pub fn at_of(len: usize, left: usize) -> u32
    ensures { len < 2 ^ 32 → result ≡ len - left }
{
    let at = len.saturating_sub(left);
    if at < u32::MAX as usize {
        at as u32
    } else {
        u32::MAX
    }
}
