ghost use Rattle.std.specs.Prelude.{◌≡◌, IfOk};

use crate::blob::Blob;
use crate::memory::Memory;
use std::alloc::Global;

/// What a run that came to its end answers.
#[derive(Debug, Drop)]
pub struct Reply {
    /// The value of `main`.
    pub code: u64,
    /// What `resp` appended.
    pub bytes: Blob,
}

/// Why a run was ended by one of the tests of the language.
#[derive(Clone, Copy, Debug, PartialEq, Eq)]
pub enum Trap {
    /// A place in bytes past their end, or a number that is no byte.
    Range = 1,
    /// A division by zero.
    Divide = 2,
    /// A length or a count above its limit.
    Size = 3,
    /// A table that the tenant may not read or write.
    Denied = 4,
    /// A width of `multiget` that does not divide the keys.
    Width = 5,
}

/// How a run ended.
#[derive(Debug, Drop)]
pub enum Outcome {
    Done(Reply),
    Trapped(Trap),
    /// The budget did not suffice.
    Killed,
}

impl Outcome {
    /// An equal outcome.
    pub fn share(&self, alloc: Global) -> Result<Outcome, Memory>
        ensures { IfOk result (λ outcome. outcome ≡ self.now) }
    {
        match self {
            Outcome::Done(reply) => {
                let bytes = reply.bytes.share(alloc)?;
                Ok(Outcome::Done(Reply {
                    code: reply.code,
                    bytes,
                }))
            }
            Outcome::Trapped(trap) => Ok(Outcome::Trapped(*trap)),
            Outcome::Killed => Ok(Outcome::Killed),
        }
    }
}
