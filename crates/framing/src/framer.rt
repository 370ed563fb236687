ghost use Rattle.std.specs.Prelude.{◌≡◌, ◌↔◌, ℕ, [], ◌++◌, Some, None, List, IfOk, IsErrOf, length};
ghost use Rattle.framing.specs.Framing.{FramedIsGiven, MeetsTooLong, OneReading, Stands};

use crate::cutting::{take_frames, too_long};
use sp_base::{Blob, Memory};
use std::alloc::Global;
use std::marker::Model;
use thiserror::Error;

/// Why a piece gave no frames.
#[derive(Clone, Copy, Debug, PartialEq, Eq, Error)]
pub enum FrameFault {
    /// A length above 8,388,608 stands in a frame's place.
    #[error("a frame of {n} bytes is too long")]
    TooLong { n: u32 },
    #[error("out of memory")]
    Memory,
}

impl From<Memory> for FrameFault {
    ghost use Rattle.std.specs.Prelude.{◌≡◌};
    ghost use Rattle.framing.specs.declared.framer.FrameFault.TheVariants.{Memory};

    ghost from_gives = { λ _ e. e ≡ Memory };

    fn from(_: Memory) -> FrameFault {
        FrameFault::Memory
    }
}

/// Finds the frames of a stream that comes in pieces.
#[derive(Debug, Drop)]
pub struct Framer {
    alloc: Global,
    bytes: Vec<u8>,
    too_long: Option<u32>,
}

impl Model for Framer {
    ghost use Rattle.framing.specs.Frames.{IsUnfinished};
    ghost use Rattle.framing.specs.Framing.{Framing};

    ghost Value = { Framing };

    ghost view = { λ f. record { pending = f.bytes.items; broken = f.too_long } };

    ghost invariant = { λ f. IsUnfinished f.bytes.items };
}

impl Framer {
    /// A framer that was fed nothing.
    pub fn new(alloc: Global) -> Framer
        ensures value { result ≡ record { pending = []; broken = None } }
        ensures stands { Stands result [] [] }
    {
        Framer {
            alloc,
            bytes: Vec::new(alloc),
            too_long: None,
        }
    }

    /// The bodies of the frames that end in this piece, up to a length that is too long.
    pub fn feed(&mut self, piece: &[u8]) -> Result<Vec<Blob>, FrameFault>
        // However the stream was cut, the bodies given so far are those of all bytes fed.
        ensures frames { (fed : List ℕ) (bodies : List (List ℕ)) → Stands self.old fed bodies →
            IfOk result (λ more. Stands self.new (fed ++ piece.now) (bodies ++ more.items)) }
        // A length is too long exactly where one stands in a frame's place before any frame ends.
        ensures too_long { (n : ℕ) → IsErrOf result (FrameFault.TooLong n)
            ↔ MeetsTooLong self.old piece.now n }
        // Such a length is kept for good, and the bodies given are still those of all bytes fed.
        ensures broken { (n : ℕ) → IsErrOf result (FrameFault.TooLong n) →
            self.new.broken ≡ Some n }
        ensures refused { (n : ℕ) (fed : List ℕ) (bodies : List (List ℕ)) →
            IsErrOf result (FrameFault.TooLong n) → Stands self.old fed bodies →
            Stands self.new (fed ++ piece.now) bodies }
        ensures memory { IsErrOf result FrameFault.Memory → self.new ≡ self.old }
    {
        if let Some(n) = self.too_long {
            return Err(FrameFault::TooLong { n });
        }
        if let Some(n) = too_long(self.bytes.as_slice(), piece) {
            self.bytes.clear();
            self.too_long = Some(n);
            return Err(FrameFault::TooLong { n });
        }
        let bodies = take_frames(self.alloc, &mut self.bytes, piece)?;
        if let Some(n) = too_long(self.bytes.as_slice(), &[]) {
            self.bytes.clear();
            self.too_long = Some(n);
        }
        Ok(bodies)
    }

    /// The length that was too long, once it was fed.
    pub fn broken(&self) -> Option<u32>
        ensures { result ≡ self.now.broken }
    {
        self.too_long
    }

    /// How many bytes of an unfinished frame were fed.
    pub fn pending(&self) -> u32
        ensures { result ≡ length self.now.pending }
    {
        self.bytes.len() as u32
    }
}

/// What was fed determines the frames and what is kept, whatever the pieces were.
pub fn one_reading()
    ensures { OneReading }
{}

/// A body that is framed and fed between two frames comes out as it is.
pub fn framed_is_given()
    ensures { FramedIsGiven }
{}
