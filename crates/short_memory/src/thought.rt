//! What a client may think of its call, by what it was told.

use crate::frames::{Ask, Told};

/// Whether the call may be parked, and whether it may be gone; where both may be, it is doubtful.
#[derive(Clone, Copy, Debug, PartialEq, Eq)]
pub struct Thought {
    may_be_parked: bool,
    may_be_gone: bool,
}

/// Where the call was, by an answer.
#[derive(Clone, Copy, Debug, PartialEq, Eq)]
pub enum Shown {
    Parked,
    Gone,
    /// Memory was short.
    Nothing,
    /// No such question is answered so.
    Wrong,
}

/// What an answer shows.
pub fn shown_by(ask: Ask, told: Told) -> Shown {
    match told {
        Told::Absent | Told::Busy => Shown::Parked,
        Told::NotParked => Shown::Gone,
        Told::Committed if ask == Ask::Invoke => Shown::Gone,
        Told::Committed => Shown::Parked,
        Told::NoMemory => Shown::Nothing,
        Told::Other => Shown::Wrong,
    }
}

impl Thought {
    pub const PARKED: Thought = Thought {
        may_be_parked: true,
        may_be_gone: false,
    };

    const GONE: Thought = Thought {
        may_be_parked: false,
        may_be_gone: true,
    };

    pub const DOUBTFUL: Thought = Thought {
        may_be_parked: true,
        may_be_gone: true,
    };

    /// What it thinks behind an answer, where one of its thoughts allows that. An end that was committed takes the call
    /// away, and one that found no memory makes it doubtful.
    pub fn next(self, ask: Ask, shown: Shown) -> Option<Thought> {
        match shown {
            Shown::Parked if !self.may_be_parked => None,
            Shown::Parked if ask == Ask::End => Some(Thought::GONE),
            Shown::Parked => Some(Thought::PARKED),
            Shown::Gone if !self.may_be_gone => None,
            Shown::Gone => Some(Thought::GONE),
            Shown::Nothing if ask == Ask::End && self.may_be_parked => Some(Thought::DOUBTFUL),
            Shown::Nothing => Some(self),
            Shown::Wrong => None,
        }
    }
}
