//! The frames of the dialogues, written out by hand from docs/PROTOCOL.md.

/// Tenant 1 with key 7.
pub const HELLO: [u8; 17] = [0, 0, 0, 13, 1, 0, 0, 0, 1, 0, 0, 0, 0, 0, 0, 0, 7];

/// Table 6 may be written; the journal has one entry.
pub const WELCOME: [u8; 19] = [0, 0, 0, 15, 65, 1, 0, 0, 0, 6, 2, 0, 0, 0, 0, 0, 0, 0, 1];

/// Call 1 of caller 1, with 100 units, which may be handed back.
pub const BATCH: [u8; 30] = [
    0, 0, 0, 26, 3, 0, 1, 0, 0, 0, 1, 0, 0, 0, 0, 0, 0, 0, 1, 0, 0, 0, 0, 0, 0, 0, 100, 1, 0, 0,
];

/// The call was handed back at a load of 1, behind 17 units, with its read of `a`.
pub const PUSHED: [u8; 41] = [
    0, 0, 0, 37, 67, 0, 1, 3, 0, 0, 0, 1, 0, 0, 0, 17, 0, 1, 0, 0, 0, 6, 1, 97, 0, 0, 0, 0, 0, 0,
    0, 0, 0, 0, 0, 0, 0, 0, 0, 1, 0,
];

/// The fault that says that memory ran out.
pub const FAULT: [u8; 6] = [0, 0, 0, 2, 72, 5];

/// The item of a batch that says so of its one call.
pub const NO_MEMORY: [u8; 8] = [0, 0, 0, 4, 67, 0, 1, 9];

/// The end of call 1: it is done with code 0, and has no writes.
const END: [u8; 29] = [
    0, 0, 0, 25, 5, 0, 0, 0, 1, 0, 0, 0, 0, 0, 0, 0, 1, 0, 0, 0, 0, 0, 0, 0, 0, 0, 0, 0, 0,
];

/// For call 1, the record of table 6 under `b`.
const FETCH: [u8; 23] = [
    0, 0, 0, 19, 4, 0, 0, 0, 1, 0, 0, 0, 0, 0, 0, 0, 1, 0, 0, 0, 6, 1, 98,
];

/// Call 2 of caller 1, which may not be handed back.
const INVOKE: [u8; 30] = [
    0, 0, 0, 26, 3, 0, 1, 0, 0, 0, 1, 0, 0, 0, 0, 0, 0, 0, 2, 0, 0, 0, 0, 0, 0, 0, 100, 0, 0, 0,
];

/// What a client asks that waits for the end of its call 1.
#[derive(Clone, Copy, Debug, PartialEq, Eq)]
pub enum Ask {
    End,
    Fetch,
    Invoke,
}

/// What it is told then.
#[derive(Clone, Copy, Debug, PartialEq, Eq)]
pub enum Told {
    /// The call that it ends, or the one that it invokes.
    Committed,
    /// The record is absent.
    Absent,
    /// Call 1 is parked.
    Busy,
    NotParked,
    NoMemory,
    /// What no such question may be answered.
    Other,
}

/// The call of this entry ended with code 0 and no bytes, as its client said.
fn finished(n: u8) -> [u8; 25] {
    [
        0, 0, 0, 21, 69, 0, 0, 0, 0, 0, 0, 0, 0, n, 0, 0, 0, 0, 0, 0, 0, 0, 0, 0, 0,
    ]
}

/// The same of the one call of a batch.
fn answered(n: u8) -> [u8; 27] {
    [
        0, 0, 0, 23, 67, 0, 1, 0, 0, 0, 0, 0, 0, 0, 0, n, 0, 0, 0, 0, 0, 0, 0, 0, 0, 0, 0,
    ]
}

/// No record, behind so many entries.
fn absent(at: u8) -> [u8; 23] {
    [
        0, 0, 0, 19, 68, 0, 0, 0, 0, 0, 0, 0, 0, 0, 0, 0, 0, 0, 0, 0, 0, at, 0,
    ]
}

/// The caller's call 1 is parked.
const BUSY: [u8; 16] = [0, 0, 0, 12, 67, 0, 1, 5, 0, 0, 0, 0, 0, 0, 0, 1];

impl Ask {
    pub fn frame(self) -> &'static [u8] {
        match self {
            Ask::End => &END,
            Ask::Fetch => &FETCH,
            Ask::Invoke => &INVOKE,
        }
    }

    /// What an answer tells behind so many entries.
    pub fn told(self, said: &[u8], entries: u8) -> Told {
        match self {
            Ask::End => told_of_an_end(said, entries),
            Ask::Fetch => told_of_a_record(said, entries),
            Ask::Invoke => told_of_a_call(said, entries),
        }
    }
}

fn told_of_an_end(said: &[u8], entries: u8) -> Told {
    if said == finished(entries).as_slice() {
        Told::Committed
    } else if said == [0, 0, 0, 2, 69, 13].as_slice() {
        Told::NotParked
    } else if said == [0, 0, 0, 2, 69, 9].as_slice() {
        Told::NoMemory
    } else {
        Told::Other
    }
}

fn told_of_a_record(said: &[u8], entries: u8) -> Told {
    if said == absent(entries).as_slice() {
        Told::Absent
    } else if said == [0, 0, 0, 2, 68, 2].as_slice() {
        Told::NotParked
    } else if said == [0, 0, 0, 2, 68, 3].as_slice() {
        Told::NoMemory
    } else {
        Told::Other
    }
}

fn told_of_a_call(said: &[u8], entries: u8) -> Told {
    if said == answered(entries).as_slice() {
        Told::Committed
    } else if said == BUSY.as_slice() {
        Told::Busy
    } else if said == NO_MEMORY.as_slice() {
        Told::NoMemory
    } else {
        Told::Other
    }
}
