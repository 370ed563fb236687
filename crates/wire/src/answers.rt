use crate::items::{Item, Items};
use sp_base::{Blob, ExtNo, Rights};

/// What the server says.
#[derive(Debug, Drop)]
pub enum Answer {
    Welcome { rights: Rights, at: u64 },
    Installed(InstallAnswer),
    Answers { items: Items },
    Fetched(FetchAnswer),
    Finished { item: Item },
    PutDone(PutAnswer),
    Text(TextAnswer),
    Fault { code: u8 },
}

/// The answer to Install.
#[derive(Debug, Drop)]
pub enum InstallAnswer {
    /// Entry `n` of the journal.
    Done { n: u64, ext: ExtNo },
    /// The text's first fault.
    Rejected { line: u32, code: u8 },
    Full { at: u64 },
    Memory,
}

/// The answer to Fetch.
#[derive(Debug, Drop)]
pub enum FetchAnswer {
    Found {
        version: u64,
        read_at: u64,
        value: Option<Blob>,
    },
    Denied,
    NotParked,
    Memory,
    /// The call has as many reads as it may have.
    Many,
}

/// The answer to Put.
#[derive(Debug, Drop)]
pub enum PutAnswer {
    /// Entry of the journal.
    Done(u64),
    Denied,
    Full { at: u64 },
    Memory,
}

/// The answer to TextOf.
#[derive(Debug, Drop)]
pub enum TextAnswer {
    Text(Blob),
    NoExtension { count: u32, at: u64 },
    Memory,
}
