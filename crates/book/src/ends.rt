use crate::answers::Commit;
use task::Parked;

/// How a call of a batch ended that began to run.
#[derive(Drop)]
pub enum End {
    /// Its run ended in the server, and was committed or refused.
    Settled(Commit),
    /// It goes on at its client. `load` is the number of live calls, `spent` the units that it has spent.
    Pushed {
        load: u32,
        spent: u32,
        parked: Parked,
    },
    Memory,
}

/// The end of the call at one place of its batch, counted from 0.
#[derive(Drop)]
pub struct CallEnd {
    pub place: u16,
    pub end: End,
}
