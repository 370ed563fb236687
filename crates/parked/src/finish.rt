use sp_base::{Outcome, Writes};

/// How a parked call ended at its client, as the client tells it.
#[derive(Debug, Drop)]
pub struct Finish {
    pub outcome: Outcome,
    pub writes: Writes,
}
