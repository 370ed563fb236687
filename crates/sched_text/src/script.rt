use crate::event::Event;
use crate::rows::Rows;
use sp_base::{Policy, Rights, TenantId};

/// What the head lines of a script declare.
#[derive(Debug, Drop)]
pub struct Head {
    /// Each tenant with its key, by increasing tenant.
    pub tenants: Rows<(TenantId, u64)>,
    /// Each tenant with its rights, by increasing tenant.
    pub rights: Rows<(TenantId, Rights)>,
    pub policy: Policy,
    /// The most entries of the journal.
    pub limit: u64,
    pub workers: u32,
}

/// A script: its head and its body.
#[derive(Debug, Drop)]
pub struct Script {
    pub head: Head,
    /// Each event with the number of its line.
    pub events: Rows<(u32, Event)>,
}
