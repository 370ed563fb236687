use sp_base::{ReadItem, Rights};
use std::alloc::Global;

/// What does not change while a run goes on.
#[derive(Drop)]
pub struct World<'a> {
    pub alloc: Global,
    pub args: &'a [u8],
    /// The most units that the run may have used.
    pub limit: u32,
    pub rights: &'a Rights,
    /// The records that are known.
    pub fed: &'a [ReadItem],
}
