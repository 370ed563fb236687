use sp_base::TableId;
use thiserror::Error;

/// Why what a client sent for its parked call is not taken.
#[derive(Clone, Copy, Debug, PartialEq, Eq, Error)]
pub enum Refused {
    /// 1: more than 64 writes. 2: two writes of one place. 3: writes beside an outcome other than Done.
    #[error("the writes have no allowed shape: case {0}")]
    Shape(u8),
    /// The first table with a write that the tenant may not write.
    #[error("a write in a table that may not be written")]
    Foreign(TableId),
    #[error("out of memory")]
    Memory,
}
