use sp_base::{Key, TableId};

/// Who reads a record.
#[derive(Clone, Copy)]
pub enum Asker {
    /// A `get`, which jumps to this instruction where the record is absent.
    ForGet(u32),
    /// A `multiget`.
    ForMulti,
}

/// What a run does next.
#[derive(Drop)]
pub enum Doing {
    /// The next instruction.
    Working,
    /// The last instruction has paid for a read, and asks for the record.
    Reading {
        table: TableId,
        key: Key,
        asker: Asker,
    },
}
