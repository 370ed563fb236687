use ext_mean::{Block, Name};

/// The arms of a read: `some` names the record's bytes.
#[derive(Drop)]
pub struct Arms<'a> {
    pub some: &'a Name,
    pub yes: &'a Block,
    pub no: &'a Block,
}
