use ext_mean::TypeCode;
use thiserror::Error;

/// Why a program was not accepted.
#[derive(Clone, Copy, Debug, PartialEq, Eq, Error)]
pub enum TypeRefusal {
    /// The first faulty item, numbered from 0 in text order, with its first code.
    #[error("item {item} is refused: {code:?}")]
    Fault { item: u32, code: TypeCode },
    /// There was no memory, or the items are too many for a number of 32 bits.
    #[error("out of memory")]
    Memory,
}
