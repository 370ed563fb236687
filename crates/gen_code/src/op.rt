use sp_base::Blob;

/// An instruction. Values that it takes are on top of the stack, the last one uppermost, and it puts its
/// own value there. Slots hold the variables in scope, by their number; jumps name the number of an
/// instruction of the same function.
#[derive(Debug, Drop)]
pub enum Op {
    Num(u64),
    /// A byte string.
    Str(Blob),
    Truth(bool),
    /// The arguments of the run.
    Args,
    /// The value of a slot, which keeps it.
    Load(u16),
    /// A value becomes that of a slot, or of a new one behind the others.
    Store(u16),
    /// The value of a slot, which is not used again.
    Move(u16),
    /// The slots from this one on are gone.
    Drop(u16),
    Add,
    Less,
    Minus,
    Times,
    Over,
    Rest,
    LessEq,
    EqInt,
    EqBool,
    EqSlice,
    Not,
    Jump(u32),
    /// Jumps where the value is false.
    JumpFalse(u32),
    /// The length of a slice.
    Len,
    /// A byte of a slice, by its place.
    Byte,
    /// Eight bytes of a slice from a place on, little endian.
    Word,
    /// A part of a slice, by its place and its length.
    Sub,
    /// The bytes of the buffer in a slot.
    View(u16),
    /// A buffer for the record of a table with a key, of a size.
    Alloc,
    /// A buffer with no place, of a size.
    Temp,
    /// A byte into the buffer in a slot, at a place.
    Set(u16),
    /// Eight bytes, little endian, into the buffer in a slot, from a place on.
    Set8(u16),
    /// A slice into the buffer in a slot, from a place on.
    Copy(u16),
    /// The buffer in a slot becomes the change at its place.
    Put(u16),
    /// The record of a table with a key is deleted.
    Del,
    /// A slice joins the reply.
    Resp,
    /// So many units of the budget.
    Charge(u32),
    /// The record of a table with a key; jumps where it is absent.
    Get(u32),
    /// The next record of a table, of keys of one width, from a place in the keys on, all of which stay
    /// below its bytes and whether it is there; takes them off and jumps where no key is left.
    Multi(u32),
    /// The function with this number, with as many values as it has parameters.
    Call(u16),
    /// Back to the caller with a value.
    Return,
}
