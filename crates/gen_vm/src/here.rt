use crate::doing::Doing;
use crate::frame::Frame;
use crate::slots::Slots;
use crate::stack::Stack;
use sp_base::Write;

/// Where a run stands, and what it has so far.
#[derive(Drop)]
pub struct Here {
    pub function: usize,
    /// The number of the next instruction.
    pub pc: usize,
    pub slots: Slots,
    pub stack: Stack,
    /// The callers, with the last one at the end.
    pub frames: Vec<Frame>,
    pub doing: Doing,
    pub used: u32,
    pub reply: Vec<u8>,
    pub writes: Vec<Write>,
}
