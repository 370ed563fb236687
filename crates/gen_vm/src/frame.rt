use crate::slots::Slots;
use crate::stack::Stack;
use std::marker::Model;

/// What a caller goes on with behind its call.
#[derive(Drop)]
pub struct Frame {
    pub function: usize,
    pub pc: usize,
    pub slots: Slots,
    pub stack: Stack,
}

impl Model for Frame {
    ghost use Rattle.gen_code.specs.Machine.{Frame as CallerFrame};

    ghost Value = { CallerFrame };

    ghost view = { λ f. record { function = f.function; pc = f.pc; slots = f.slots; stack = f.stack } };
}
