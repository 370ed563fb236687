ghost use Rattle.std.specs.Prelude.{◌≡◌, ◌<◌, ◌∷◌, vec_capacity, vec_len};
ghost use Rattle.ext_mean.specs.MeaningValues.{number_of};
ghost use Rattle.gen_code.specs.Machine.{back, calls, function_at, last};
ghost use Rattle.gen_vm.specs.declared.doing.Doing.TheVariants as doing;
ghost use Rattle.ext_mean.specs.declared.run.Run.TheVariants.{Done};
ghost use Rattle.gen_vm.specs.Places.{here_of};
ghost use Rattle.gen_vm.specs.Turns.{Turns};

use crate::frame::Frame;
use crate::halt::Halt;
use crate::here::Here;
use crate::moving::MOST_PC;
use crate::slots::Slots;
use crate::stack::Stack;
use crate::world::World;
use ext_mean::Run;
use gen_code::Code;
use sp_base::{Blob, Reply, Writes};
use std::mem;

/// How many parameters a function has. One that is not there has none.
fn params_of(code: &Code, number: usize) -> usize
    ensures { result ≡ (function_at code.now number).params }
{
    match code.functions.get(number) {
        Some(function) => usize::from(function.params),
        None => 0,
    }
}

impl Here {
    /// To the first instruction of a function, with as many values as it has parameters as its variables.
    pub fn call(&mut self, world: &World, code: &Code, number: usize) -> Result<(), Halt>
        requires { self.old.pc < MOST_PC }
        ensures turn { Turns result (here_of self.old) (here_of self.new) (calls code.now number (here_of self.old)) }
        ensures used { self.new.used ≡ self.old.used }
    {
        let count = params_of(code, number);
        self.frames.reserve(1)?;
        let slots = self.stack.split(count)?;
        let frame = Frame {
            function: self.function,
            pc: self.pc + 1,
            slots: mem::replace(&mut self.slots, slots),
            stack: mem::replace(&mut self.stack, Stack::new(world.alloc)),
        };
        self.frames.push_reserved(frame);
        self.function = number;
        self.pc = 0;
        Ok(())
    }

    /// Back to the caller with the last value. That of `main` is the reply's code.
    pub fn back(&mut self, world: &World) -> Result<(), Halt>
        requires { self.old.doing ≡ doing.Working }
        ensures turn { let here = here_of self.old in
            Turns result here (here_of self.new) (back here.frames (last here) here.used here.reply here.writes) }
        ensures used { self.new.used ≡ self.old.used }
    {
        match self.frames.pop() {
            Some(frame) => self.back_to(frame),
            None => Err(Halt::Ended(self.finish(world))),
        }
    }

    /// Back to a caller, which has left the list of callers.
    fn back_to(&mut self, frame: Frame) -> Result<(), Halt>
        requires working { self.old.doing ≡ doing.Working }
        requires room { vec_len self.old.frames < vec_capacity self.old.frames }
        ensures turn { let here = here_of self.old in
            Turns result (record here { frames = frame ∷ here.frames }) (here_of self.new)
            (back (frame ∷ here.frames) (last here) here.used here.reply here.writes) }
        ensures used { self.new.used ≡ self.old.used }
    {
        let mut frame = frame;
        let moved = frame.stack.take_last(&mut self.stack);
        if moved.is_err() {
            self.frames.push_reserved(frame);
            return Err(Halt::Memory);
        }
        let Frame {
            function,
            pc,
            slots,
            stack,
        } = frame;
        self.function = function;
        self.pc = pc;
        self.slots = slots;
        self.stack = stack;
        Ok(())
    }

    /// The run comes to its end.
    fn finish(&mut self, world: &World) -> Run
        ensures run { let here = here_of self.old in
            result ≡ Done (record { code = number_of (last here); bytes = here.reply }) here.writes here.used }
        ensures used { self.new.used ≡ self.old.used }
    {
        let code = self.last_number();
        let bytes = mem::replace(&mut self.reply, Vec::new(world.alloc));
        let writes = mem::replace(&mut self.writes, Vec::new(world.alloc));
        Run::Done {
            reply: Reply {
                code,
                bytes: Blob::from_vec(bytes),
            },
            writes: Writes::from_vec(writes),
            used: self.used,
        }
    }
}
