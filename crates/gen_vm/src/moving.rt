ghost use Rattle.std.specs.Prelude.{◌≡◌, ◌+◌, ◌<◌, drop, length, not, slice_set, IfOk};
ghost use Rattle.ext_mean.specs.MeaningValues.{buffer_of, bytes_of, nothing, truth_of};
ghost use Rattle.ext_mean.specs.declared.state.Value.TheVariants as value;
ghost use Rattle.ext_mean.specs.Work.{give};
ghost use Rattle.gen_code.specs.Machine.{last, pushes, replaces, slot};
ghost use Rattle.gen_vm.specs.Places.{here_of};
ghost use Rattle.gen_vm.specs.Turns.{Turns};

use crate::halt::Halt;
use crate::here::Here;
use crate::values::share;
use crate::world::World;
use ext_mean::Value;
use sp_base::{Blob, Memory};

/// The greatest number that an instruction has.
pub const MOST_PC: usize = usize::MAX;

impl Here {
    /// One value more, and the next instruction.
    pub fn push(&mut self, value: Value) -> Result<(), Halt>
        requires { self.old.pc < MOST_PC }
        ensures turn { Turns result (here_of self.old) (here_of self.new) (pushes value (here_of self.old)) }
        ensures used { self.new.used ≡ self.old.used }
    {
        self.stack.push(value)?;
        self.pc += 1;
        Ok(())
    }

    /// A value in place of the last ones, of which so many are taken, and the next instruction.
    pub fn replace(&mut self, taken: usize, value: Value) -> Result<(), Halt>
        requires { self.old.pc < MOST_PC }
        ensures turn { Turns result (here_of self.old) (here_of self.new)
            (pushes value (record (here_of self.old) { stack = drop taken self.old.stack })) }
        ensures used { self.new.used ≡ self.old.used }
    {
        self.stack.replace(taken, value)?;
        self.pc += 1;
        Ok(())
    }

    /// The value of a slot, which keeps it.
    pub fn load(&mut self, world: &World, number: usize) -> Result<(), Halt>
        requires { self.old.pc < MOST_PC }
        ensures turn { Turns result (here_of self.old) (here_of self.new)
            (pushes (slot self.old.slots number) (here_of self.old)) }
        ensures used { self.new.used ≡ self.old.used }
    {
        let value = match self.slots.get(number) {
            Some(value) => share(world.alloc, value)?,
            None => Value::Int(0),
        };
        self.push(value)
    }

    /// The value of a slot, which is not used again.
    pub fn move_out(&mut self, number: usize) -> Result<(), Halt>
        requires { self.old.pc < MOST_PC }
        ensures turn { let here = here_of self.old in
            Turns result here (here_of self.new)
            (pushes (slot here.slots number) (record here { slots = slice_set here.slots number nothing })) }
        ensures used { self.new.used ≡ self.old.used }
    {
        self.stack.take_slot(&mut self.slots, number)?;
        self.pc += 1;
        Ok(())
    }

    /// The bytes of the buffer in a slot.
    pub fn view(&mut self, world: &World, number: usize) -> Result<(), Halt>
        requires { self.old.pc < MOST_PC }
        ensures turn { let here = here_of self.old in
            Turns result here (here_of self.new) (pushes (value.Slice (buffer_of (slot here.slots number))) here) }
        ensures used { self.new.used ≡ self.old.used }
    {
        let bytes = Blob::of(world.alloc, self.buffer(number))?;
        self.push(Value::Slice(bytes))
    }

    /// Whether the last value is false, in its place.
    pub fn negate(&mut self) -> Result<(), Halt>
        requires { self.old.pc < MOST_PC }
        ensures turn { let here = here_of self.old in
            Turns result here (here_of self.new) (replaces here 1 (give (value.Bool (not (truth_of (last here)))))) }
        ensures used { self.new.used ≡ self.old.used }
    {
        let truth = self.last_truth();
        self.replace(1, Value::Bool(!truth))
    }

    /// The length of the last value, in its place.
    pub fn measure(&mut self) -> Result<(), Halt>
        requires { self.old.pc < MOST_PC }
        ensures turn { let here = here_of self.old in
            Turns result here (here_of self.new) (replaces here 1 (give (value.Int (length (bytes_of (last here)))))) }
        ensures used { self.new.used ≡ self.old.used }
    {
        let length = self.last_bytes().len();
        self.replace(1, Value::Int(length as u64))
    }

    /// The number of the next instruction. Past the greatest there is no memory for one.
    pub fn next_pc(&self) -> Result<usize, Memory>
        ensures { IfOk result (λ next. next ≡ self.now.pc + 1) }
    {
        match self.pc.checked_add(1) {
            Some(next) => Ok(next),
            None => Err(Memory),
        }
    }
}
