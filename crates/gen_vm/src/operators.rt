ghost use Rattle.std.specs.Prelude.{◌≡◌, ◌<◌};
ghost use Rattle.ext_mean.specs.MeaningExpressions.{byte_at, operate, quotient, remainder, sub_at, word_at};
ghost use Rattle.ext_mean.specs.MeaningValues.{bytes_of, number_of};
ghost use Rattle.gen_code.specs.Machine.{last, replaces, second, state_of, third};
ghost use Rattle.gen_vm.specs.Places.{here_of};
ghost use Rattle.gen_vm.specs.Turns.{Finds, Turns};

use crate::bytes::{fits, part_of, word_of};
use crate::halt::Halt;
use crate::here::Here;
use crate::moving::MOST_PC;
use crate::world::World;
use ext_mean::{BinOp, Value};
use sp_base::{Blob, Trap};

impl Here {
    fn quotient(&self, left: u64, right: u64) -> Result<Value, Halt>
        ensures { Finds result (state_of (here_of self.now)) (quotient left right (state_of (here_of self.now))) }
    {
        self.require(right > 0, Trap::Divide)?;
        Ok(Value::Int(left / right))
    }

    fn remainder(&self, left: u64, right: u64) -> Result<Value, Halt>
        ensures { Finds result (state_of (here_of self.now)) (remainder left right (state_of (here_of self.now))) }
    {
        self.require(right > 0, Trap::Divide)?;
        Ok(Value::Int(left % right))
    }

    /// An operator on the last two values.
    fn operate(&self, operator: BinOp) -> Result<Value, Halt>
        ensures { let here = here_of self.now in
            Finds result (state_of here) (operate operator (second here) (last here) (state_of here)) }
    {
        let left = self.second_number();
        let right = self.last_number();
        match operator {
            BinOp::Or | BinOp::And => Ok(Value::Bool(self.last_truth())),
            BinOp::Equal => Ok(Value::Bool(self.is_same())),
            BinOp::NotEqual => Ok(Value::Bool(!self.is_same())),
            BinOp::Less => Ok(Value::Bool(left < right)),
            BinOp::LessEqual => Ok(Value::Bool(left <= right)),
            BinOp::Greater => Ok(Value::Bool(left > right)),
            BinOp::GreaterEqual => Ok(Value::Bool(left >= right)),
            BinOp::Add => Ok(Value::Int(left.wrapping_add(right))),
            BinOp::Subtract => Ok(Value::Int(left.wrapping_sub(right))),
            BinOp::Multiply => Ok(Value::Int(left.wrapping_mul(right))),
            BinOp::Divide => self.quotient(left, right),
            BinOp::Remainder => self.remainder(left, right),
        }
    }

    /// An operator in place of the last two values.
    pub fn operates(&mut self, operator: BinOp) -> Result<(), Halt>
        requires { self.old.pc < MOST_PC }
        ensures turn { let here = here_of self.old in
            Turns result here (here_of self.new) (replaces here 2 (operate operator (second here) (last here))) }
        ensures used { self.new.used ≡ self.old.used }
    {
        let value = self.operate(operator)?;
        self.replace(2, value)
    }

    fn byte(&self) -> Result<Value, Halt>
        ensures { let here = here_of self.now in
            Finds result (state_of here) (byte_at (bytes_of (second here)) (number_of (last here)) (state_of here)) }
    {
        let bytes = self.second_bytes();
        let place = self.last_number();
        self.require(place < bytes.len() as u64, Trap::Range)?;
        Ok(Value::Int(u64::from(bytes[place as usize])))
    }

    fn word(&self) -> Result<Value, Halt>
        ensures { let here = here_of self.now in
            Finds result (state_of here) (word_at (bytes_of (second here)) (number_of (last here)) (state_of here)) }
    {
        let bytes = self.second_bytes();
        let place = self.last_number();
        self.require(fits(place, 8, bytes.len()), Trap::Range)?;
        Ok(Value::Int(word_of(part_of(bytes, place as usize, 8))))
    }

    fn part(&self, world: &World) -> Result<Value, Halt>
        ensures { let here = here_of self.now in
            Finds result (state_of here)
            (sub_at (bytes_of (third here)) (number_of (second here)) (number_of (last here)) (state_of here)) }
    {
        let bytes = self.third_bytes();
        let from = self.second_number();
        let count = self.last_number();
        self.require(fits(from, count, bytes.len()), Trap::Range)?;
        let part = Blob::of(world.alloc, part_of(bytes, from as usize, count as usize))?;
        Ok(Value::Slice(part))
    }

    /// A byte of a slice in place of both operands.
    pub fn takes_byte(&mut self) -> Result<(), Halt>
        requires { self.old.pc < MOST_PC }
        ensures turn { let here = here_of self.old in
            Turns result here (here_of self.new) (replaces here 2 (byte_at (bytes_of (second here)) (number_of (last here)))) }
        ensures used { self.new.used ≡ self.old.used }
    {
        let value = self.byte()?;
        self.replace(2, value)
    }

    /// Eight bytes of a slice as a number in place of both operands.
    pub fn takes_word(&mut self) -> Result<(), Halt>
        requires { self.old.pc < MOST_PC }
        ensures turn { let here = here_of self.old in
            Turns result here (here_of self.new) (replaces here 2 (word_at (bytes_of (second here)) (number_of (last here)))) }
        ensures used { self.new.used ≡ self.old.used }
    {
        let value = self.word()?;
        self.replace(2, value)
    }

    /// A part of a slice in place of its three operands.
    pub fn takes_part(&mut self, world: &World) -> Result<(), Halt>
        requires { self.old.pc < MOST_PC }
        ensures turn { let here = here_of self.old in
            Turns result here (here_of self.new)
            (replaces here 3 (sub_at (bytes_of (third here)) (number_of (second here)) (number_of (last here)))) }
        ensures used { self.new.used ≡ self.old.used }
    {
        let value = self.part(world)?;
        self.replace(3, value)
    }
}
