ghost use Rattle.std.specs.Prelude.{◌≡◌, ◌+◌, ◌≤◌, [], length, slice_get, slice_set, take, OnOk, OnErr};
ghost use Rattle.std.specs.Option.{option_copied};
ghost use Rattle.ext_mean.specs.MeaningValues.{buffer_of, nothing, overwritten, with_bytes};
ghost use Rattle.gen_code.specs.Machine.{below, slot, stored, top};

use crate::stack::Stack;
use crate::values::written;
use ext_mean::Value;
use sp_base::Memory;
use std::alloc::Global;
use std::marker::Model;
use std::mem;

/// The variables in scope, by their number.
#[derive(Drop)]
pub struct Slots {
    items: Vec<Value>,
}

impl Model for Slots {
    ghost use Rattle.std.specs.Prelude.{List};
    ghost use Rattle.ext_mean.specs.declared.state.Value.{Value as Held};

    ghost Value = { List Held };

    ghost view = { λ s. s.items.items };
}

#[tactic(auto, using(crate::proofs::StackLemmas::stacks))]
impl Slots {
    /// No variables.
    pub fn new(alloc: Global) -> Slots
        ensures { result ≡ [] }
    {
        Slots {
            items: Vec::new(alloc),
        }
    }

    /// Variables with these values.
    pub fn from_vec(items: Vec<Value>) -> Slots
        ensures { result ≡ items.items }
    {
        Slots { items }
    }

    pub fn get(&self, number: usize) -> Option<&Value>
        ensures { option_copied result ≡ slice_get self.now number }
    {
        self.items.get(number)
    }

    /// The value of a slot leaves it.
    pub fn take(&mut self, number: usize) -> Value
        ensures value { result ≡ slot self.old number }
        ensures rest { self.new ≡ slice_set self.old number nothing }
    {
        if number >= self.items.len() {
            return Value::Int(0);
        }
        mem::replace(&mut self.items[number], Value::Int(0))
    }

    /// The last value of a stack becomes that of a slot, or of a new one. Without memory nothing changes.
    pub fn store_last(&mut self, number: usize, stack: &mut Stack) -> Result<(), Memory>
        ensures ok { OnOk result (self.new ≡ stored number (top stack.old) self.old) }
        ensures rest { OnOk result (stack.new ≡ below stack.old) }
        ensures err { OnErr result (self.new ≡ self.old) }
        ensures kept { OnErr result (stack.new ≡ stack.old) }
    {
        if number == self.items.len() {
            self.items.reserve(1)?;
            let value = stack.pop();
            self.items.push_reserved(value);
            return Ok(());
        }
        let value = stack.pop();
        if number < self.items.len() {
            self.items[number] = value;
        }
        Ok(())
    }

    /// The slots from a number on are gone.
    pub fn cut(&mut self, number: usize)
        ensures { self.new ≡ take number self.old }
    {
        self.items.truncate(number);
    }

    /// Bytes into the buffer of a slot, from a place on. The others of its bytes are not touched.
    pub fn overwrite(&mut self, number: usize, place: usize, bytes: &[u8])
        requires { place + length bytes.now ≤ length (buffer_of (slot self.old number)) }
        ensures { let buffer = slot self.old number in
            self.new ≡ slice_set self.old number (with_bytes buffer (overwritten (buffer_of buffer) place bytes.now)) }
    {
        if number >= self.items.len() {
            return;
        }
        let value = mem::replace(&mut self.items[number], Value::Int(0));
        self.items[number] = written(value, place, bytes);
    }
}
