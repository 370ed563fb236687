ghost use Rattle.std.specs.Prelude.{◌≡◌, ◌∷◌, [], drop, slice_set, take, reverse, unwrap_or, IfOk, OnOk, OnErr};
ghost use Rattle.std.specs.Option.{option_copied};
ghost use Rattle.ext_mean.specs.MeaningValues.{bytes_of, nothing, number_of, truth_of};
ghost use Rattle.gen_code.specs.Machine.{below, slot, top};
ghost use Rattle.gen_vm.specs.Depths.{at_depth};

use crate::slots::Slots;
use crate::values::{bytes_of, number_of, truth_of};
use ext_mean::Value;
use sp_base::Memory;
use std::alloc::Global;
use std::marker::Model;

/// The values that wait. Contracts see them with the last one first.
#[derive(Drop)]
pub struct Stack {
    items: Vec<Value>,
}

impl Model for Stack {
    ghost use Rattle.std.specs.Prelude.{List, reverse};
    ghost use Rattle.ext_mean.specs.declared.state.Value.{Value as Held};

    ghost Value = { List Held };

    ghost view = { λ s. reverse s.items.items };
}

#[tactic(auto, using(crate::proofs::StackLemmas::stacks))]
impl Stack {
    /// No values.
    pub fn new(alloc: Global) -> Stack
        ensures { result ≡ [] }
    {
        Stack {
            items: Vec::new(alloc),
        }
    }

    /// A value on top. Without memory nothing changes.
    pub fn push(&mut self, value: Value) -> Result<(), Memory>
        ensures ok { OnOk result (self.new ≡ value ∷ self.old) }
        ensures err { OnErr result (self.new ≡ self.old) }
    {
        self.items.push(value)?;
        Ok(())
    }

    /// Two values on top, the second uppermost. Without memory nothing changes.
    pub fn push_two(&mut self, first: Value, second: Value) -> Result<(), Memory>
        ensures ok { OnOk result (self.new ≡ second ∷ first ∷ self.old) }
        ensures err { OnErr result (self.new ≡ self.old) }
    {
        self.items.reserve(2)?;
        self.items.push_reserved(first);
        self.items.push_reserved(second);
        Ok(())
    }

    /// The value of a slot moves here. Without memory nothing changes.
    pub fn take_slot(&mut self, slots: &mut Slots, number: usize) -> Result<(), Memory>
        ensures ok { OnOk result (self.new ≡ slot slots.old number ∷ self.old) }
        ensures rest { OnOk result (slots.new ≡ slice_set slots.old number nothing) }
        ensures err { OnErr result (self.new ≡ self.old) }
        ensures kept { OnErr result (slots.new ≡ slots.old) }
    {
        self.items.reserve(1)?;
        let value = slots.take(number);
        self.items.push_reserved(value);
        Ok(())
    }

    /// A value in place of the last ones, of which so many are taken.
    pub fn replace(&mut self, taken: usize, value: Value) -> Result<(), Memory>
        ensures ok { OnOk result (self.new ≡ value ∷ drop taken self.old) }
        ensures err { OnErr result (self.new ≡ self.old) }
    {
        self.items.reserve(1)?;
        let kept = self.items.len().saturating_sub(taken);
        self.items.truncate(kept);
        self.items.push_reserved(value);
        Ok(())
    }

    /// So many of the last values are taken.
    pub fn discard(&mut self, taken: usize)
        ensures { self.new ≡ drop taken self.old }
    {
        let kept = self.items.len().saturating_sub(taken);
        self.items.truncate(kept);
    }

    /// The last value is taken. Where there is none it counts as 0.
    pub fn pop(&mut self) -> Value
        ensures value { result ≡ top self.old }
        ensures rest { self.new ≡ below self.old }
    {
        match self.items.pop() {
            Some(value) => value,
            None => Value::Int(0),
        }
    }

    /// The last value of another stack moves here. Without memory nothing changes.
    pub fn take_last(&mut self, other: &mut Stack) -> Result<(), Memory>
        ensures ok { OnOk result (self.new ≡ top other.old ∷ self.old) }
        ensures rest { OnOk result (other.new ≡ below other.old) }
        ensures err { OnErr result (self.new ≡ self.old) }
        ensures kept { OnErr result (other.new ≡ other.old) }
    {
        self.items.reserve(1)?;
        let value = other.pop();
        self.items.push_reserved(value);
        Ok(())
    }

    /// A value by its depth below the last one.
    pub fn peek(&self, depth: usize) -> Option<&Value>
        ensures { unwrap_or (option_copied result) nothing ≡ at_depth depth self.now }
    {
        let count = self.items.len();
        if depth >= count {
            return None;
        }
        self.items.get(count - 1 - depth)
    }

    /// A value by its depth below the last one, as a number.
    pub fn number(&self, depth: usize) -> u64
        ensures { result ≡ number_of (at_depth depth self.now) }
    {
        match self.peek(depth) {
            Some(value) => number_of(value),
            None => 0,
        }
    }

    /// A value by its depth below the last one, as bytes.
    pub fn bytes(&self, depth: usize) -> &[u8]
        ensures { result.now ≡ bytes_of (at_depth depth self.now) }
    {
        match self.peek(depth) {
            Some(value) => bytes_of(value),
            None => &[],
        }
    }

    /// The last value, as a truth.
    pub fn truth(&self) -> bool
        ensures { result ≡ truth_of (at_depth 0 self.now) }
    {
        match self.peek(0) {
            Some(value) => truth_of(value),
            None => false,
        }
    }

    /// The last values, of which so many leave, as the slots of a function. Without memory nothing
    /// changes.
    pub fn split(&mut self, count: usize) -> Result<Slots, Memory>
        ensures ok { OnOk result (self.new ≡ drop count self.old) }
        ensures slots { IfOk result (λ slots. slots ≡ reverse (take count self.old)) }
        ensures err { OnErr result (self.new ≡ self.old) }
    {
        let kept = self.items.len().saturating_sub(count);
        let items = self.items.split_off(kept)?;
        Ok(Slots::from_vec(items))
    }
}
