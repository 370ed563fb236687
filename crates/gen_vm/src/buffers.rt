ghost use Rattle.std.specs.Prelude.{◌≡◌, ◌∷◌, [], ◌<◌, length, nat_lt, replicate, IfOk};
ghost use Rattle.sp_base.specs.declared.outcomes.Trap.TheVariants.{Range};
ghost use Rattle.ext_mean.specs.MeaningExpressions.{new_buffer, new_temp};
ghost use Rattle.ext_mean.specs.MeaningValues.{bytes_of, number_of, word_bytes};
ghost use Rattle.ext_mean.specs.Work.{require};
ghost use Rattle.gen_code.specs.Machine.{does, last, overwrites, replaces, second, third};
ghost use Rattle.gen_vm.specs.Places.{here_of, world_of};
ghost use Rattle.gen_vm.specs.Turns.{Spends, Turns};

use crate::bytes::{fits, is_key, key_of};
use crate::halt::Halt;
use crate::here::Here;
use crate::moving::MOST_PC;
use crate::rights::can_write;
use crate::world::World;
use ext_mean::{Buffer, Value};
use sp_base::{Blob, MOST_VALUE, Memory, TableId, Trap};
use std::alloc::Global;

/// A buffer of zeros.
fn zeros(alloc: Global, size: usize) -> Result<Blob, Memory>
    ensures { IfOk result (λ blob. blob ≡ replicate size 0) }
{
    Ok(Blob::from_vec(vec![in alloc; 0; size]?))
}

impl Here {
    /// A buffer of zeros with no place.
    pub fn make_temp(&mut self, world: &World) -> Result<(), Halt>
        requires { self.old.pc < MOST_PC }
        ensures turn { let here = here_of self.old in
            Turns result here (here_of self.new) (replaces here 1 (new_temp (world_of world.now) (number_of (last here)))) }
        ensures used { Spends world.now.limit self.old.used self.new.used }
    {
        let size = self.last_number();
        self.require(size <= MOST_VALUE as u64, Trap::Size)?;
        let used = self.charged(world, size as u32 / 16)?;
        let bytes = zeros(world.alloc, size as usize)?;
        self.replace(1, Value::Temp(bytes))?;
        self.used = used;
        Ok(())
    }

    /// A buffer of zeros for the record of a table with a key.
    pub fn make_buffer(&mut self, world: &World) -> Result<(), Halt>
        requires { self.old.pc < MOST_PC }
        ensures turn { let here = here_of self.old in
            Turns result here (here_of self.new)
            (replaces here 3 (new_buffer (world_of world.now) (number_of (third here)) (bytes_of (second here)) (number_of (last here)))) }
        ensures used { Spends world.now.limit self.old.used self.new.used }
    {
        let table = self.third_number();
        let key = self.second_bytes();
        let size = self.last_number();
        self.require(is_key(key) && size <= MOST_VALUE as u64, Trap::Size)?;
        self.require(can_write(world.rights, table), Trap::Denied)?;
        let used = self.charged(world, size as u32 / 16)?;
        let key = key_of(world.alloc, key)?;
        let bytes = zeros(world.alloc, size as usize)?;
        let table = TableId(table as u32);
        self.replace(3, Value::Buf(Buffer { table, key, bytes }))?;
        self.used = used;
        Ok(())
    }

    /// Bytes into the buffer of a slot, where they are within it.
    fn overwrite(&mut self, number: usize, place: u64, bytes: &[u8]) -> Result<(), Halt>
        requires { self.old.pc < MOST_PC }
        ensures turn { Turns result (here_of self.old) (here_of self.new) (overwrites (here_of self.old) number place bytes.now) }
        ensures used { self.new.used ≡ self.old.used }
    {
        let within = fits(place, bytes.len() as u64, self.buffer(number).len());
        self.require(within, Trap::Range)?;
        self.slots.overwrite(number, place as usize, bytes);
        self.stack.discard(2);
        self.pc += 1;
        Ok(())
    }

    /// A byte into the buffer of a slot.
    pub fn set(&mut self, number: usize) -> Result<(), Halt>
        requires { self.old.pc < MOST_PC }
        ensures turn { let here = here_of self.old in
            Turns result here (here_of self.new)
            (does here (require (nat_lt (number_of (last here)) 256) Range) (λ _ later.
            overwrites later number (number_of (second later)) (number_of (last later) ∷ []))) }
        ensures used { self.new.used ≡ self.old.used }
    {
        let place = self.second_number();
        let byte = self.last_number();
        self.require(byte < 256, Trap::Range)?;
        self.overwrite(number, place, &[byte as u8])
    }

    /// Eight bytes, little endian, into the buffer of a slot.
    pub fn set_word(&mut self, number: usize) -> Result<(), Halt>
        requires { self.old.pc < MOST_PC }
        ensures turn { let here = here_of self.old in
            Turns result here (here_of self.new)
            (overwrites here number (number_of (second here)) (word_bytes (number_of (last here)))) }
        ensures used { self.new.used ≡ self.old.used }
    {
        let place = self.second_number();
        let bytes = self.last_number().to_le_bytes();
        self.overwrite(number, place, &bytes)
    }

    /// A slice into the buffer of a slot.
    #[tactic(auto, using(crate::proofs::DepthLemmas::depths))]
    pub fn copy(&mut self, number: usize) -> Result<(), Halt>
        requires { self.old.pc < MOST_PC }
        ensures turn { let here = here_of self.old in
            Turns result here (here_of self.new)
            (overwrites here number (number_of (second here)) (bytes_of (last here))) }
        ensures used { self.new.used ≡ self.old.used }
    {
        let place = self.second_number();
        let within = fits(
            place,
            self.last_bytes().len() as u64,
            self.buffer(number).len(),
        );
        self.require(within, Trap::Range)?;
        self.slots
            .overwrite(number, place as usize, self.stack.bytes(0));
        self.stack.discard(2);
        self.pc += 1;
        Ok(())
    }
}
