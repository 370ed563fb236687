ghost use Rattle.std.specs.Prelude.{◌≡◌, ◌<◌, OnErr, OnOk};
ghost use Rattle.sp_base.specs.Places.{same_place};
ghost use Rattle.ext_mean.specs.MeaningValues.{bytes_of, changed, number_of, place_changed};
ghost use Rattle.ext_mean.specs.MeaningStatements.{del, put, write};
ghost use Rattle.gen_code.specs.Machine.{last, second, slot, state_of, takes};
ghost use Rattle.gen_vm.specs.Finding.{first_from};
ghost use Rattle.gen_vm.specs.Places.{here_of, world_of};
ghost use Rattle.gen_vm.specs.Turns.{Turns, Works};

use crate::bytes::{is_key, key_of};
use crate::halt::Halt;
use crate::here::Here;
use crate::moving::MOST_PC;
use crate::records::place_of_change;
use crate::rights::can_write;
use crate::values::share_buffer;
use crate::world::World;
use ext_mean::{Buffer, Value};
use sp_base::{Change, MOST_WRITES, Memory, TableId, Trap, Write};

/// The changes after one more: it takes the place of the one at its own place, or is the last. Without
/// memory nothing changes.
#[tactic(auto, using(crate::proofs::FindingLemmas::finding))]
fn change(writes: &mut Vec<Write>, pending: Option<usize>, new: Write) -> Result<(), Memory>
    requires { pending
        ≡ first_from (λ write. same_place (place_changed write) (place_changed new)) 0 writes.old.items }
    ensures ok { OnOk result (writes.new.items ≡ changed new writes.old.items) }
    ensures err { OnErr result (writes.new.items ≡ writes.old.items) }
{
    match pending {
        Some(at) => {
            writes[at] = new;
            Ok(())
        }
        None => {
            writes.push(new)?;
            Ok(())
        }
    }
}

impl Here {
    /// A change of one record, which is new where nothing is pending at its place.
    #[tactic(auto, using(crate::proofs::FindingLemmas::finding))]
    fn write(&mut self, new: Write) -> Result<(), Halt>
        ensures turn { Works result (here_of self.old) (here_of self.new) (write new (state_of (here_of self.old))) }
        ensures used { self.new.used ≡ self.old.used }
    {
        let pending = place_of_change(self.writes.as_slice(), new.table, &new.key);
        let room = pending.is_some() || self.writes.len() < MOST_WRITES;
        self.require(room, Trap::Size)?;
        change(&mut self.writes, pending, new)?;
        Ok(())
    }

    /// The buffer of a slot becomes the change at its place.
    fn put_slot(&mut self, world: &World, number: usize) -> Result<(), Halt>
        ensures turn { Works result (here_of self.old) (here_of self.new)
            (put (slot self.old.slots number) (state_of (here_of self.old))) }
        ensures used { self.new.used ≡ self.old.used }
    {
        match self.slots.get(number) {
            Some(Value::Buf(buffer)) => {
                let Buffer { table, key, bytes } = share_buffer(world.alloc, buffer)?;
                let change = Change::Put(bytes);
                self.write(Write { table, key, change })
            }
            _ => Ok(()),
        }
    }

    /// The buffer of a slot becomes the change at its place, and the next instruction.
    pub fn put(&mut self, world: &World, number: usize) -> Result<(), Halt>
        requires { self.old.pc < MOST_PC }
        ensures turn { Turns result (here_of self.old) (here_of self.new)
            (takes (here_of self.old) 0 (put (slot self.old.slots number))) }
        ensures used { self.new.used ≡ self.old.used }
    {
        self.put_slot(world, number)?;
        self.pc += 1;
        Ok(())
    }

    /// The record of a table with a key is deleted.
    fn delete(&mut self, world: &World) -> Result<(), Halt>
        ensures turn { let here = here_of self.old in
            Works result here (here_of self.new)
            (del (world_of world.now) (number_of (second here)) (bytes_of (last here)) (state_of here)) }
        ensures used { self.new.used ≡ self.old.used }
    {
        let table = self.second_number();
        let key = self.last_bytes();
        self.require(is_key(key), Trap::Size)?;
        self.require(can_write(world.rights, table), Trap::Denied)?;
        let key = key_of(world.alloc, key)?;
        let table = TableId(table as u32);
        let change = Change::Del;
        self.write(Write { table, key, change })
    }

    /// The record of a table with a key is deleted, and the next instruction.
    pub fn del(&mut self, world: &World) -> Result<(), Halt>
        requires { self.old.pc < MOST_PC }
        ensures turn { let here = here_of self.old in
            Turns result here (here_of self.new)
            (takes here 2 (del (world_of world.now) (number_of (second here)) (bytes_of (last here)))) }
        ensures used { self.new.used ≡ self.old.used }
    {
        self.delete(world)?;
        self.stack.discard(2);
        self.pc += 1;
        Ok(())
    }
}
