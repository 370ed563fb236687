ghost use Rattle.std.specs.Prelude.{◌≡◌, ◌+◌, ◌<◌, ◌^◌, drop, length, IfOk};
ghost use Rattle.sp_base.specs.declared.outcomes.Trap.TheVariants.{Size};
ghost use Rattle.sp_base.specs.Places.{Place};
ghost use Rattle.ext_mean.specs.MeaningValues.{bytes_of, is_key, number_of, part_of, pending};
ghost use Rattle.ext_mean.specs.MeaningStatements.{found};
ghost use Rattle.ext_mean.specs.Work.{require};
ghost use Rattle.gen_code.specs.Machine.{ForGet, ForMulti, answers, does, last, reads, second, state_of, takes_next};
ghost use Rattle.gen_vm.specs.Places.{asker_of, here_of, world_of};
ghost use Rattle.gen_vm.specs.Turns.{Finds, Pays, Spends, Turns, pays_read};

use crate::bytes::{is_key, is_width, key_of, part_of};
use crate::doing::{Asker, Doing};
use crate::halt::Halt;
use crate::here::Here;
use crate::records::{left_by, pending, read_of, share_value};
use crate::rights::can_read;
use crate::world::World;
use ext_mean::{Run, Value};
use sp_base::{Blob, Key, TableId, Trap};

/// The next key of a `multiget`: a width of bytes from a place on, or those that are left.
fn piece_of(keys: &[u8], place: usize, width: usize) -> &[u8]
    requires { place < length keys.now }
    ensures { result.now ≡ part_of keys.now place width }
{
    let left = keys.len() - place;
    part_of(keys, place, width.min(left))
}

/// The units of a read.
const UNITS_OF_READ: u32 = 16;

impl Here {
    /// The units used behind a read of a table, whose level comes first.
    fn read_paid(&self, world: &World, table: u64) -> Result<u32, Halt>
        ensures paid { let state = state_of (here_of self.now) in
            Pays result state (pays_read (world_of world.now) table state) }
        ensures small { IfOk result (λ used. table < 2 ^ 32) }
    {
        self.require(can_read(world.rights, table), Trap::Denied)?;
        self.charged(world, UNITS_OF_READ)
    }

    /// Pays for the record of a table with a key, which is asked next.
    pub fn get(&mut self, world: &World, target: u32) -> Result<(), Halt>
        ensures turn { let here = here_of self.old in
            Turns result here (here_of self.new)
            (does here (require (is_key (bytes_of (last here))) Size) (λ _ later.
            reads (world_of world.now) (record { table = number_of (second here); key = bytes_of (last here) }) (ForGet target)
            (record later { stack = drop 2 later.stack }))) }
        ensures used { Spends world.now.limit self.old.used self.new.used }
    {
        let table = self.second_number();
        let key = self.last_bytes();
        self.require(is_key(key), Trap::Size)?;
        let used = self.read_paid(world, table)?;
        let key = key_of(world.alloc, key)?;
        self.stack.discard(2);
        self.used = used;
        self.doing = Doing::Reading {
            table: TableId(table as u32),
            key,
            asker: Asker::ForGet(target),
        };
        Ok(())
    }

    /// Pays for the next record of a `multiget`, or leaves it where no key is left.
    pub fn next_of_many(&mut self, world: &World, target: u32) -> Result<(), Halt>
        ensures turn { Turns result (here_of self.old) (here_of self.new)
            (takes_next (world_of world.now) target (here_of self.old)) }
        ensures used { Spends world.now.limit self.old.used self.new.used }
    {
        let keys = self.third_bytes();
        let width = self.second_number();
        let place = self.last_number();
        let count = keys.len();
        self.require(is_width(width, count), Trap::Width)?;
        if count as u64 <= place {
            self.stack.discard(4);
            self.pc = target as usize;
            return Ok(());
        }
        let table = self.fourth_number();
        let used = self.read_paid(world, table)?;
        let key = key_of(world.alloc, piece_of(keys, place as usize, width as usize))?;
        self.stack.replace(1, Value::Int(place + width))?;
        self.used = used;
        self.doing = Doing::Reading {
            table: TableId(table as u32),
            key,
            asker: Asker::ForMulti,
        };
        Ok(())
    }

    /// The record that was asked: a pending change answers, else what is known. The run wants a place
    /// that is not.
    pub fn found(&self, world: &World, table: TableId, key: &Key) -> Result<Option<Blob>, Halt>
        ensures { let place : Place = record { table = table.0; key = key.now } in
            Finds result (state_of (here_of self.now))
            (found (world_of world.now) place (pending place self.now.writes.items) (state_of (here_of self.now))) }
    {
        if let Some(write) = pending(self.writes.as_slice(), table, key) {
            return Ok(left_by(world.alloc, &write.change)?);
        }
        match read_of(world.fed, table, key) {
            Some(read) => Ok(share_value(world.alloc, &read.value)?),
            None => Err(Halt::Ended(Run::Wants {
                table,
                key: key.share(world.alloc)?,
                used: self.used,
            })),
        }
    }

    /// The record that was asked is there or absent.
    pub fn answer(&mut self, asker: Asker, bytes: Option<Blob>) -> Result<(), Halt>
        ensures turn { Turns result (here_of self.old) (here_of self.new) (answers (asker_of asker) bytes (here_of self.old)) }
        ensures used { self.new.used ≡ self.old.used }
    {
        match asker {
            Asker::ForGet(target) => self.answer_get(target, bytes),
            Asker::ForMulti => self.answer_many(bytes),
        }
    }

    /// A record that is there or absent, for a `get`.
    fn answer_get(&mut self, target: u32, bytes: Option<Blob>) -> Result<(), Halt>
        ensures turn { Turns result (here_of self.old) (here_of self.new) (answers (ForGet target) bytes (here_of self.old)) }
        ensures used { self.new.used ≡ self.old.used }
    {
        match bytes {
            Some(bytes) => {
                let next = self.next_pc()?;
                self.stack.push(Value::Slice(bytes))?;
                self.pc = next;
            }
            None => self.pc = target as usize,
        }
        self.doing = Doing::Working;
        Ok(())
    }

    /// A record that is there or absent, for a `multiget`.
    fn answer_many(&mut self, bytes: Option<Blob>) -> Result<(), Halt>
        ensures turn { Turns result (here_of self.old) (here_of self.new) (answers ForMulti bytes (here_of self.old)) }
        ensures used { self.new.used ≡ self.old.used }
    {
        let next = self.next_pc()?;
        match bytes {
            Some(bytes) => self.stack.push_two(Value::Slice(bytes), Value::Bool(true))?,
            None => self.stack.push_two(Value::Int(0), Value::Bool(false))?,
        }
        self.pc = next;
        self.doing = Doing::Working;
        Ok(())
    }
}
