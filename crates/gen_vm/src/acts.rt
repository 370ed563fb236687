ghost use Rattle.std.specs.Prelude.{◌≡◌, ◌+◌, ◌<◌, take, if◌then◌else◌};
ghost use Rattle.ext_mean.specs.MeaningValues.{bytes_of, truth_of};
ghost use Rattle.ext_mean.specs.Work.{charge};
ghost use Rattle.ext_mean.specs.MeaningStatements.{resp};
ghost use Rattle.gen_code.specs.Machine.{below, goes_to, last, stored, takes};
ghost use Rattle.gen_vm.specs.Places.{here_of, world_of};
ghost use Rattle.gen_vm.specs.Turns.{Spends, Turns};

use crate::bytes::fits;
use crate::halt::Halt;
use crate::here::Here;
use crate::moving::MOST_PC;
use crate::world::World;
use sp_base::{MOST_REPLY, Trap};

impl Here {
    /// To another instruction of the function.
    pub fn go_to(&mut self, target: usize) -> Result<(), Halt>
        ensures turn { Turns result (here_of self.old) (here_of self.new) (goes_to target (here_of self.old)) }
        ensures used { self.new.used ≡ self.old.used }
    {
        self.pc = target;
        Ok(())
    }

    /// To another instruction where the last value is false, which is taken.
    pub fn go_to_unless(&mut self, target: usize) -> Result<(), Halt>
        requires { self.old.pc < MOST_PC }
        ensures turn { let here = here_of self.old in
            Turns result here (here_of self.new)
            (goes_to (if truth_of (last here) then (here.pc + 1) else target) (record here { stack = below here.stack })) }
        ensures used { self.new.used ≡ self.old.used }
    {
        let truth = self.last_truth();
        let _ = self.stack.pop();
        self.pc = if truth { self.pc + 1 } else { target };
        Ok(())
    }

    /// The last value becomes that of a slot.
    pub fn store(&mut self, number: usize) -> Result<(), Halt>
        requires { self.old.pc < MOST_PC }
        ensures turn { let here = here_of self.old in
            Turns result here (here_of self.new) (goes_to (here.pc + 1) (record here {
              slots = stored number (last here) here.slots;
              stack = below here.stack;
            })) }
        ensures used { self.new.used ≡ self.old.used }
    {
        self.slots.store_last(number, &mut self.stack)?;
        self.pc += 1;
        Ok(())
    }

    /// The slots from a number on are gone.
    pub fn cut(&mut self, number: usize) -> Result<(), Halt>
        requires { self.old.pc < MOST_PC }
        ensures turn { let here = here_of self.old in
            Turns result here (here_of self.new) (goes_to (here.pc + 1) (record here { slots = take number here.slots })) }
        ensures used { self.new.used ≡ self.old.used }
    {
        self.slots.cut(number);
        self.pc += 1;
        Ok(())
    }

    /// A charge.
    pub fn pay(&mut self, world: &World, units: u32) -> Result<(), Halt>
        requires { self.old.pc < MOST_PC }
        ensures turn { let here = here_of self.old in
            Turns result here (here_of self.new) (takes here 0 (charge (world_of world.now) units)) }
        ensures used { Spends world.now.limit self.old.used self.new.used }
    {
        self.used = self.charged(world, units)?;
        self.pc += 1;
        Ok(())
    }

    /// The last value joins the reply.
    #[tactic(auto, using(crate::proofs::DepthLemmas::depths))]
    pub fn respond(&mut self) -> Result<(), Halt>
        requires { self.old.pc < MOST_PC }
        ensures turn { let here = here_of self.old in
            Turns result here (here_of self.new) (takes here 1 (resp (bytes_of (last here)))) }
        ensures used { self.new.used ≡ self.old.used }
    {
        let bytes = self.last_bytes();
        let room = fits(self.reply.len() as u64, bytes.len() as u64, MOST_REPLY);
        self.require(room, Trap::Size)?;
        self.reply.extend_from_slice(self.stack.bytes(0))?;
        self.stack.discard(1);
        self.pc += 1;
        Ok(())
    }
}
