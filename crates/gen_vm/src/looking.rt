ghost use Rattle.std.specs.Prelude.{◌≡◌};
ghost use Rattle.ext_mean.specs.MeaningValues.{buffer_of, bytes_of, number_of, same_value, truth_of};
ghost use Rattle.ext_mean.specs.Work.{charge, require};
ghost use Rattle.gen_code.specs.Machine.{fourth, last, second, slot, state_of, third};
ghost use Rattle.gen_vm.specs.Places.{here_of, world_of};
ghost use Rattle.gen_vm.specs.Turns.{Finds, Pays};

use crate::halt::Halt;
use crate::here::Here;
use crate::values::{buffer_of, same_value};
use crate::world::World;
use ext_mean::{Run, Value};
use sp_base::Trap;

impl Here {
    /// A test of the language: where it fails, the run is trapped.
    pub fn require(&self, test: bool, trap: Trap) -> Result<(), Halt>
        ensures { Finds result (state_of (here_of self.now)) (require test trap (state_of (here_of self.now))) }
    {
        if test {
            return Ok(());
        }
        Err(Halt::Ended(Run::Trapped {
            trap,
            used: self.used,
        }))
    }

    /// The units used behind a charge. One that does not fit the limit ends the run as spent.
    pub fn charged(&self, world: &World, units: u32) -> Result<u32, Halt>
        ensures { Pays result (state_of (here_of self.now)) (charge (world_of world.now) units (state_of (here_of self.now))) }
    {
        if u64::from(self.used) + u64::from(units) > u64::from(world.limit) {
            return Err(Halt::Ended(Run::Spent));
        }
        Ok(self.used + units)
    }

    /// The last value, as a number.
    #[tactic(auto, using(crate::proofs::DepthLemmas::depths))]
    pub fn last_number(&self) -> u64
        ensures { result ≡ number_of (last (here_of self.now)) }
    {
        self.stack.number(0)
    }

    #[tactic(auto, using(crate::proofs::DepthLemmas::depths))]
    pub fn second_number(&self) -> u64
        ensures { result ≡ number_of (second (here_of self.now)) }
    {
        self.stack.number(1)
    }

    #[tactic(auto, using(crate::proofs::DepthLemmas::depths))]
    pub fn third_number(&self) -> u64
        ensures { result ≡ number_of (third (here_of self.now)) }
    {
        self.stack.number(2)
    }

    #[tactic(auto, using(crate::proofs::DepthLemmas::depths))]
    pub fn fourth_number(&self) -> u64
        ensures { result ≡ number_of (fourth (here_of self.now)) }
    {
        self.stack.number(3)
    }

    /// The last value, as bytes.
    #[tactic(auto, using(crate::proofs::DepthLemmas::depths))]
    pub fn last_bytes(&self) -> &[u8]
        ensures { result.now ≡ bytes_of (last (here_of self.now)) }
    {
        self.stack.bytes(0)
    }

    #[tactic(auto, using(crate::proofs::DepthLemmas::depths))]
    pub fn second_bytes(&self) -> &[u8]
        ensures { result.now ≡ bytes_of (second (here_of self.now)) }
    {
        self.stack.bytes(1)
    }

    #[tactic(auto, using(crate::proofs::DepthLemmas::depths))]
    pub fn third_bytes(&self) -> &[u8]
        ensures { result.now ≡ bytes_of (third (here_of self.now)) }
    {
        self.stack.bytes(2)
    }

    /// The last value, as a truth.
    #[tactic(auto, using(crate::proofs::DepthLemmas::depths))]
    pub fn last_truth(&self) -> bool
        ensures { result ≡ truth_of (last (here_of self.now)) }
    {
        self.stack.truth()
    }

    /// Whether the last two values are equal.
    #[tactic(auto, using(crate::proofs::DepthLemmas::depths))]
    pub fn is_same(&self) -> bool
        ensures { result ≡ same_value (second (here_of self.now)) (last (here_of self.now)) }
    {
        let none = Value::Int(0);
        let left = self.stack.peek(1).unwrap_or(&none);
        let right = self.stack.peek(0).unwrap_or(&none);
        same_value(left, right)
    }

    /// The bytes of the buffer in a slot.
    pub fn buffer(&self, number: usize) -> &[u8]
        ensures { result.now ≡ buffer_of (slot self.now.slots number) }
    {
        match self.slots.get(number) {
            Some(value) => buffer_of(value),
            None => &[],
        }
    }
}
