ghost use Rattle.std.specs.Prelude.{◌≡◌, ◌<◌, unwrap_or, OnSome};
ghost use Rattle.std.specs.Option.{option_copied};
ghost use Rattle.gen_code.specs.Machine.{Going, most_turns, once, op_at, perform, steps};
ghost use Rattle.gen_code.specs.declared.op.Op.TheVariants.{Return};
ghost use Rattle.gen_vm.specs.declared.doing.Doing.TheVariants as doing;
ghost use Rattle.gen_vm.specs.Going.{Halts, IsOver};
ghost use Rattle.gen_vm.specs.Places.{here_of, world_of};
ghost use Rattle.gen_vm.specs.Turns.{Spends, Turns};

use crate::doing::Doing;
use crate::halt::Halt;
use crate::here::Here;
use crate::moving::MOST_PC;
use crate::world::World;
use ext_mean::{BinOp, Value};
use gen_code::{Code, Op};
use sp_base::Blob;

/// An instruction. Behind the last one there is none.
fn op_at(code: &Code, function: usize, pc: usize) -> Option<&Op>
    ensures op { unwrap_or (option_copied result) Return ≡ op_at code.now function pc }
    ensures below { OnSome result (pc < MOST_PC) }
{
    let Some(function) = code.functions.get(function) else {
        return None;
    };
    let ops = function.ops.as_slice();
    if pc < ops.len() { Some(&ops[pc]) } else { None }
}

impl Here {
    /// One turn: the next instruction, or the record that was paid for. Without memory all stays as it was.
    pub fn step(&mut self, world: &World, code: &Code) -> Result<(), Halt>
        ensures turn { Turns result (here_of self.old) (here_of self.new)
            (once code.now (world_of world.now) (Going (here_of self.old))) }
        ensures used { Spends world.now.limit self.old.used self.new.used }
    {
        match &self.doing {
            Doing::Working => self.work(world, code),
            Doing::Reading { table, key, asker } => {
                let record = self.found(world, *table, key)?;
                let asker = *asker;
                self.answer(asker, record)
            }
        }
    }

    fn work(&mut self, world: &World, code: &Code) -> Result<(), Halt>
        requires { self.old.doing ≡ doing.Working }
        ensures turn { let here = here_of self.old in
            Turns result here (here_of self.new) (perform code.now (world_of world.now) (op_at code.now here.function here.pc) here) }
        ensures used { Spends world.now.limit self.old.used self.new.used }
    {
        match op_at(code, self.function, self.pc) {
            Some(op) => self.perform(world, code, op),
            None => self.back(world),
        }
    }

    /// One instruction.
    fn perform(&mut self, world: &World, code: &Code, op: &Op) -> Result<(), Halt>
        requires pc { self.old.pc < MOST_PC }
        requires working { self.old.doing ≡ doing.Working }
        ensures turn { Turns result (here_of self.old) (here_of self.new)
            (perform code.now (world_of world.now) op.now (here_of self.old)) }
        ensures used { Spends world.now.limit self.old.used self.new.used }
    {
        match op {
            Op::Num(number) => self.push(Value::Int(*number)),
            Op::Str(bytes) => {
                let bytes = bytes.share(world.alloc)?;
                self.push(Value::Slice(bytes))
            }
            Op::Truth(truth) => self.push(Value::Bool(*truth)),
            Op::Args => {
                let bytes = Blob::of(world.alloc, world.args)?;
                self.push(Value::Slice(bytes))
            }
            Op::Load(slot) => self.load(world, usize::from(*slot)),
            Op::Store(slot) => self.store(usize::from(*slot)),
            Op::Move(slot) => self.move_out(usize::from(*slot)),
            Op::Drop(slot) => self.cut(usize::from(*slot)),
            Op::Add => self.operates(BinOp::Add),
            Op::Less => self.operates(BinOp::Less),
            Op::Minus => self.operates(BinOp::Subtract),
            Op::Times => self.operates(BinOp::Multiply),
            Op::Over => self.operates(BinOp::Divide),
            Op::Rest => self.operates(BinOp::Remainder),
            Op::LessEq => self.operates(BinOp::LessEqual),
            Op::EqInt | Op::EqBool | Op::EqSlice => self.operates(BinOp::Equal),
            Op::Not => self.negate(),
            Op::Jump(target) => self.go_to(*target as usize),
            Op::JumpFalse(target) => self.go_to_unless(*target as usize),
            Op::Len => self.measure(),
            Op::Byte => self.takes_byte(),
            Op::Word => self.takes_word(),
            Op::Sub => self.takes_part(world),
            Op::View(slot) => self.view(world, usize::from(*slot)),
            Op::Alloc => self.make_buffer(world),
            Op::Temp => self.make_temp(world),
            Op::Set(slot) => self.set(usize::from(*slot)),
            Op::Set8(slot) => self.set_word(usize::from(*slot)),
            Op::Copy(slot) => self.copy(usize::from(*slot)),
            Op::Put(slot) => self.put(world, usize::from(*slot)),
            Op::Del => self.del(world),
            Op::Resp => self.respond(),
            Op::Charge(units) => self.pay(world, *units),
            Op::Get(target) => self.get(world, *target),
            Op::Multi(target) => self.next_of_many(world, *target),
            Op::Call(number) => self.call(world, code, usize::from(*number)),
            Op::Return => self.back(world),
        }
    }
}

/// Turn by turn, until one stops the run.
pub fn run(here: &mut Here, world: &World, code: &Code) -> Halt
    requires { IsOver (steps code.now (world_of world.now) (most_turns code.now world.now.limit) (Going (here_of here.old))) }
    ensures halts { Halts code.now (world_of world.now) (here_of here.old) result (here_of here.new) }
    ensures used { Spends world.now.limit here.old.used here.new.used }
{
    'turns: loop {
        if let Err(halt) = here.step(world, code) {
            return halt;
        }
    }
}
