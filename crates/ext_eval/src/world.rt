ghost use Rattle.std.specs.Prelude.{◌≡◌};
ghost use Rattle.ext_eval.specs.Worlds.{world_of};

use ext_mean::Function;
use sp_base::{ReadItem, Rights};
use std::alloc::Global;

/// What the block of a function has before it.
#[derive(Drop)]
pub struct World<'a> {
    pub alloc: Global,
    pub args: &'a [u8],
    /// The most units that the run may use.
    pub budget: u32,
    pub rights: &'a Rights,
    /// The records that are known.
    pub reads: &'a [ReadItem],
    /// The functions of the program.
    pub functions: &'a [Function],
    /// How many of the functions, from the first on, may be called.
    pub below: usize,
}

impl World<'_> {
    /// The same for a called function, which has so many before it.
    pub fn of_callee(&self, below: usize) -> World<'_>
        ensures world { world_of result ≡ world_of self.now }
        ensures functions { result.functions ≡ self.now.functions }
        ensures below { result.below ≡ below }
    {
        World {
            alloc: self.alloc,
            args: self.args,
            budget: self.budget,
            rights: self.rights,
            reads: self.reads,
            functions: self.functions,
            below,
        }
    }
}
