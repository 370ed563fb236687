use crate::ext::Ext;
use crate::task::Task;
use rw_set::ReadSet;
use sp_base::{Call, MOST_READS, Memory, ReadItem};
use std::marker::Model;
use std::sync::Arc;

/// A call that was handed back to its client, with its extension and what it has read: its run is
/// dropped, since the client begins again. Contracts see the three.
#[derive(Drop)]
pub struct Parked {
    call: Call,
    ext: Arc<Ext>,
    reads: ReadSet,
}

impl Model for Parked {
    ghost use Rattle.std.specs.Arc.{arc_value};
    ghost use Rattle.std.specs.Coded.{codes};
    ghost use Rattle.ext_mean.specs.contracts.statement.Block as block;
    ghost use Rattle.task.specs.Parking.{ParkedCall};

    ghost Value = { ParkedCall };

    ghost coded = { Prim.hlevel (codes, block.the_row.coded) };

    ghost view = { λ p. record { call = p.call; ext = arc_value p.ext; reads = p.reads } };
}

impl Parked {
    ghost use Rattle.std.specs.Prelude.{◌≡◌, ◌<◌, ◌++◌, ◌∷◌, [], None, IfErr, OnErr, OnOk, length};
    ghost use Rattle.sp_base.specs.Spelling.{FitsOpt};
    ghost use Rattle.ext_mean.specs.Views.{place_of};
    ghost use Rattle.rw_set.specs.ReadLists.{read_of};
    ghost use Rattle.task.specs.Parking.{parked_of};

    /// What is kept of a task.
    pub fn of(task: Task) -> Parked
        ensures { result ≡ parked_of task }
    {
        let (call, ext, reads) = task.into_parts();
        Parked { call, ext, reads }
    }

    pub fn call(&self) -> &Call
        ensures { result.now ≡ self.now.call }
    {
        &self.call
    }

    /// The reads that are kept, in order.
    pub fn reads(&self) -> &ReadSet
        ensures { result.now ≡ self.now.reads }
    {
        &self.reads
    }

    /// The extension that the call runs.
    pub fn ext(&self) -> &Ext
        ensures { result.now ≡ self.now.ext }
    {
        &self.ext
    }

    /// The call and its reads.
    pub fn parts(self) -> (Call, ReadSet)
        ensures call { result.0 ≡ self.call }
        ensures reads { result.1 ≡ self.reads }
    {
        let Parked { call, reads, .. } = self;
        (call, reads)
    }

    /// Keeps one read more. Without memory nothing changes, and the read comes back.
    pub fn add(&mut self, item: ReadItem) -> Result<(), (Memory, ReadItem)>
        requires new { read_of self.old.reads (place_of item) ≡ None }
        requires room { length self.old.reads < MOST_READS }
        requires value { FitsOpt item.value }
        ensures ok { OnOk result (self.new ≡ record self.old { reads = self.old.reads ++ item ∷ [] }) }
        ensures err { OnErr result (self.new ≡ self.old) }
        ensures back { IfErr result (λ refused. refused.1 ≡ item) }
    {
        self.reads.add(item)
    }
}
