ghost use Rattle.std.specs.Prelude.{◌≡◌, ◌↔◌, ◌⊎◌, ◌≤◌, [], All, Contains, Some};
ghost use Rattle.sp_outside.specs.Hearing.{IsUnused};
ghost use Rattle.sp_outside.specs.Doors.{IfDialled, DialsNext, faults_after_dial};
ghost use Rattle.sp_outside.specs.Faults.{FaultCounted, one_call_more};

use crate::dial::{Dial, Dialled};
use crate::mem_link::MemLink;
use crate::memory::count_call;

/// A dial in memory that gives the links of a list, some calls of which can be made to fail.
#[derive(Debug, Drop)]
pub struct MemDial {
    /// The links that are still to come, in order. Where there is none, a call fails.
    pub coming: Vec<MemLink>,
    /// The link that was done last.
    pub ended: Option<MemLink>,
    /// The numbers of the calls of `dial` that fail, counted from 0.
    pub fail: Vec<u32>,
    /// How many calls of `dial` there were, up to the last value.
    pub calls: u32,
    /// How many calls have failed, up to the last value.
    pub faults: u64,
    ghost unused: { All (λ link. IsUnused link.at link.held.items link.faults) coming.items },
}

impl Dial for MemDial {
    type Link = MemLink;

    ghost faults = { λ d. d.faults };

    ghost ended = { λ d. d.ended };

    fn dial(&mut self, _port: u16) -> Dialled<MemLink>
        ensures fails { (result ≡ Dialled.Failed)
            ↔ (Contains self.old.fail.items self.old.calls ⊎ (self.old.coming.items ≡ [])) }
        ensures next { DialsNext result self.old.coming.items self.new.coming.items }
        ensures unused { IfDialled result (λ link.
            IsUnused link.at link.held.items link.faults) }
        ensures calls { self.new.calls ≡ one_call_more self.old.calls }
        ensures faults { self.new.faults ≡ faults_after_dial result self.old.faults }
        ensures same_ended { self.new.ended ≡ self.old.ended }
        ensures same_fail { self.new.fail ≡ self.old.fail }
        ensures failed { result ≡ Dialled.Failed → FaultCounted self.old.faults self.new.faults }
        ensures never_falls { self.old.faults ≤ self.new.faults }
    {
        if count_call(self.fail.as_slice(), &mut self.calls, &mut self.faults) {
            return Dialled::Failed;
        }
        if self.coming.is_empty() {
            self.faults = self.faults.saturating_add(1);
            return Dialled::Failed;
        }
        Dialled::Link(self.coming.remove(0))
    }

    fn done(&mut self, link: MemLink)
        ensures { self.new ≡ record self.old { ended = Some link } }
    {
        self.ended = Some(link);
    }
}
