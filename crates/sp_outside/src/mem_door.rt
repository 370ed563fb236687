ghost use Rattle.std.specs.Prelude.{◌≡◌, ◌≢◌, ◌↔◌, ◌<◌, ◌≤◌, ◌++◌, ◌∷◌, [], length, max, nat_lt};
ghost use Rattle.std.specs.Prelude.{vec_len, vec_capacity, All, Contains, Some, IsTrue};
ghost use Rattle.sp_outside.specs.Hearing.{IsUnused};
ghost use Rattle.sp_outside.specs.Doors.{HasNoMore, IfAccepted, AcceptsNext, given_after};
ghost use Rattle.sp_outside.specs.Doors.{faults_after_bind, faults_after_accept, most_after};
ghost use Rattle.sp_outside.specs.Faults.{FaultCounted, one_call_more};

use crate::door::{Accepted, Bound, Door};
use crate::mem_link::MemLink;
use crate::memory::count_call;

/// A door in memory that gives the links of a list, some calls of which can be made to fail.
#[derive(Debug, Drop)]
pub struct MemDoor {
    /// The links that are still to come, in order.
    pub coming: Vec<MemLink>,
    /// The links that are done, in the order in which they were done.
    pub ended: Vec<MemLink>,
    /// How many links were given.
    pub given: u32,
    /// How many links are given at most: 0 until the door is bound.
    pub sessions: u32,
    /// The numbers of the calls of `bind` and `accept` that fail, counted together from 0.
    pub fail: Vec<u32>,
    /// How many calls of `bind` and `accept` there were, up to the last value.
    pub calls: u32,
    /// How many calls have failed, up to the last value.
    pub faults: u64,
    ghost unused: { All (λ link. IsUnused link.at link.held.items link.faults) coming.items },
    ghost has_room: { max given sessions ≤ vec_capacity ended },
}

impl Door for MemDoor {
    type Link = MemLink;

    ghost faults = { λ d. d.faults };

    ghost bound = { λ d. nat_lt 0 d.sessions };

    ghost most = { λ d. d.sessions };

    ghost coming = { λ d. Some (length d.coming.items) };

    ghost given = { λ d. d.given };

    ghost ended = { λ d. Some d.ended.items };

    fn bind(&mut self, _port: u16, sessions: u32) -> Bound
        requires { 0 < sessions }
        ensures fails { (result ≡ Bound.Failed) ↔ Contains self.old.fail.items self.old.calls }
        ensures sessions { self.new.sessions ≡ most_after result sessions self.old.sessions }
        ensures calls { self.new.calls ≡ one_call_more self.old.calls }
        ensures faults { self.new.faults ≡ faults_after_bind result self.old.faults }
        ensures same_ended { self.new.ended.items ≡ self.old.ended.items }
        ensures same_coming { self.new.coming ≡ self.old.coming }
        ensures same_given { self.new.given ≡ self.old.given }
        ensures same_fail { self.new.fail ≡ self.old.fail }
        ensures failed { result ≡ Bound.Failed → FaultCounted self.old.faults self.new.faults }
        ensures never_falls { self.old.faults ≤ self.new.faults }
    {
        if count_call(self.fail.as_slice(), &mut self.calls, &mut self.faults) {
            return Bound::Failed;
        }
        let more = (sessions as usize).saturating_sub(self.ended.len());
        if self.ended.reserve(more).is_err() {
            return Bound::Memory;
        }
        self.sessions = sessions;
        Bound::Yes
    }

    fn accept(&mut self) -> Accepted<MemLink>
        requires { 0 < self.old.sessions }
        ensures fails { (result ≡ Accepted.Failed)
            ↔ Contains self.old.fail.items self.old.calls }
        ensures closed { result ≢ Accepted.Failed → ((result ≡ Accepted.Closed)
            ↔ HasNoMore self.old.sessions self.old.given (Some (length self.old.coming.items))) }
        ensures next { AcceptsNext result self.old.coming.items self.new.coming.items }
        ensures unused { IfAccepted result (λ link.
            IsUnused link.at link.held.items link.faults) }
        ensures given { self.new.given ≡ given_after result self.old.given }
        ensures calls { self.new.calls ≡ one_call_more self.old.calls }
        ensures faults { self.new.faults ≡ faults_after_accept result self.old.faults }
        ensures same_ended { self.new.ended ≡ self.old.ended }
        ensures same_sessions { self.new.sessions ≡ self.old.sessions }
        ensures same_fail { self.new.fail ≡ self.old.fail }
        ensures failed { result ≡ Accepted.Failed → FaultCounted self.old.faults self.new.faults }
        ensures never_falls { self.old.faults ≤ self.new.faults }
    {
        if count_call(self.fail.as_slice(), &mut self.calls, &mut self.faults) {
            return Accepted::Failed;
        }
        if self.given >= self.sessions || self.coming.is_empty() {
            return Accepted::Closed;
        }
        self.given += 1;
        Accepted::Link(self.coming.remove(0))
    }

    fn done(&mut self, link: MemLink)
        requires bound { 0 < self.old.sessions }
        requires given { vec_len self.old.ended < self.old.given }
        ensures ended { self.new.ended.items ≡ self.old.ended.items ++ link ∷ [] }
        ensures same_coming { self.new.coming ≡ self.old.coming }
        ensures same_given { self.new.given ≡ self.old.given }
        ensures same_sessions { self.new.sessions ≡ self.old.sessions }
        ensures same_fail { self.new.fail ≡ self.old.fail }
        ensures same_calls { self.new.calls ≡ self.old.calls }
        ensures same_faults { self.new.faults ≡ self.old.faults }
    {
        // The memory is there, so this cannot fail.
        let _ = self.ended.push(link);
    }
}
