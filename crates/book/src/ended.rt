ghost use Rattle.std.specs.Prelude.{◌≡◌, ◌≤◌, length};

use crate::reads::kept_reads;
use journal::{Entry, Home};
use rw_set::{Finished, ReadSet, Sent};
use sp_base::{Call, MOST_READS, Outcome, Writes};

/// A run that has ended, in the server or at its client, as a commit judges it.
#[derive(Drop)]
pub struct Ended {
    pub call: Call,
    pub home: Home,
    pub reads: ReadSet,
    pub outcome: Outcome,
    pub writes: Writes,
}

impl Ended {
    ghost use Rattle.journal.specs.declared.entry.Home.TheVariants.{Server, Client};
    ghost use Rattle.book.specs.Verdict.{entry_in};

    /// A run that ended in the server.
    pub fn here(done: Finished) -> Ended
        ensures ended { result ≡ record { call = done.call; home = Server; reads = done.reads; outcome = done.outcome; writes = done.writes } }
        ensures few { length done.reads ≤ MOST_READS }
    {
        let _ = done.reads.items();
        let Finished {
            call,
            reads,
            outcome,
            writes,
            ..
        } = done;
        Ended {
            call,
            home: Home::Server,
            reads,
            outcome,
            writes,
        }
    }

    /// A run that its client sent.
    pub fn away(sent: Sent) -> Ended
        ensures ended { result ≡ record { call = sent.call; home = Client; reads = sent.reads; outcome = sent.outcome; writes = sent.writes } }
        ensures few { length sent.reads ≤ MOST_READS }
    {
        let _ = sent.reads.items();
        let Sent {
            call,
            reads,
            outcome,
            writes,
        } = sent;
        Ended {
            call,
            home: Home::Client,
            reads,
            outcome,
            writes,
        }
    }

    /// The entry of the run.
    pub fn into_entry(self) -> Entry
        ensures { result ≡ entry_in self }
    {
        let Ended {
            call,
            home,
            reads,
            outcome,
            writes,
        } = self;
        Entry::Invoke {
            call,
            outcome,
            writes,
            reads: kept_reads(reads),
            home,
        }
    }
}
