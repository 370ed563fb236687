ghost use Rattle.std.specs.Prelude.{◌≡◌, ◌≤◌, ◌+◌, ◌<◌, ◌⊎◌, ◌↔◌, IsTrue, IfOk, IfSome, IfNone, OnOk, OnErr, List, [], None, length, slice_get};
ghost use Rattle.std.specs.Arc.{arc_value};
ghost use Rattle.std.specs.List.{AllByRecursion};
ghost use Rattle.std.specs.Option.{option_map};
ghost use Rattle.sp_base.specs.Limits.{IsArguments, IsText, IsValue};
ghost use Rattle.ext_mean.specs.Outcomes.{ChangeFits, ReplyFits};
ghost use Rattle.ext_mean.specs.Views.{place_of};
ghost use Rattle.records.specs.Records.{place_at};
ghost use Rattle.journal.specs.declared.entry.Entry.{Entry};
ghost use Rattle.journal.specs.Folds.{texts_of, last_of, version_of};
ghost use Rattle.journal.specs.Granted.{granted};
ghost use Rattle.journal.specs.Reads.{bare};
ghost use Rattle.journal.specs.Sizes.{EntryFits};
ghost use Rattle.book.specs.Indexes.{HasExt, text_of};
ghost use Rattle.book.specs.Standing.{IsSound, KeepsFixed, MayJoin, RanOn, SentOn, StandsFor};
ghost use Rattle.book.specs.Verdict.{FoundFits, grown, is_full, is_full_for, item_at, entry_in, entry_of, sent_entry, moved, verdict, verdict_on, after_commit, put_answer, after_put, install_answer, after_install, read_answer, CommitTakesMemory, InstallTakesMemory, PutTakesMemory, ReadTakesMemory};

use crate::answers::{Commit, Install, Put, Read};
use crate::changes::{changes_of, make_all};
use crate::ended::Ended;
use crate::exts::{Exts, sized_text};
use crate::lasts::Lasts;
use crate::notes::note;
use crate::reads::nth_read;
use journal::{Entry, Journal, entry_size, install_size};
use records::{Grants, Tables};
use rw_set::{Finished, Sent};
use sp_base::{
    Blob, Caller, ExtNo, Key, Level, MOST_ENTRIES, MOST_JOURNAL, Memory, ReadItem, Rights, TableId,
    TenantId,
};
use std::alloc::Global;
use std::marker::Model;
use std::sync::Arc;
use task::Ext;

/// The journal, with the grants under which it grows. Contracts see the grants, the most entries,
/// whether clients' calls are audited, and the journal; layers above speak of the journal by
/// `StandsFor` alone.
#[derive(Drop)]
pub struct Book {
    alloc: Global,
    grants: Grants,
    audit: bool,
    journal: Journal,
    /// What the journal leaves at each place.
    tables: Tables,
    /// What each tenant has installed.
    exts: Exts,
    /// The number of each caller's last committed call.
    lasts: Lasts,
}

impl Model for Book {
    ghost use Rattle.book.specs.Indexes.{AreIndexes};
    ghost use Rattle.book.specs.Standing.{BookValue, IsSound};

    ghost Value = { BookValue };

    ghost view = { λ b. record { grants = b.grants; limit = b.journal.limit; audit = b.audit; journal = b.journal.entries } };

    ghost invariant = { λ b.
        IsSound b.grants b.journal.limit b.audit b.journal.entries
        × AreIndexes b.journal.entries b.tables b.exts b.lasts };
}

impl Book {
    /// A book with no entries, for at most `limit` of them. Under `audit` each call that ended at its
    /// client is what its source means on the records that it read.
    pub fn new(alloc: Global, grants: Grants, limit: u64, audit: bool) -> Book
        requires { limit ≤ MOST_ENTRIES }
        ensures stands { StandsFor result [] }
        ensures grants { result.grants ≡ grants }
        ensures limit { result.limit ≡ limit }
        ensures audit { result.audit ≡ audit }
    {
        grants.are_grants();
        Book {
            alloc,
            grants,
            audit,
            journal: Journal::new(alloc, limit),
            tables: Tables::new(alloc),
            exts: Exts::new(alloc),
            lasts: Lasts::new(alloc),
        }
    }

    /// How many entries the journal has.
    pub fn len(&self) -> u64
        ensures { (journal : List Entry) → StandsFor self.now journal → result ≡ length journal }
    {
        self.journal.len()
    }

    pub fn is_empty(&self) -> bool
        ensures { (journal : List Entry) → StandsFor self.now journal → IsTrue result ↔ (length journal ≡ 0) }
    {
        self.journal.is_empty()
    }

    /// The journal, from entry 0 on.
    pub fn journal(&self) -> &Journal
        ensures { StandsFor self.now result.now.entries }
    {
        &self.journal
    }

    /// The number of a caller's last committed call, or 0.
    pub fn last(&self, caller: Caller) -> u64
        ensures { (journal : List Entry) → StandsFor self.now journal → result ≡ last_of journal caller }
    {
        self.lasts.get(caller)
    }

    /// How many extensions a tenant has installed.
    pub fn ext_count(&self, tenant: TenantId) -> u32
        ensures { (journal : List Entry) → StandsFor self.now journal → result ≡ length (texts_of journal tenant) }
    {
        self.count(tenant)
    }

    fn count(&self, tenant: TenantId) -> u32
        ensures { result ≡ length (texts_of self.now.journal tenant) }
    {
        self.exts.count(tenant) as u32
    }

    /// A tenant's extension with this number, where there is one.
    pub fn ext(&self, tenant: TenantId, ext: ExtNo) -> Result<Option<Arc<Ext>>, Memory>
        ensures { (journal : List Entry) → StandsFor self.now journal
            → IfOk result (λ found. option_map text_of found ≡ slice_get (texts_of journal tenant) ext.0) }
    {
        match self.exts.get(tenant, ext) {
            Some(ext) => Ok(Some(Arc::try_clone(ext)?)),
            None => Ok(None),
        }
    }

    /// A tenant's rights: none for an unknown tenant.
    pub fn rights(&self, tenant: TenantId) -> Result<Rights, Memory>
        ensures { (journal : List Entry) → StandsFor self.now journal
            → IfOk result (λ rights. rights ≡ granted self.now.grants journal tenant) }
    {
        self.grants.rights(self.alloc, tenant)
    }

    /// Reads one record, with its version.
    pub fn read(&self, tenant: TenantId, table: TableId, key: &Key) -> Read
        ensures answer { (journal : List Entry) → StandsFor self.now journal
            → (result ≡ Read.Memory) ⊎ (result ≡ read_answer self.now.grants journal tenant table key.now) }
        // A value that is found is within the limit of values.
        ensures fits { FoundFits result }
        // A refusal comes before want of memory.
        ensures memory { (journal : List Entry) → StandsFor self.now journal
            → result ≡ Read.Memory → ReadTakesMemory (read_answer self.now.grants journal tenant table key.now) }
    {
        if self.grants.level(tenant, table) == Level::Nothing {
            return Read::Denied;
        }
        match self.found(table, key) {
            Ok(item) => Read::Found(item),
            Err(Memory) => Read::Memory,
        }
    }

    fn found(&self, table: TableId, key: &Key) -> Result<ReadItem, Memory>
        ensures { IfOk result (λ item. item ≡ item_at self.now.journal table key.now) }
    {
        let (version, value) = match self.tables.look(table, key) {
            Some((version, value)) => (version, Some(value.share(self.alloc)?)),
            None => (0, None),
        };
        let key = key.share(self.alloc)?;
        Ok(ReadItem {
            table,
            key,
            version,
            read_at: self.journal.len(),
            value,
        })
    }

    fn is_full(&self, size: u64) -> bool
        requires { size ≤ 10000000 }
        ensures { result ≡ is_full_for self.now.limit self.now.journal size }
    {
        self.journal.limit() <= self.journal.len() || MOST_JOURNAL < self.journal.size() + size
    }

    /// Whether there is no room for the installation of an extension.
    fn is_full_of(&self, tenant: TenantId, ext: &Ext) -> bool
        ensures full { result ≡ is_full self.now.limit self.now.journal (Entry.Install tenant ext.now.text) }
        ensures sized { IsText ext.now.text }
    {
        self.is_full(install_size(sized_text(ext)))
    }

    /// The version of a place: 0 where it is absent.
    fn version(&self, table: TableId, key: &Key) -> u64
        ensures { result ≡ version_of self.now.journal (place_at table key.now) }
    {
        self.tables.version(table, key)
    }

    /// The index of the first read whose version has moved.
    fn first_moved(&self, reads: &[ReadItem]) -> Option<usize>
        ensures found { IfSome result (λ index. slice_get reads.now index ≡ moved self.now.journal reads.now) }
        ensures within { IfSome result (λ index. index < length reads.now) }
        ensures none { IfNone result (moved self.now.journal reads.now ≡ None) }
    {
        for (index, read) in reads.iter().enumerate() {
            if self.version(read.table, &read.key) != read.version {
                return Some(index);
            }
        }
        None
    }

    /// Appends an entry, an installation with its extension. All memory is taken before anything
    /// changes, and without memory nothing does.
    fn append(&mut self, entry: Entry, ext: Option<Arc<Ext>>) -> Result<(), Memory>
        requires sound { IsSound self.old.grants self.old.limit self.old.audit (grown self.old.journal entry) }
        requires fits { EntryFits entry }
        requires ext { HasExt entry ext }
        ensures ok { OnOk result (self.new ≡ record self.old { journal = grown self.old.journal entry }) }
        ensures stands { OnOk result (StandsFor self.new (grown self.old.journal entry)) }
        ensures err { OnErr result (self.new ≡ self.old) }
    {
        let changes = changes_of(self.alloc, &entry)?;
        self.tables.reserve(changes.len() as u32)?;
        self.journal.reserve()?;
        note(&mut self.exts, &mut self.lasts, &entry, ext)?;
        make_all(&mut self.tables, self.journal.len(), changes);
        self.journal.push_reserved(entry);
        Ok(())
    }

    /// Puts one record without an extension.
    pub fn put_native(&mut self, tenant: TenantId, table: TableId, key: Key, value: Blob) -> Put
        requires { IsValue value }
        ensures answer { (journal : List Entry) → StandsFor self.old journal
            → (result ≡ Put.Memory)
            ⊎ (result ≡ put_answer self.old.grants self.old.limit journal tenant table (Entry.Put tenant table key value)) }
        ensures stands { (journal : List Entry) → StandsFor self.old journal
            → StandsFor self.new (after_put result journal (Entry.Put tenant table key value)) }
        ensures fixed { KeepsFixed self.old self.new }
        // A refusal comes before want of memory.
        ensures memory { (journal : List Entry) → StandsFor self.old journal → result ≡ Put.Memory
            → PutTakesMemory (put_answer self.old.grants self.old.limit journal tenant table (Entry.Put tenant table key value)) }
    {
        if self.grants.level(tenant, table) != Level::Write {
            return Put::Denied;
        }
        let n = self.journal().len();
        let entry = Entry::Put {
            tenant,
            table,
            key,
            value,
        };
        let size = entry_size(&entry);
        if self.is_full(size) {
            return Put::Full { at: n };
        }
        match self.append(entry, None) {
            Ok(()) => Put::Done(n),
            Err(Memory) => Put::Memory,
        }
    }

    /// Installs an extension under the tenant's next number.
    pub fn install(&mut self, tenant: TenantId, ext: Ext) -> Install
        ensures answer { (journal : List Entry) → StandsFor self.old journal
            → (result ≡ Install.Memory)
            ⊎ (result ≡ install_answer self.old.limit journal tenant (Entry.Install tenant ext.text)) }
        ensures stands { (journal : List Entry) → StandsFor self.old journal
            → StandsFor self.new (after_install result journal (Entry.Install tenant ext.text)) }
        ensures fixed { KeepsFixed self.old self.new }
        // A refusal comes before want of memory.
        ensures memory { (journal : List Entry) → StandsFor self.old journal → result ≡ Install.Memory
            → InstallTakesMemory (install_answer self.old.limit journal tenant (Entry.Install tenant ext.text)) }
    {
        let n = self.journal().len();
        let number = ExtNo(self.count(tenant));
        if self.is_full_of(tenant, &ext) {
            return Install::Full { at: n };
        }
        match self.add_ext(tenant, ext) {
            Ok(()) => Install::Installed { n, ext: number },
            Err(Memory) => Install::Memory,
        }
    }

    /// Appends an installation, whose text is shared by the entry and the extension.
    fn add_ext(&mut self, tenant: TenantId, ext: Ext) -> Result<(), Memory>
        requires sound { IsSound self.old.grants self.old.limit self.old.audit (grown self.old.journal (Entry.Install tenant ext.text)) }
        requires sized { IsText ext.text }
        ensures ok { OnOk result (self.new ≡ record self.old { journal = grown self.old.journal (Entry.Install tenant ext.text) }) }
        ensures stands { OnOk result (StandsFor self.new (grown self.old.journal (Entry.Install tenant ext.text))) }
        ensures err { OnErr result (self.new ≡ self.old) }
    {
        let text = Blob::of(self.alloc, ext.text())?;
        let ext = Arc::new(self.alloc, ext)?;
        self.append(Entry::Install { tenant, text }, Some(ext))
    }

    /// Commits a finished run: its entry is then the journal's last. All memory is taken before the
    /// entry is there.
    pub fn commit(&mut self, done: Finished) -> Commit
        requires arguments { IsArguments done.call.args }
        requires ran { (journal : List Entry) → StandsFor self.old journal
            → RanOn self.old.grants journal done.call (arc_value done.program) done.rights done.reads }
        ensures answer { (journal : List Entry) → StandsFor self.old journal
            → (result ≡ Commit.Memory) ⊎ (result ≡ verdict self.old.limit journal done.call
            (entry_of done.call done.outcome done.writes done.reads) done.outcome done.reads) }
        ensures stands { (journal : List Entry) → StandsFor self.old journal
            → StandsFor self.new (after_commit result journal (entry_of done.call done.outcome done.writes done.reads)) }
        ensures fixed { KeepsFixed self.old self.new }
        // A refusal comes before want of memory.
        ensures memory { (journal : List Entry) → StandsFor self.old journal → result ≡ Commit.Memory
            → CommitTakesMemory (verdict self.old.limit journal done.call
            (entry_of done.call done.outcome done.writes done.reads) done.outcome done.reads) }
    {
        self.judge(Ended::here(done))
    }

    /// Commits a run that its client sent, as `commit` does one that ended in the server.
    pub fn commit_sent(&mut self, sent: Sent) -> Commit
        requires arguments { IsArguments sent.call.args }
        requires reply { ReplyFits sent.outcome }
        requires values { AllByRecursion ChangeFits sent.writes }
        requires ran { (journal : List Entry) → StandsFor self.old journal
            → SentOn self.old.grants self.old.audit journal sent.call sent.outcome sent.writes sent.reads }
        ensures answer { (journal : List Entry) → StandsFor self.old journal
            → (result ≡ Commit.Memory) ⊎ (result ≡ verdict self.old.limit journal sent.call
            (sent_entry sent.call sent.outcome sent.writes sent.reads) sent.outcome sent.reads) }
        ensures stands { (journal : List Entry) → StandsFor self.old journal
            → StandsFor self.new (after_commit result journal (sent_entry sent.call sent.outcome sent.writes sent.reads)) }
        ensures fixed { KeepsFixed self.old self.new }
        // A refusal comes before want of memory.
        ensures memory { (journal : List Entry) → StandsFor self.old journal → result ≡ Commit.Memory
            → CommitTakesMemory (verdict self.old.limit journal sent.call
            (sent_entry sent.call sent.outcome sent.writes sent.reads) sent.outcome sent.reads) }
    {
        self.judge(Ended::away(sent))
    }

    /// Commits a run that may join the journal, wherever it ended.
    fn judge(&mut self, ended: Ended) -> Commit
        requires joins { (journal : List Entry) → StandsFor self.old journal
            → MayJoin self.old.grants self.old.audit journal (entry_in ended) ended.reads }
        ensures answer { (result ≡ Commit.Memory)
            ⊎ (result ≡ verdict self.old.limit self.old.journal ended.call (entry_in ended) ended.outcome ended.reads) }
        ensures book { self.new ≡ record self.old { journal = after_commit result self.old.journal (entry_in ended) } }
        ensures stands { StandsFor self.new (after_commit result self.old.journal (entry_in ended)) }
        ensures memory { result ≡ Commit.Memory
            → CommitTakesMemory (verdict self.old.limit self.old.journal ended.call (entry_in ended) ended.outcome ended.reads) }
    {
        let last = self.lasts.get(ended.call.caller);
        if ended.call.number.0 <= last {
            return Commit::Stale {
                last,
                at: self.journal.len(),
            };
        }
        if let Some(index) = self.first_moved(ended.reads.items()) {
            let Ended { reads, .. } = ended;
            return self.conflict(nth_read(reads.into_reads(), index));
        }
        self.settle(ended)
    }

    fn conflict(&self, moved: ReadItem) -> Commit
        ensures { result ≡ Commit.Conflict moved.table moved.key moved.version moved.read_at
            (version_of self.now.journal (place_of moved)) (length self.now.journal) }
    {
        let now = self.version(moved.table, &moved.key);
        Commit::Conflict {
            table: moved.table,
            read: moved.version,
            read_at: moved.read_at,
            key: moved.key,
            now,
            now_at: self.journal.len(),
        }
    }

    /// Commits a run whose reads have not moved, where there is room for its entry.
    fn settle(&mut self, ended: Ended) -> Commit
        requires joins { MayJoin self.old.grants self.old.audit self.old.journal (entry_in ended) ended.reads }
        requires in_order { last_of self.old.journal ended.call.caller < ended.call.number.0 }
        requires still { moved self.old.journal ended.reads ≡ None }
        ensures answer { (result ≡ Commit.Memory)
            ⊎ (result ≡ verdict_on self.old.limit self.old.journal (entry_in ended) ended.outcome None) }
        ensures book { self.new ≡ record self.old { journal = after_commit result self.old.journal (entry_in ended) } }
        ensures stands { StandsFor self.new (after_commit result self.old.journal (entry_in ended)) }
        ensures memory { result ≡ Commit.Memory
            → CommitTakesMemory (verdict_on self.old.limit self.old.journal (entry_in ended) ended.outcome None) }
    {
        let n = self.journal().len();
        let shown = ended.outcome.share(self.alloc);
        let entry = ended.into_entry();
        let size = entry_size(&entry);
        if self.is_full(size) {
            return Commit::Full { at: n };
        }
        let Ok(outcome) = shown else {
            return Commit::Memory;
        };
        match self.append(entry, None) {
            Ok(()) => Commit::Committed { n, outcome },
            Err(Memory) => Commit::Memory,
        }
    }
}
