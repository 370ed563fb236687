//! The answer to each kind of request.

ghost use Rattle.std.specs.Prelude.{◌≡◌, ◌≤◌, ◌⊎◌, max, ℕ, List, IfErr, IfOk, OnOk, length};
ghost use Rattle.sp_base.specs.declared.numbers.TenantId.{TenantId};
ghost use Rattle.sp_base.specs.declared.outcomes.Outcome.{Outcome};
ghost use Rattle.sp_base.specs.declared.writes.Write.{Write};
ghost use Rattle.sp_base.specs.Limits.{IsValue};
ghost use Rattle.sp_base.specs.Spelling.{FitCalls};
ghost use Rattle.journal.specs.declared.entry.Entry.{Entry};
ghost use Rattle.book.specs.Standing.{KeepsFixed, StandsFor};
ghost use Rattle.wire.specs.declared.requests.Request.TheVariants as request;
ghost use Rattle.wire.specs.Requests.{FitsRequest};
ghost use Rattle.session.specs.Seeing.{AllCounted, install_seen, put_seen};
ghost use Rattle.session.specs.States.{seen_in_items, seen_in_text};
ghost use Rattle.session.specs.Steps.{IsTextAnswer, faulted};
ghost use Rattle.session.specs.Standing.{Asks, Fits, IsOpen, IsPlain, IsWithin, Planned, Refused, tenant_of};

use crate::batch::{Started, start_all};
use crate::fault::Fault;
use crate::plan::{Ask, Plan};
use crate::session::{Admitted, Phase, Session};
use crate::told::{install_told, put_told, seen_in_items};
use book::{Book, Install, Put};
use sp_base::{Blob, ExtNo, Key, Memory, TableId, TenantId};
use task::{Ext, ExtFault};
use wire::{Answer, Calls, FetchAnswer, InstallAnswer, Item, Items, Request, TextAnswer};

impl Session {
    /// The tenant, once it was admitted.
    fn tenant(&self) -> Option<TenantId>
        ensures { result ≡ tenant_of self.now.admitted }
    {
        match &self.admitted {
            Some(admitted) => Some(admitted.tenant),
            None => None,
        }
    }

    /// The part of the journal up to this moment was shown.
    pub(crate) fn show(&mut self, moment: u64)
        ensures { self.new ≡ record self.old { seen = max self.old.seen moment } }
    {
        self.seen = self.seen.max(moment);
    }

    /// The journal has this length, and a put may have shown it.
    fn show_put(&mut self, put: &Put, length: u64)
        ensures { self.new ≡ record self.old { seen = put_seen self.old.seen length put.now } }
    {
        match put {
            Put::Done(_) | Put::Full { .. } => self.show(length),
            Put::Denied | Put::Memory => {}
        }
    }

    /// The journal has this length, and an installation may have shown it.
    fn show_install(&mut self, install: &Install, length: u64)
        ensures { self.new ≡ record self.old { seen = install_seen self.old.seen length install.now } }
    {
        match install {
            Install::Installed { .. } | Install::Full { .. } => self.show(length),
            Install::Memory => {}
        }
    }

    /// Ends with a Fault in the place of a plan.
    fn stop(&mut self, fault: Fault) -> Plan
        ensures told { result ≡ Plan.Stop (Some (faulted fault)) }
        ensures ended { self.new ≡ record self.old { phase = Phase.Ended } }
    {
        Plan::Stop(Some(self.end(fault)))
    }

    /// Makes the extension of an Install.
    pub(crate) fn make(&mut self, text: &[u8]) -> Result<Ask, Answer>
        requires open { IsOpen self.old }
        ensures refused { IfErr result (Refused self.old self.new (request.Install text.now)) }
        ensures asked { IfOk result (Asks self.old self.new (request.Install text.now)) }
    {
        if self.admitted.is_none() {
            return Err(self.end(Fault::OutOfTurn));
        }
        match Ext::make(self.alloc, text) {
            Ok(ext) => Ok(Ask::Install(ext)),
            Err(ExtFault::Rejected { line, code }) => {
                Err(Answer::Installed(InstallAnswer::Rejected {
                    line,
                    code: code.number(),
                }))
            }
            Err(ExtFault::Memory) => Err(Answer::Installed(InstallAnswer::Memory)),
        }
    }

    /// Installs an extension.
    pub(crate) fn install(&mut self, book: &mut Book, ext: Ext) -> Plan
        requires open { IsOpen self.old }
        requires fits { (journal : List Entry) → StandsFor book.old journal → Fits self.old journal book.old.grants }
        requires admitted { (tenant : TenantId) × (tenant_of self.old.admitted ≡ Some tenant) }
        ensures planned { (journal : List Entry) → StandsFor book.old journal
            → Planned self.old self.new book.old book.new journal (request.Install ext.text) result }
        ensures fixed { KeepsFixed book.old book.new }
    {
        let Some(tenant) = self.tenant() else {
            unreachable!()
        };
        let _accepted = ext.program();
        let installed = book.install(tenant, ext);
        self.show_install(&installed, book.len());
        Plan::Send(Answer::Installed(install_told(installed)))
    }

    /// Answers a request that is neither an Install nor a Finish.
    pub(crate) fn plain(&mut self, book: &mut Book, request: Request) -> Plan
        requires open { IsOpen self.old }
        requires fits { (journal : List Entry) → StandsFor book.old journal → Fits self.old journal book.old.grants }
        requires plain { IsPlain request }
        requires within { FitsRequest request }
        ensures planned { (journal : List Entry) → StandsFor book.old journal
            → Planned self.old self.new book.old book.new journal (request) result }
        ensures fixed { KeepsFixed book.old book.new }
    {
        let Some(tenant) = self.tenant() else {
            return self.first(book, request);
        };
        match request {
            Request::Hello { .. } => self.stop(Fault::OutOfTurn),
            Request::Batch { calls } => self.begin(book, tenant, calls),
            Request::Fetch {
                caller,
                number,
                table,
                key,
            } => self.fetch(book, tenant, caller, number, table, key),
            Request::Put { table, key, value } => self.put(book, tenant, table, key, value),
            Request::TextOf { ext } => self.text_of(book, tenant, ext),
            Request::Bye => {
                self.phase = Phase::Ended;
                Plan::Stop(None)
            }
            Request::Install { .. } | Request::Finish { .. } => unreachable!(),
        }
    }

    /// Answers the first request, which has to be Hello.
    fn first(&mut self, book: &Book, request: Request) -> Plan
        requires open { IsOpen self.old }
        requires fits { (journal : List Entry) → StandsFor book.now journal → Fits self.old journal book.now.grants }
        requires first { tenant_of self.old.admitted ≡ None }
        ensures { (journal : List Entry) → StandsFor book.now journal
            → Planned self.old self.new book.now book.now journal request result }
    {
        match request {
            Request::Hello { tenant, key } => self.hello(book, tenant, key),
            _ => self.stop(Fault::OutOfTurn),
        }
    }

    /// Admits a tenant that is configured with this key.
    fn hello(&mut self, book: &Book, tenant: TenantId, key: u64) -> Plan
        requires open { IsOpen self.old }
        requires fits { (journal : List Entry) → StandsFor book.now journal → Fits self.old journal book.now.grants }
        requires first { tenant_of self.old.admitted ≡ None }
        ensures { (journal : List Entry) → StandsFor book.now journal
            → Planned self.old self.new book.now book.now journal (request.Hello tenant key) result }
    {
        if !self.conf.knows(tenant, key) {
            return self.stop(Fault::WrongKey);
        }
        let Ok(own) = book.rights(tenant) else {
            return self.stop(Fault::Memory);
        };
        let Ok(rights) = book.rights(tenant) else {
            return self.stop(Fault::Memory);
        };
        let at = book.len();
        self.admitted = Some(Admitted {
            tenant,
            rights: own,
        });
        self.show(at);
        Plan::Send(Answer::Welcome { rights, at })
    }

    /// Puts a record.
    fn put(
        &mut self,
        book: &mut Book,
        tenant: TenantId,
        table: TableId,
        key: Key,
        value: Blob,
    ) -> Plan
        requires open { IsOpen self.old }
        requires fits { (journal : List Entry) → StandsFor book.old journal → Fits self.old journal book.old.grants }
        requires admitted { tenant_of self.old.admitted ≡ Some tenant }
        requires value { IsValue value }
        ensures planned { (journal : List Entry) → StandsFor book.old journal
            → Planned self.old self.new book.old book.new journal (request.Put table key value) result }
        ensures fixed { KeepsFixed book.old book.new }
    {
        let put = book.put_native(tenant, table, key, value);
        self.show_put(&put, book.len());
        Plan::Send(Answer::PutDone(put_told(put)))
    }

    /// The text of an extension, or how many there are.
    fn text(&self, book: &Book, tenant: TenantId, ext: ExtNo) -> TextAnswer
        ensures told { (journal : List Entry) → StandsFor book.now journal → (seen : ℕ) → seen ≤ length journal
            → IsTextAnswer tenant journal seen ext.0 result }
        ensures within { IsWithin (Answer.Text result) }
    {
        match book.ext(tenant, ext) {
            Ok(Some(ext)) => self.share_text(&ext),
            Ok(None) => TextAnswer::NoExtension {
                count: book.ext_count(tenant),
                at: book.len(),
            },
            Err(Memory) => TextAnswer::Memory,
        }
    }

    fn share_text(&self, ext: &Ext) -> TextAnswer
        ensures told { (result ≡ TextAnswer.Memory) ⊎ (result ≡ TextAnswer.Text ext.now.text) }
        ensures within { IsWithin (Answer.Text result) }
    {
        let _accepted = ext.program();
        match Blob::of(self.alloc, ext.text()) {
            Ok(text) => TextAnswer::Text(text),
            Err(Memory) => TextAnswer::Memory,
        }
    }

    /// The part of the journal that a text's answer shows was shown.
    fn show_text(&mut self, told: &TextAnswer)
        ensures { self.new ≡ record self.old { seen = seen_in_text self.old.seen told.now } }
    {
        if let TextAnswer::NoExtension { at, .. } = told {
            self.show(*at);
        }
    }

    /// Tells the text of an extension.
    fn text_of(&mut self, book: &Book, tenant: TenantId, ext: ExtNo) -> Plan
        requires open { IsOpen self.old }
        requires fits { (journal : List Entry) → StandsFor book.now journal → Fits self.old journal book.now.grants }
        requires admitted { tenant_of self.old.admitted ≡ Some tenant }
        ensures { (journal : List Entry) → StandsFor book.now journal
            → Planned self.old self.new book.now book.now journal (request.TextOf ext) result }
    {
        let told = self.text(book, tenant, ext);
        self.show_text(&told);
        Plan::Send(Answer::Text(told))
    }

    /// Begins the calls of a batch.
    fn begin(&mut self, book: &Book, tenant: TenantId, calls: Calls) -> Plan
        requires open { IsOpen self.old }
        requires fits { (journal : List Entry) → StandsFor book.now journal → Fits self.old journal book.now.grants }
        requires admitted { tenant_of self.old.admitted ≡ Some tenant }
        requires calls { FitCalls calls }
        ensures { (journal : List Entry) → StandsFor book.now journal
            → Planned self.old self.new book.now book.now journal (request.Batch calls) result }
    {
        match start_all(self, book, tenant, calls) {
            Ok(Started { items, begun }) => {
                if begun.as_slice().is_empty() {
                    return Plan::Send(self.tell_items(items));
                }
                self.phase = Phase::Running(items);
                Plan::Run(begun)
            }
            Err(Memory) => self.stop(Fault::Memory),
        }
    }

    /// Tells the items of a batch, and notes what they show.
    pub(crate) fn tell_items(&mut self, items: Vec<Item>) -> Answer
        ensures told { result ≡ Answer.Answers items.items }
        ensures kept { self.new ≡ record self.old { seen = self.new.seen } }
        ensures shown { AllCounted items.items → self.new.seen ≡ seen_in_items self.old.seen items.items }
    {
        self.seen = seen_in_items(self.seen, items.as_slice());
        Answer::Answers {
            items: Items::from_vec(items),
        }
    }
}
