//! A script as far as its lines were read: what is wrong with the next line, and what it adds.

ghost use Rattle.std.specs.Prelude.{◌≡◌, ◌≤◌, true, None, IfOk, OnOk, take};
ghost use Rattle.std.specs.List.{concat};
ghost use Rattle.sched_text.specs.declared.event.Event.TheVariants.{Ext};
ghost use Rattle.sched_text.specs.Drafts.{workers_of, has_workers, is_late, is_repeated, tenant_of, tenant_named, lacks_tenant, lacks_worker, lacks_text, is_too_many, code_of, with_event, with_line, lines_taken, no_lines, script_of};
ghost use Rattle.sched_text.specs.Fits.{LineFits, DraftFits};
ghost use Rattle.sched_text.specs.Judged.{after_line};
ghost use Rattle.sched_text.specs.Results.{Gives};
ghost use Rattle.sched_text.specs.Texts.{lines_of, has_lines};

use crate::code::LineCode;
use crate::event::Event;
use crate::line::{Kind, LineFault, ScriptLine};
use crate::lines::line_of;
use crate::rows::Rows;
use crate::script::{Head, Script};
use crate::tenants::{grant, has_table, has_tenant, insert, rights_of};
use crate::texts::{end_of_lines, is_skipped};
use sp_base::{Blob, MOST_ENTRIES, MOST_RIGHTS, MOST_TENANTS, Memory, Policy, Rights, TenantId};
use std::alloc::Global;

/// A script as far as its lines were read.
#[derive(Debug, Drop)]
pub struct Draft {
    pub tenants: Rows<(TenantId, u64)>,
    pub rights: Rows<(TenantId, Rights)>,
    pub policy: Option<Policy>,
    pub limit: Option<u64>,
    pub workers: Option<u32>,
    pub events: Rows<(u32, Event)>,
}

/// The tenant of an event.
fn tenant_of(event: &Event) -> Option<TenantId>
    ensures { result ≡ tenant_of event.now }
{
    match event {
        Event::Put { tenant, .. }
        | Event::Ext { tenant, .. }
        | Event::Begin { tenant, .. }
        | Event::Away { tenant, .. }
        | Event::Cut { tenant, .. } => Some(*tenant),
        Event::Turn { .. } | Event::Steal { .. } => None,
    }
}

/// The tenant that has to be declared before the line.
fn tenant_named(line: &ScriptLine) -> Option<TenantId>
    ensures { result ≡ tenant_named line.now }
{
    match line {
        ScriptLine::Table { tenant, .. } | ScriptLine::Ext { tenant, .. } => Some(*tenant),
        ScriptLine::Body(event) => tenant_of(event),
        _ => None,
    }
}

/// Whether each worker of an event is below the count.
fn has_workers(count: u32, event: &Event) -> bool
    ensures { result ≡ has_workers count event.now }
{
    match event {
        Event::Begin { worker, .. } | Event::Turn { worker, .. } => *worker < count,
        Event::Steal { worker, from } => *worker < count && *from < count,
        _ => true,
    }
}

/// Whether the text of a line ends before its lines are all there.
fn lacks_text(behind: &[u8], line: &ScriptLine) -> bool
    ensures { result ≡ lacks_text (lines_of behind.now) line.now }
{
    match line {
        ScriptLine::Ext { lines, .. } => end_of_lines(behind, *lines).is_none(),
        _ => false,
    }
}

/// How many of the lines behind it a line takes.
fn lines_taken(line: &ScriptLine) -> u32
    ensures { result ≡ lines_taken line.now }
{
    match line {
        ScriptLine::Ext { lines, .. } => *lines,
        _ => 0,
    }
}

impl Draft {
    /// Before the first line.
    #[tactic(auto, unfolding(crate::specs::Drafts::no_lines))]
    pub fn new(alloc: Global) -> Draft
        ensures { result ≡ no_lines }
    {
        Draft {
            tenants: Rows::new(alloc),
            rights: Rows::new(alloc),
            policy: None,
            limit: None,
            workers: None,
            events: Rows::new(alloc),
        }
    }

    /// How many workers there are: one where no line says so.
    fn workers(&self) -> u32
        ensures { result ≡ workers_of self.now }
    {
        self.workers.unwrap_or(1)
    }

    /// Whether a head line stands behind a body line.
    fn is_late(&self, line: &ScriptLine) -> bool
        ensures { result ≡ is_late self.now line.now }
    {
        match line {
            ScriptLine::Ext { .. } | ScriptLine::Body(_) => false,
            _ => self.events.len() > 0,
        }
    }

    /// Whether what the line declares is declared.
    fn is_repeated(&self, line: &ScriptLine) -> bool
        ensures { result ≡ is_repeated self.now line.now }
    {
        match line {
            ScriptLine::Tenant { tenant, .. } => has_tenant(self.rights.as_slice(), *tenant),
            ScriptLine::Table { table, tenant, .. } => {
                has_table(rights_of(self.rights.as_slice(), *tenant), *table)
            }
            ScriptLine::Policy(_) => self.policy.is_some(),
            ScriptLine::Limit(_) => self.limit.is_some(),
            ScriptLine::Workers(_) => self.workers.is_some(),
            _ => false,
        }
    }

    /// Whether the tenant that the line names is not declared.
    fn lacks_tenant(&self, line: &ScriptLine) -> bool
        ensures { result ≡ lacks_tenant self.now line.now }
    {
        match tenant_named(line) {
            Some(tenant) => !has_tenant(self.rights.as_slice(), tenant),
            None => false,
        }
    }

    /// Whether a worker that the line names is not below the count.
    fn lacks_worker(&self, line: &ScriptLine) -> bool
        ensures { result ≡ lacks_worker self.now line.now }
    {
        match line {
            ScriptLine::Body(event) => !has_workers(self.workers(), event),
            _ => false,
        }
    }

    /// Whether there are all tenants, or all tables of the tenant, that there may be.
    fn is_too_many(&self, line: &ScriptLine) -> bool
        ensures { result ≡ is_too_many self.now line.now }
    {
        match line {
            ScriptLine::Tenant { .. } => self.rights.len() >= MOST_TENANTS,
            ScriptLine::Table { tenant, .. } => {
                rights_of(self.rights.as_slice(), *tenant).len() >= MOST_RIGHTS
            }
            _ => false,
        }
    }

    /// What is wrong with a line behind those of the draft, with these lines behind it.
    #[tactic(auto, unfolding(crate::specs::Drafts::code_of))]
    fn code_of(&self, behind: &[u8], line: &ScriptLine) -> Option<LineCode>
        ensures { result ≡ code_of self.now (lines_of behind.now) line.now }
    {
        if self.is_late(line) {
            Some(LineCode::Order)
        } else if self.is_repeated(line) {
            Some(LineCode::Twice)
        } else if self.lacks_tenant(line) {
            Some(LineCode::NoTenant)
        } else if self.lacks_worker(line) {
            Some(LineCode::NoWorker)
        } else if lacks_text(behind, line) {
            Some(LineCode::Text)
        } else if self.is_too_many(line) {
            Some(LineCode::Many)
        } else {
            None
        }
    }

    /// Puts the text of an extension behind the events.
    fn push_text(
        &mut self,
        alloc: Global,
        number: u32,
        tenant: TenantId,
        behind: &[u8],
        lines: u32,
    ) -> Result<(), Memory>
        requires { has_lines lines (lines_of behind.now) ≡ true }
        ensures { OnOk result (self.new ≡ with_event number (Ext tenant (concat (take lines (lines_of behind.now)))) self.old) }
    {
        let Some(end) = end_of_lines(behind, lines) else {
            unreachable!();
        };
        let text = Blob::of(alloc, &behind[..end])?;
        self.events.push((number, Event::Ext { tenant, text }))
    }

    /// Adds what a line says.
    #[tactic(auto, unfolding(crate::specs::Drafts::with_line))]
    fn add(
        &mut self,
        alloc: Global,
        number: u32,
        behind: &[u8],
        line: ScriptLine,
    ) -> Result<(), Memory>
        requires good { code_of self.old (lines_of behind.now) line ≡ None }
        requires fits { LineFits line }
        ensures { OnOk result (self.new ≡ with_line number (lines_of behind.now) line self.old) }
    {
        match line {
            ScriptLine::Tenant { tenant, key } => {
                insert(&mut self.tenants, tenant, key)?;
                insert(&mut self.rights, tenant, Rights::of(Vec::new(alloc)))
            }
            ScriptLine::Table {
                table,
                tenant,
                level,
            } => grant(alloc, &mut self.rights, tenant, table, level),
            ScriptLine::Policy(policy) => {
                self.policy = Some(policy);
                Ok(())
            }
            ScriptLine::Limit(limit) => {
                self.limit = Some(limit);
                Ok(())
            }
            ScriptLine::Workers(workers) => {
                self.workers = Some(workers);
                Ok(())
            }
            ScriptLine::Ext { tenant, lines } => {
                self.push_text(alloc, number, tenant, behind, lines)
            }
            ScriptLine::Body(event) => self.events.push((number, event)),
        }
    }

    /// Reads a line, and tells how many of those behind it belong to it.
    #[tactic(auto, unfolding(crate::specs::Judged::after_line, crate::specs::Judged::after_saying))]
    pub fn read_line(
        &mut self,
        alloc: Global,
        kind: Kind,
        number: u32,
        line: &[u8],
        behind: &[u8],
    ) -> Result<u32, LineFault>
        ensures answer { Gives (λ taken. (self.new, taken)) result (after_line kind number line.now (lines_of behind.now) self.old) }
        ensures there { IfOk result (λ taken. has_lines taken (lines_of behind.now) ≡ true) }
        ensures few { IfOk result (λ taken. taken ≤ 16384) }
        ensures fits { DraftFits self.old → OnOk result (DraftFits self.new) }
    {
        if is_skipped(line) {
            return Ok(0);
        }
        let says = line_of(alloc, kind, line)?;
        if let Some(code) = self.code_of(behind, &says) {
            return Err(LineFault::Code(code));
        }
        let taken = lines_taken(&says);
        self.add(alloc, number, behind, says)?;
        Ok(taken)
    }

    /// The script of these lines.
    #[tactic(auto, unfolding(crate::specs::Drafts::script_of))]
    pub fn into_script(self) -> Script
        ensures { result ≡ script_of self }
    {
        let workers = self.workers();
        let Draft {
            tenants,
            rights,
            policy,
            limit,
            workers: _,
            events,
        } = self;
        let head = Head {
            tenants,
            rights,
            policy: policy.unwrap_or(Policy {
                high: 64,
                least: 1000,
            }),
            limit: limit.unwrap_or(MOST_ENTRIES),
            workers,
        };
        Script { head, events }
    }
}
