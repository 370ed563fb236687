//! The events of a script but for turns.

ghost use Rattle.std.specs.Prelude.{◌≡◌, ◌≢◌, ◌<◌, IfOk, OnOk};
ghost use Rattle.sp_base.specs.Limits.{IsValue};
ghost use Rattle.task.specs.Laws.{MayBegin};
ghost use Rattle.sched_text.specs.declared.event.Event.TheVariants as event;
ghost use Rattle.sim.specs.Play.{begin_event, call_of, install_said, put_event, put_said, steal_event};
ghost use Rattle.sim.specs.Standing.{FaultTold, Played, Stands, Tells, workers_of};

use crate::sim::Sim;
use crate::turns::line_of;
use book::{Install, Put};
use report::{Line, Said};
use sp_base::{Asked, Blob, Call, CallNo, Caller, Key, Memory, TableId, TenantId};
use task::{Ext, ExtFault, Task};

impl Sim {
    /// A record is put.
    pub(crate) fn put(
        &mut self,
        tenant: TenantId,
        table: TableId,
        key: Key,
        value: Blob,
    ) -> Result<Line, Memory>
        requires { IsValue value }
        ensures told { IfOk result (Tells self.old self.new (λ state. put_event state tenant table key value)) }
        ensures workers { OnOk result (workers_of self.new ≡ workers_of self.old) }
    {
        put_line(self.book.put_native(tenant, table, key, value))
    }

    /// An extension is installed, where its text is accepted.
    pub(crate) fn install(&mut self, tenant: TenantId, text: Blob) -> Result<Line, Memory>
        ensures played { IfOk result (Played self.old self.new (event.Ext tenant text)) }
        ensures workers { OnOk result (workers_of self.new ≡ workers_of self.old) }
    {
        match Ext::make(self.alloc, text.bytes()) {
            Ok(ext) => install_line(self.book.install(tenant, ext)),
            Err(fault) => fault_line(fault),
        }
    }

    /// A call joins the queue of a worker, unless its caller has a live call or its tenant no such
    /// extension.
    pub(crate) fn begin(&mut self, worker: u32, call: Call) -> Result<Line, Memory>
        requires worker { worker < workers_of self.old }
        requires may { MayBegin call }
        ensures told { IfOk result (Tells self.old self.new (λ state. begin_event state worker call)) }
        ensures workers { OnOk result (workers_of self.new ≡ workers_of self.old) }
    {
        if let Some(number) = self.callers.number(call.caller) {
            let number = CallNo(number);
            return Ok(line_of(&call, Said::Busy { number }));
        }
        let tenant = call.caller.tenant;
        let Some(ext) = self.book.ext(tenant, call.ext)? else {
            let count = self.book.ext_count(tenant);
            return Ok(line_of(&call, Said::NoExtension { count }));
        };
        let _accepted = ext.program();
        let rights = self.book.rights(tenant)?;
        let line = line_of(&call, Said::Queued);
        self.callers.add(call.caller, call.number.0)?;
        match Task::begin(self.alloc, call, ext, rights) {
            Ok(task) => self.queues.put(worker, task)?,
            Err(_) => return Err(Memory),
        }
        Ok(line)
    }

    /// The first call of one worker moves to the back of another's queue.
    pub(crate) fn steal(&mut self, worker: u32, from: u32) -> Result<Line, Memory>
        requires stands { Stands self.old }
        requires worker { worker < workers_of self.old }
        requires victim { «from» < workers_of self.old }
        ensures told { IfOk result (Tells self.old self.new (λ state. steal_event state worker «from»)) }
        ensures workers { OnOk result (workers_of self.new ≡ workers_of self.old) }
    {
        let Some(task) = self.queues.take(from) else {
            return Ok(Line::Idle);
        };
        let line = line_of(task.call(), Said::Moved);
        self.queues.put(worker, task)?;
        Ok(line)
    }
}

/// A call that a tenant asks for.
pub(crate) fn call_of(tenant: TenantId, asked: Asked) -> Call
    ensures { result ≡ call_of tenant asked }
{
    let Asked {
        caller,
        number,
        ext,
        budget,
        push_ok,
        args,
    } = asked;
    Call {
        caller: Caller {
            tenant,
            number: caller,
        },
        number,
        ext,
        budget,
        push_ok,
        args,
    }
}

/// How a put is told.
fn put_line(put: Put) -> Result<Line, Memory>
    ensures said { IfOk result (λ line. line ≡ put_said put) }
    ensures memory { IfOk result (λ _. put ≢ Put.Memory) }
{
    match put {
        Put::Done(n) => Ok(Line::Put { n }),
        Put::Denied => Ok(Line::Denied),
        Put::Full { .. } => Ok(Line::Full),
        Put::Memory => Err(Memory),
    }
}

/// How an installation is told.
fn install_line(install: Install) -> Result<Line, Memory>
    ensures said { IfOk result (λ line. line ≡ install_said install) }
    ensures memory { IfOk result (λ _. install ≢ Install.Memory) }
{
    match install {
        Install::Installed { n, ext } => Ok(Line::Installed { n, ext }),
        Install::Full { .. } => Ok(Line::Full),
        Install::Memory => Err(Memory),
    }
}

/// How a refused text is told.
fn fault_line(fault: ExtFault) -> Result<Line, Memory>
    ensures { IfOk result (FaultTold fault) }
{
    match fault {
        ExtFault::Rejected { line, code } => Ok(Line::Rejected { line, code }),
        ExtFault::Memory => Err(Memory),
    }
}
