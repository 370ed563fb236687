//! A session over a book, which is told bytes and goes on.

ghost use Rattle.std.specs.Prelude.{◌≡◌, IfOk, false};
ghost use Rattle.std.specs.Bool.{OnFalse};
ghost use Rattle.drive.specs.Hearing.{MayBeDriven};

use crate::dialogue::Judged;
use book::{Book, Install};
use drive::{Driven, drive};
use framing::Framer;
use records::Grants;
use session::{Session, SessionConf};
use sp_base::{Level, Policy, Rights, TableId, TenantId};
use std::alloc::Global;
use task::Ext;

const TENANT: TenantId = TenantId(1);

/// Reads two records of table 6.
const TEXT: &str =
    "fn main() -> int { get(6, \"a\") { some s => { } none => { } } get(6, \"b\") { some s => { } none => { } } return 0; }\n";

/// A session of tenant 1 with key 7, its stream and the book.
#[derive(Drop)]
pub struct Bench {
    session: Session,
    framer: Framer,
    pub book: Book,
}

/// A book of the tenant, which may write table 6, and has installed the text.
fn installed(alloc: Global) -> Result<Book, Judged>
    ensures { IfOk result (λ book. book.audit ≡ false) }
{
    let rights = vec![in alloc; (TableId(6), Level::Write)]?;
    let grants = vec![in alloc; (TENANT, Rights::of(rights))]?;
    let mut book = Book::new(alloc, Grants::of(grants), 100, false);
    let ext = Ext::make(alloc, TEXT.as_bytes()).map_err(|_| Judged::Short)?;
    match book.install(TENANT, ext) {
        Install::Installed { .. } => Ok(book),
        Install::Memory => Err(Judged::Short),
        _ => Err(Judged::Wrong),
    }
}

/// A session that has heard nothing. Each call that has spent a unit is handed back.
fn opened(alloc: Global, book: &Book) -> Result<Session, Judged>
    requires { book.now.audit ≡ false }
    ensures { IfOk result (λ session. MayBeDriven session book.now) }
{
    let conf = SessionConf {
        tenants: vec![in alloc; (TENANT, 7)]?,
        policy: Policy { high: 1, least: 1 },
        audit: false,
    };
    Ok(Session::new(alloc, conf))
}

impl Bench {
    /// Such a session over a book of one entry.
    pub fn open(alloc: Global) -> Result<Bench, Judged>
        ensures { IfOk result (λ bench. MayBeDriven bench.session bench.book) }
    {
        let book = installed(alloc)?;
        Ok(Bench {
            session: opened(alloc, &book)?,
            framer: Framer::new(alloc),
            book,
        })
    }

    /// What is said to a piece of bytes.
    pub fn hears(&mut self, alloc: Global, piece: &[u8]) -> Result<Driven, Judged>
        requires { MayBeDriven self.old.session self.old.book }
        ensures { IfOk result (λ driven. OnFalse driven.stopped (MayBeDriven self.new.session self.new.book)) }
    {
        let Bench {
            session,
            framer,
            book,
        } = self;
        Ok(drive(alloc, session, framer, book, 1000, piece)?)
    }
}
