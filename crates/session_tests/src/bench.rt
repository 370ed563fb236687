//! One session over a book, to which pieces of bytes are fed.

ghost use Rattle.std.specs.Prelude.{◌≤◌, ◌≡◌, IfOk, false};
ghost use Rattle.std.specs.Bool.{OnFalse};
ghost use Rattle.session.specs.declared.session.Session.{Session};
ghost use Rattle.drive.specs.Hearing.{MayBeDriven};

use crate::words::{bytes_of, parts};
use book::Book;
use drive::{Driven, drive};
use framing::Framer;
use session::{Session, SessionConf};
use sp_base::{Policy, TenantId};
use std::alloc::Global;
use std::process::Abort;
use std::test::Fail;

/// A session, its stream and the book that it shares.
#[derive(Drop)]
pub struct Bench {
    pub session: Session,
    pub framer: Framer,
    pub book: Book,
}

/// A session that has heard nothing, of one of the tenants 1, with key 7, and 2, with key 8.
pub fn opened(alloc: Global, book: &Book) -> Result<Session, Fail>
    requires { book.now.audit ≡ false }
    ensures { IfOk result (λ session. MayBeDriven session book.now) }
{
    let conf = SessionConf {
        tenants: vec![in alloc; (TenantId(1), 7), (TenantId(2), 8)]?,
        policy: Policy {
            high: 64,
            least: 1000,
        },
        audit: false,
    };
    Ok(Session::new(alloc, conf))
}

impl Bench {
    /// Such a session over a book.
    pub fn over(alloc: Global, book: Book) -> Result<Bench, Fail>
        requires { book.audit ≡ false }
        ensures ready { IfOk result (λ bench. MayBeDriven bench.session bench.book) }
        ensures book { IfOk result (λ bench. bench.book ≡ book) }
    {
        Ok(Bench {
            session: opened(alloc, &book)?,
            framer: Framer::new(alloc),
            book,
        })
    }

    /// Feeds a piece to the session.
    pub fn hears(&mut self, alloc: Global, piece: &[u8]) -> Result<Driven, Fail>
        requires { MayBeDriven self.old.session self.old.book }
        ensures ready { IfOk result (λ driven. OnFalse driven.stopped (MayBeDriven self.new.session self.new.book)) }
        ensures others { (other : Session) → MayBeDriven other self.old.book → MayBeDriven other self.new.book }
        ensures audit { self.new.book.audit ≡ self.old.book.audit }
    {
        let Bench {
            session,
            framer,
            book,
        } = self;
        Ok(drive(alloc, session, framer, book, 1000, piece)?)
    }
}

/// That these bytes were said, and whether the session has then ended.
fn was_said(rt: &impl Abort, exchange: &str, driven: &Driven, said: &[u8], ends: bool) {
    assert_eq!(rt; driven.said.bytes(), said, "{exchange}");
    assert_eq!(rt; driven.stopped, ends, "{exchange}");
}

/// Feeds what is heard in an exchange, written as words, and compares what is said. Behind ` end` the session has ended.
/// It tells whether it has.
pub fn exchange(rt: &impl Abort, alloc: Global, bench: &mut Bench, line: &str) -> Result<bool, Fail>
    requires { MayBeDriven bench.old.session bench.old.book }
    ensures ready { IfOk result (λ ended. OnFalse ended (MayBeDriven bench.new.session bench.new.book)) }
    ensures others { (other : Session) → MayBeDriven other bench.old.book → MayBeDriven other bench.new.book }
{
    let (heard, said) = parts(line)?;
    let ending = said.strip_suffix(" end");
    let expected = bytes_of(alloc, ending.unwrap_or(said))?;
    let piece = bytes_of(alloc, heard)?;
    let driven = bench.hears(alloc, piece.as_slice())?;
    was_said(rt, line, &driven, expected.as_slice(), ending.is_some());
    Ok(driven.stopped)
}

/// Goes through exchanges, a line each, up to the one that ends the session.
pub fn ends_behind(
    rt: &impl Abort,
    alloc: Global,
    bench: &mut Bench,
    lines: &str,
) -> Result<(), Fail>
    requires { MayBeDriven bench.old.session bench.old.book }
{
    for line in lines.lines() {
        if exchange(rt, alloc, bench, line)? {
            return Ok(());
        }
    }
    Err(Fail::new("the session has not ended"))
}
