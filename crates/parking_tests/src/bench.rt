//! One session over a book, to which bytes are fed, and which goes on.

ghost use Rattle.std.specs.Prelude.{◌≤◌, ◌≡◌, IfOk, false};
ghost use Rattle.sp_base.specs.declared.limits.TheConstants.{MOST_QUANTUM};
ghost use Rattle.drive.specs.Hearing.{MayBeDriven};

use crate::books::TENANT;
use crate::words::{bytes_of, parts};
use book::Book;
use drive::drive;
use framing::Framer;
use session::{Session, SessionConf};
use sp_base::{Blob, Policy};
use std::alloc::Global;
use std::process::Abort;
use std::test::Fail;

/// A session of tenant 1 with key 7, its stream and the book.
#[derive(Drop)]
pub struct Bench {
    pub session: Session,
    pub framer: Framer,
    pub book: Book,
}

/// A session that has heard nothing. At a load of `high` a call is handed back that has spent a unit.
fn opened(alloc: Global, book: &Book, high: u32) -> Result<Session, Fail>
    requires { book.now.audit ≡ false }
    ensures { IfOk result (λ session. MayBeDriven session book.now) }
{
    let conf = SessionConf {
        tenants: vec![in alloc; (TENANT, 7)]?,
        policy: Policy { high, least: 1 },
        audit: false,
    };
    Ok(Session::new(alloc, conf))
}

impl Bench {
    /// Such a session over a book.
    pub fn over(alloc: Global, book: Book, high: u32) -> Result<Bench, Fail>
        requires { book.audit ≡ false }
        ensures { IfOk result (λ bench. MayBeDriven bench.session bench.book) }
    {
        Ok(Bench {
            session: opened(alloc, &book, high)?,
            framer: Framer::new(alloc),
            book,
        })
    }

    /// What is said to a piece of bytes, behind which the session goes on.
    pub fn hears(&mut self, alloc: Global, quantum: u32, piece: &[u8]) -> Result<Blob, Fail>
        requires ready { MayBeDriven self.old.session self.old.book }
        requires some { 1 ≤ quantum }
        requires most { quantum ≤ MOST_QUANTUM }
        ensures { IfOk result (λ said. MayBeDriven self.new.session self.new.book) }
    {
        let Bench {
            session,
            framer,
            book,
        } = self;
        let driven = drive(alloc, session, framer, book, quantum, piece)?;
        if driven.stopped {
            return Err(Fail::new("the session has ended"));
        }
        Ok(driven.said)
    }
}

/// Feeds what is heard in an exchange, written as words, and compares what is said.
fn exchange(rt: &impl Abort, alloc: Global, bench: &mut Bench, line: &str) -> Result<(), Fail>
    requires { MayBeDriven bench.old.session bench.old.book }
    ensures { IfOk result (λ _. MayBeDriven bench.new.session bench.new.book) }
{
    let (heard, said) = parts(line)?;
    let piece = bytes_of(alloc, heard)?;
    let expected = bytes_of(alloc, said)?;
    let given = bench.hears(alloc, 1000, piece.as_slice())?;
    assert_eq!(rt; given.bytes(), expected.as_slice(), "{line}");
    Ok(())
}

/// Goes through exchanges, a line each.
pub fn goes_through(
    rt: &impl Abort,
    alloc: Global,
    bench: &mut Bench,
    lines: &str,
) -> Result<(), Fail>
    requires { MayBeDriven bench.old.session bench.old.book }
    ensures { IfOk result (λ _. MayBeDriven bench.new.session bench.new.book) }
{
    for line in lines.lines() {
        exchange(rt, alloc, bench, line)?;
    }
    Ok(())
}
