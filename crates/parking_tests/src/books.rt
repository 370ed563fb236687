//! Books of tenant 1, and what their journals keep of a call.

ghost use Rattle.std.specs.Prelude.{◌≤◌, ◌≡◌, IfOk, false};
ghost use Rattle.sp_base.specs.declared.limits.TheConstants.{MOST_ENTRIES};

use book::{Book, Install};
use journal::{Entry, Home};
use records::Grants;
use sp_base::{Level, Rights, TableId, TenantId};
use std::alloc::Global;
use std::test::Fail;
use task::Ext;

pub const TENANT: TenantId = TenantId(1);

pub const TABLE: TableId = TableId(6);

/// Reads two records of table 6, and never ends where they differ.
const TORN_PAIR: &str =
    "fn main() -> int { let a: int = 0; let c: int = 0; get(6, \"a\") { some s => { a = u64(s, 0); } none => { } } get(6, \"b\") { some s => { c = u64(s, 0); } none => { } } while a != c { } return 0; }\n";

/// An empty book of a tenant with these rights.
pub fn empty(alloc: Global, rights: Rights, limit: u64) -> Result<Book, Fail>
    requires { limit ≤ MOST_ENTRIES }
    ensures { IfOk result (λ book. book.audit ≡ false) }
{
    let grants = vec![in alloc; (TENANT, rights)]?;
    Ok(Book::new(alloc, Grants::of(grants), limit, false))
}

pub fn install(alloc: Global, book: &mut Book, text: &str) -> Result<(), Fail>
    ensures { book.new.audit ≡ book.old.audit }
{
    let Ok(ext) = Ext::make(alloc, text.as_bytes()) else {
        return Err(Fail::new("a text that is refused"));
    };
    match book.install(TENANT, ext) {
        Install::Installed { .. } => Ok(()),
        _ => Err(Fail::new("no installation")),
    }
}

/// Table 6 may be written; extension 0 reads the pair.
pub fn pair(alloc: Global) -> Result<Book, Fail>
    ensures { IfOk result (λ book. book.audit ≡ false) }
{
    let rights = vec![in alloc; (TABLE, Level::Write)]?;
    let mut book = empty(alloc, Rights::of(rights), 1000)?;
    install(alloc, &mut book, TORN_PAIR)?;
    Ok(book)
}

/// Table 5 may be read beside it; so many entries may stand in the journal.
pub fn pair_within(alloc: Global, limit: u64) -> Result<Book, Fail>
    requires { limit ≤ MOST_ENTRIES }
    ensures { IfOk result (λ book. book.audit ≡ false) }
{
    let rights = vec![in alloc; (TableId(5), Level::Read), (TABLE, Level::Write)]?;
    let mut book = empty(alloc, Rights::of(rights), limit)?;
    install(alloc, &mut book, TORN_PAIR)?;
    Ok(book)
}

/// Where the call of an entry ended, and how many reads and writes it has.
#[derive(Clone, Copy, Debug, PartialEq, Eq)]
pub struct Ended {
    pub home: Home,
    pub reads: usize,
    pub writes: usize,
}

/// How the call of entry `n` ended.
pub fn end_of(book: &Book, n: u64) -> Result<Ended, Fail> {
    match book.journal().at(n) {
        Some(
            Entry::Invoke {
                reads,
                writes,
                home,
                ..
            },
        ) => {
            Ok(Ended {
                home: *home,
                reads: reads.len(),
                writes: writes.len(),
            })
        }
        _ => Err(Fail::new("no call")),
    }
}
