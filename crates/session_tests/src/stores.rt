//! Books that sessions share.

ghost use Rattle.std.specs.Prelude.{◌≤◌, ◌≡◌, IfOk, false};
ghost use Rattle.sp_base.specs.declared.limits.TheConstants.{MOST_ENTRIES};

use book::{Book, Install, Put};
use records::Grants;
use sp_base::{Blob, Key, Level, MOST_ENTRIES, Rights, TableId, TenantId};
use std::alloc::Global;
use std::test::Fail;
use task::Ext;

/// Looks its arguments up in table 5, and replies what stands there.
pub const LOOK_UP: &str =
    "fn main() -> int { get(5, args()) { some s => { resp(s); } none => { } } return 0; }\n";

/// Counts in table 6, under its arguments.
pub const COUNTER: &str =
    "fn main() -> int { let n: int = 0; get(6, args()) { some s => { n = u64(s, 0); } \
none => { } } let b: buf = alloc(6, args(), 8); set8(b, 0, n + 1); put(b); return n + 1; }\n";

/// Tenant 1 may write table 5 alone; key k has v1 there; its extension 0 looks up.
pub fn look_ups(alloc: Global) -> Result<Book, Fail>
    ensures { IfOk result (λ book. book.audit ≡ false) }
{
    let rights = vec![in alloc; (TableId(5), Level::Write)]?;
    let grants = vec![in alloc; (TenantId(1), Rights::of(rights))]?;
    let mut book = Book::new(alloc, Grants::of(grants), MOST_ENTRIES, false);
    put(alloc, &mut book, b"k", b"v1")?;
    install(alloc, &mut book, LOOK_UP)?;
    Ok(book)
}

/// Tenant 1 may write tables 5 and 6, tenant 2 may read table 5; tenant 1's extension 0 counts.
pub fn counters(alloc: Global, limit: u64) -> Result<Book, Fail>
    requires { limit ≤ MOST_ENTRIES }
    ensures { IfOk result (λ book. book.audit ≡ false) }
{
    let rights = vec![in alloc; (TableId(5), Level::Write), (TableId(6), Level::Write)]?;
    let others = vec![in alloc; (TableId(5), Level::Read)]?;
    let grants = vec![in alloc;
        (TenantId(1), Rights::of(rights)),
        (TenantId(2), Rights::of(others)),
    ]?;
    let mut book = Book::new(alloc, Grants::of(grants), limit, false);
    install(alloc, &mut book, COUNTER)?;
    Ok(book)
}

fn put(alloc: Global, book: &mut Book, key: &[u8; 1], value: &[u8; 2]) -> Result<(), Fail>
    ensures { book.new.audit ≡ book.old.audit }
{
    let key = Key::of(alloc, key)?;
    let value = Blob::of(alloc, value)?;
    match book.put_native(TenantId(1), TableId(5), key, value) {
        Put::Done(_) => Ok(()),
        _ => Err(Fail::new("no put")),
    }
}

fn install(alloc: Global, book: &mut Book, text: &str) -> Result<(), Fail>
    ensures { book.new.audit ≡ book.old.audit }
{
    let Ok(ext) = Ext::make(alloc, text.as_bytes()) else {
        return Err(Fail::new("a text that is refused"));
    };
    match book.install(TenantId(1), ext) {
        Install::Installed { .. } => Ok(()),
        _ => Err(Fail::new("no installation")),
    }
}
