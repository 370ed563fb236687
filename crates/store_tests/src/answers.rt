ghost use Rattle.std.specs.Prelude.{◌≤◌, length};

use book::{Book, Install, Put, Read};
use records::Grants;
use sp_base::{Blob, Caller, ExtNo, Key, Level, ReadItem, Rights, TableId, TenantId};
use std::alloc::Global;
use std::test::Fail;
use task::Ext;

const TENANT: TenantId = TenantId(1);

const OPEN: TableId = TableId(5);

const SEEN: TableId = TableId(6);

const CLOSED: TableId = TableId(7);

/// An extension that answers 0.
const TEXT: &str = "fn main() -> int {\nreturn 0;\n}\n";

fn book_of(alloc: Global, limit: u64) -> Result<Book, Fail>
    requires { limit ≤ 1048576 }
{
    let rights = vec![in alloc; (OPEN, Level::Write), (SEEN, Level::Read)]?;
    let grants = vec![in alloc; (TENANT, Rights::of(rights))]?;
    Ok(Book::new(alloc, Grants::of(grants), limit, true))
}

fn put(alloc: Global, book: &mut Book, table: TableId, value: &[u8]) -> Result<Put, Fail>
    requires { length value.now ≤ 4096 }
{
    let key = Key::of(alloc, b"k")?;
    let value = Blob::of(alloc, value)?;
    Ok(book.put_native(TENANT, table, key, value))
}

fn found(alloc: Global, book: &Book, table: TableId) -> Result<ReadItem, Fail> {
    let key = Key::of(alloc, b"k")?;
    match book.read(TENANT, table, &key) {
        Read::Found(item) => Ok(item),
        _ => Err(Fail::new("no record")),
    }
}

#[test]
fn the_same_value_put_again_has_the_version_of_the_second_put(rt: HostRuntime) -> Result<(), Fail> {
    let alloc = rt.alloc();
    let mut book = book_of(alloc, 3)?;
    let absent = found(alloc, &book, OPEN)?;
    assert_eq!(rt; (absent.version, absent.read_at), (0, 0));
    assert!(rt; absent.value.is_none());
    assert!(rt; matches!(put(alloc, &mut book, OPEN, b"v")?, Put::Done(0)));
    assert!(rt; matches!(put(alloc, &mut book, OPEN, b"v")?, Put::Done(1)));
    let item = found(alloc, &book, OPEN)?;
    assert_eq!(rt; (item.version, item.read_at), (2, 2));
    assert!(rt;
        item.value
            .is_some_and(|value| value.bytes() == b"v".as_slice())
    );
    assert_eq!(rt; book.len(), 2);
    assert_eq!(rt; book.journal().entries().len(), 2);
    Ok(())
}

#[test]
fn closed_tables_are_denied_and_a_full_journal_is_told(rt: HostRuntime) -> Result<(), Fail> {
    let alloc = rt.alloc();
    let mut book = book_of(alloc, 1)?;
    let key = Key::of(alloc, b"k")?;
    assert!(rt; matches!(book.read(TENANT, CLOSED, &key), Read::Denied));
    assert!(rt; matches!(book.read(TenantId(2), OPEN, &key), Read::Denied));
    assert!(rt; matches!(put(alloc, &mut book, CLOSED, b"v")?, Put::Denied));
    assert!(rt; matches!(put(alloc, &mut book, SEEN, b"v")?, Put::Denied));
    assert_eq!(rt; found(alloc, &book, SEEN)?.version, 0);
    assert!(rt; matches!(put(alloc, &mut book, OPEN, b"v")?, Put::Done(0)));
    assert!(rt; matches!(put(alloc, &mut book, OPEN, b"v")?, Put::Full { at: 1 }));
    assert_eq!(rt; book.rights(TENANT)?.as_slice().len(), 2);
    assert_eq!(rt; book.rights(TenantId(2))?.as_slice().len(), 0);
    Ok(())
}

#[test]
fn extensions_are_numbered_by_tenant_and_shared(rt: HostRuntime) -> Result<(), Fail> {
    let alloc = rt.alloc();
    let mut book = book_of(alloc, 3)?;
    for (tenant, n, number) in [(1u32, 0u64, 0u32), (2, 1, 0), (1, 2, 1)] {
        let Ok(ext) = Ext::make(alloc, TEXT.as_bytes()) else {
            return Err(Fail::new("no extension"));
        };
        match book.install(TenantId(tenant), ext) {
            Install::Installed { n: at, ext } => assert_eq!(rt; (at, ext.0), (n, number)),
            _ => assert!(rt; false),
        }
    }
    assert_eq!(rt; book.ext_count(TENANT), 2);
    assert_eq!(rt; book.ext_count(TenantId(3)), 0);
    let ext = book.ext(TENANT, ExtNo(1))?;
    assert!(rt; ext.is_some_and(|ext| ext.text() == TEXT.as_bytes()));
    assert!(rt; book.ext(TENANT, ExtNo(2))?.is_none());
    let caller = Caller {
        tenant: TENANT,
        number: 1,
    };
    assert_eq!(rt; book.last(caller), 0);
    let Ok(ext) = Ext::make(alloc, TEXT.as_bytes()) else {
        return Err(Fail::new("no extension"));
    };
    assert!(rt; matches!(book.install(TENANT, ext), Install::Full { at: 3 }));
    Ok(())
}

/// 65,328 records of 4,109 bytes, 13 of them not of the value, leave 2,704 of the journal's 268,435,456.
#[test]
fn a_journal_is_full_by_bytes_at_its_edge(rt: HostRuntime) -> Result<(), Fail> {
    let alloc = rt.alloc();
    let mut book = book_of(alloc, 1_048_576)?;
    let value = [7u8; 4096];
    for n in 0..65_328u64 {
        assert!(rt; matches!(put(alloc, &mut book, OPEN, &value)?, Put::Done(at) if at == n));
    }
    assert!(rt;
        matches!(
            put(alloc, &mut book, OPEN, &value[..2_692])?,
            Put::Full { at: 65_328 }
        )
    );
    assert!(rt;
        matches!(
            put(alloc, &mut book, OPEN, &value[..2_691])?,
            Put::Done(65_328)
        )
    );
    assert!(rt; matches!(put(alloc, &mut book, OPEN, b"")?, Put::Full { at: 65_329 }));
    assert_eq!(rt; book.journal().size(), 268_435_456);
    assert_eq!(rt; found(alloc, &book, OPEN)?.version, 65_329);
    Ok(())
}

#[test]
fn a_journal_takes_the_most_entries(rt: HostRuntime) -> Result<(), Fail> {
    let alloc = rt.alloc();
    let mut book = book_of(alloc, 1_048_576)?;
    for n in 0..1_048_576u64 {
        assert!(rt; matches!(put(alloc, &mut book, OPEN, b"")?, Put::Done(at) if at == n));
    }
    assert!(rt;
        matches!(
            put(alloc, &mut book, OPEN, b"")?,
            Put::Full { at: 1_048_576 }
        )
    );
    assert_eq!(rt; book.len(), 1_048_576);
    Ok(())
}
