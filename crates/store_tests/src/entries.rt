use journal::{Entry, Home, Journal, entry_bytes, entry_size};
use sp_base::{
    Blob, Call, CallNo, Caller, Change, ExtNo, Key, Outcome, ReadItem, Reads, Reply, TableId,
    TenantId, Write, Writes,
};
use std::alloc::Global;
use std::test::Fail;

/// The bytes of decimal numbers.
fn bytes_of(alloc: Global, numbers: &str) -> Result<Vec<u8>, Fail> {
    let mut bytes = Vec::new(alloc);
    for number in numbers.split(' ') {
        bytes.push(number.parse::<u8>()?)?;
    }
    Ok(bytes)
}

/// The call (tenant, caller, number, extension, budget, push, arguments), a reply, two writes, one read of which
/// neither value nor moment is kept, and the home.
#[test]
fn a_call_has_its_bytes(rt: HostRuntime) -> Result<(), Fail> {
    let alloc = rt.alloc();
    let call = Call {
        caller: Caller {
            tenant: TenantId(1),
            number: 2,
        },
        number: CallNo(3),
        ext: ExtNo(4),
        budget: 100,
        push_ok: true,
        args: Blob::of(alloc, b"a")?,
    };
    let reply = Reply {
        code: 5,
        bytes: Blob::of(alloc, b"hi")?,
    };
    let put = Write {
        table: TableId(6),
        key: Key::of(alloc, b"k")?,
        change: Change::Put(Blob::of(alloc, b"v")?),
    };
    let del = Write {
        table: TableId(7),
        key: Key::of(alloc, b"dd")?,
        change: Change::Del,
    };
    let read = ReadItem {
        table: TableId(5),
        key: Key::of(alloc, b"k")?,
        version: 258,
        read_at: 9,
        value: Some(Blob::of(alloc, b"seen")?),
    };
    let entry = Entry::Invoke {
        call,
        outcome: Outcome::Done(reply),
        writes: Writes::from_vec(vec![in alloc; put, del]?),
        reads: Reads::from_vec(vec![in alloc; read]?),
        home: Home::Client,
    };
    let bytes = bytes_of(
        alloc,
        "1 0 0 0 1 0 0 0 2 0 0 0 0 0 0 0 3 0 0 0 4 0 0 0 100 1 0 1 97 \
         0 0 0 0 0 0 0 0 5 0 2 104 105 \
         2 0 0 0 6 1 107 1 0 1 118 0 0 0 7 2 100 100 0 \
         0 1 0 0 0 5 1 107 0 0 0 0 0 0 1 2 1",
    )?;
    assert_eq!(rt; entry_size(&entry), 78);
    assert_eq!(rt; entry_bytes(alloc, &entry)?.bytes(), bytes.as_slice());
    Ok(())
}

#[test]
fn puts_and_installations_have_their_bytes(rt: HostRuntime) -> Result<(), Fail> {
    let alloc = rt.alloc();
    let put = Entry::Put {
        tenant: TenantId(1),
        table: TableId(5),
        key: Key::of(alloc, b"k")?,
        value: Blob::of(alloc, b"v")?,
    };
    let bytes = [2u8, 0, 0, 0, 1, 0, 0, 0, 5, 1, 107, 0, 1, 118];
    assert_eq!(rt; entry_size(&put), 14);
    assert_eq!(rt; entry_bytes(alloc, &put)?.bytes(), bytes.as_slice());
    let install = Entry::Install {
        tenant: TenantId(1),
        text: Blob::of(alloc, b"ab\n")?,
    };
    let bytes = [3u8, 0, 0, 0, 1, 0, 3, 97, 98, 10];
    assert_eq!(rt; entry_size(&install), 10);
    assert_eq!(rt; entry_bytes(alloc, &install)?.bytes(), bytes.as_slice());
    Ok(())
}

#[test]
fn a_journal_takes_an_entry_for_which_room_was_made(rt: HostRuntime) -> Result<(), Fail> {
    let alloc = rt.alloc();
    let mut journal = Journal::new(alloc, 1);
    let entry = Entry::Put {
        tenant: TenantId(1),
        table: TableId(5),
        key: Key::of(alloc, b"k")?,
        value: Blob::of(alloc, b"v")?,
    };
    let size = entry_size(&entry);
    if journal.len() < journal.limit() && journal.size() == 0 && size == 14 {
        journal.reserve()?;
        journal.push_reserved(entry);
    }
    assert_eq!(rt; (journal.len(), journal.size()), (1, 14));
    assert!(rt; matches!(journal.at(0), Some(Entry::Put { .. })));
    assert!(rt; journal.at(1).is_none());
    Ok(())
}
