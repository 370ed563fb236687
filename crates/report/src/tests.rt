use super::*;
use journal::{Entry, Home};
use sp_base::{
    Blob, Call, CallNo, Caller, Change, ExtNo, Key, Outcome, ReadItem, Reads, Reply, TableId,
    TenantId, Write, Writes,
};
use std::alloc::Global;
use std::test::Fail;

fn key(alloc: Global, bytes: &[u8]) -> Result<Key, Fail> {
    Key::of(alloc, bytes).map_err(|_| Fail::new("no key"))
}

fn done(alloc: Global, code: u64, bytes: &[u8]) -> Result<Outcome, Fail> {
    let bytes = Blob::of(alloc, bytes)?;
    Ok(Outcome::Done(Reply { code, bytes }))
}

fn of_call(said: Said, away: bool) -> Line {
    Line::Of {
        caller: Caller {
            tenant: TenantId(1),
            number: 4_294_967_295,
        },
        number: CallNo(u64::MAX),
        said,
        away,
    }
}

/// What no run without pushback says of a call, with what stands behind its name.
fn words(alloc: Global) -> Result<Vec<(Said, &'static str)>, Fail> {
    let table = TableId(9);
    let (key, version, pushed) = (key(alloc, b"\0k")?, 3, true);
    Ok(vec![in alloc;
        (
            Said::Read {
                table,
                key,
                version,
                pushed
            },
            "read 9 x006b 3 pushed"
        ),
        (
            Said::On {
                spent: 10_000,
                pushed
            },
            "on 10000 pushed"
        ),
        (Said::Cut, "cut"),
        (Said::Repeated, "repeated"),
        (Said::BadBudget, "bad-budget"),
        (Said::Foreign { table }, "foreign 9"),
        (Said::Shape { code: 3 }, "shape 3"),
        (Said::Lied, "lied"),
        (Said::NotParked, "not-parked"),
        (Said::Memory, "memory"),
    ]?)
}

#[test]
fn each_word_of_pushback_has_its_line(rt: HostRuntime) -> Result<(), Fail> {
    let alloc = rt.alloc();
    for (said, text) in words(alloc)? {
        let told = answer_line(alloc, Prefix::At(7), &of_call(said, false))?;
        let wanted = format!(in alloc; "7 1.4294967295.18446744073709551615 {text}\n")?;
        assert_eq!(rt; told.bytes(), wanted.as_bytes());
    }
    let told = answer_line(
        alloc,
        Prefix::Drain,
        &of_call(Said::Stale { last: 4 }, true),
    )?;
    let wanted = b"drain 1.4294967295.18446744073709551615 stale 4 away\n";
    assert_eq!(rt; told.bytes(), wanted.as_slice());
    let told = answer_line(alloc, Prefix::At(0), &Line::Memory)?;
    assert_eq!(rt; told.bytes(), b"0 memory\n".as_slice());
    Ok(())
}

/// A call of tenant 2 that put a number, after one installation of tenant 1 and two of tenant 2.
fn entries(alloc: Global) -> Result<Vec<Entry>, Fail> {
    let table = TableId(6);
    let mut list = vec![in alloc;
        Entry::Put {
            tenant: TenantId(3),
            table: TableId(5),
            key: key(alloc, b"a")?,
            value: Blob::of(alloc, b"")?,
        },
    ]?;
    for (tenant, text) in [(2, b"a\nb\n".as_slice()), (1, b"c\n"), (2, b"d\n")] {
        let text = Blob::of(alloc, text)?;
        list.push(Entry::Install {
            tenant: TenantId(tenant),
            text,
        })?;
    }
    let caller = Caller {
        tenant: TenantId(2),
        number: 1,
    };
    let (number, ext, args) = (CallNo(1), ExtNo(0), Blob::of(alloc, b"d")?);
    let call = Call {
        caller,
        number,
        ext,
        budget: 1000,
        push_ok: false,
        args,
    };
    let read = ReadItem {
        table,
        key: key(alloc, b"d")?,
        version: 0,
        read_at: 5,
        value: None,
    };
    let change = Change::Put(Blob::of(alloc, &[1, 0])?);
    let put = Write {
        table,
        key: key(alloc, b"d")?,
        change,
    };
    let del = Write {
        table: TableId(0),
        key: key(alloc, b"e")?,
        change: Change::Del,
    };
    list.push(Entry::Invoke {
        call,
        outcome: done(alloc, 1, b"")?,
        writes: Writes::from_vec(vec![in alloc; put, del]?),
        reads: Reads::from_vec(vec![in alloc; read]?),
        home: Home::Client,
    })?;
    Ok(list)
}

const JOURNAL: &str = "journal 0 put 3 5 x61 x
journal 1 install 2 0 2
a
b
journal 2 install 1 0 1
c
journal 3 install 2 1 1
d
journal 4 invoke 2 1 1 0 1000 x64 client done 1 x reads 1 6 x64 0 writes 2 6 x64 put x0100 0 x65 del
";

#[test]
fn a_journal_has_the_lines_of_its_entries(rt: HostRuntime) -> Result<(), Fail> {
    let alloc = rt.alloc();
    let list = entries(alloc)?;
    assert_eq!(rt; list.len(), 5);
    let told = journal_lines(alloc, list.as_slice())?;
    assert_eq!(rt; told.bytes(), JOURNAL.as_bytes());
    let Some(third) = list.as_slice().get(3) else {
        return Err(Fail::new("no entry"));
    };
    let told = entry_lines(alloc, 1_048_575, ExtNo(70), third)?;
    assert_eq!(rt;
        told.bytes(),
        b"journal 1048575 install 2 70 1\nd\n".as_slice()
    );
    Ok(())
}

#[test]
fn a_drill_is_told_by_five_lines(rt: HostRuntime) -> Result<(), Fail> {
    let counts = Counts {
        calls: 1,
        committed: 1,
        conflict: 0,
        pushed: 0,
        journal: 2,
    };
    let told = summary(rt.alloc(), &counts)?;
    assert_eq!(rt;
        told.bytes(),
        b"calls 1\ncommitted 1\nconflict 0\npushed 0\njournal 2\n".as_slice()
    );
    Ok(())
}
