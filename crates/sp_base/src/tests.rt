use super::*;
use std::alloc::Global;
use std::test::Fail;

#[test]
fn a_key_has_from_1_to_64_bytes(rt: HostRuntime) -> Result<(), Fail> {
    let bytes = [7u8; 65];
    assert_eq!(rt; Key::of(rt.alloc(), &bytes[..64])?.bytes().len(), 64);
    assert_eq!(rt;
        Key::of(rt.alloc(), &bytes[..1])?.share(rt.alloc())?.bytes(),
        [7u8].as_slice()
    );
    assert!(rt; matches!(Key::of(rt.alloc(), &bytes), Err(KeyFault::Size)));
    assert!(rt; matches!(Key::of(rt.alloc(), &[]), Err(KeyFault::Size)));
    Ok(())
}

fn rights(alloc: Global) -> Result<Rights, Fail> {
    let mut list = Vec::new(alloc);
    list.push((TableId(3), Level::Read))?;
    list.push((TableId(5), Level::Write))?;
    Ok(Rights::of(list))
}

#[test]
fn a_table_without_a_right_is_closed(rt: HostRuntime) -> Result<(), Fail> {
    let rights = rights(rt.alloc())?.share(rt.alloc())?;
    assert_eq!(rt; rights.level(3), Level::Read);
    assert_eq!(rt; rights.level(5), Level::Write);
    assert_eq!(rt; rights.level(4), Level::Nothing);
    assert_eq!(rt; rights.level(4_294_967_299), Level::Nothing);
    Ok(())
}

#[test]
fn copies_are_made_with_ample_memory(rt: HostRuntime) -> Result<(), Fail> {
    let alloc = rt.alloc();
    let blob = Blob::of(alloc, b"v1")?;
    assert_eq!(rt; blob.share(alloc)?.bytes(), b"v1".as_slice());
    let outcome = Outcome::Done(Reply {
        code: 7,
        bytes: blob,
    });
    match outcome.share(alloc)? {
        Outcome::Done(reply) => {
            assert_eq!(rt; reply.code, 7);
            assert_eq!(rt; reply.bytes.bytes(), b"v1".as_slice());
        }
        _ => assert!(rt; false),
    }
    let mut reads = Reads::new(alloc);
    reads.push(ReadItem {
        table: TableId(5),
        key: Key::of(alloc, b"k")?,
        version: 1,
        read_at: 2,
        value: None,
    })?;
    assert_eq!(rt; reads.len(), 1);
    Ok(())
}

#[test]
fn traps_have_the_numbers_that_are_printed(rt: HostRuntime) {
    let numbers = [
        Trap::Range as u8,
        Trap::Divide as u8,
        Trap::Size as u8,
        Trap::Denied as u8,
        Trap::Width as u8,
    ];
    assert_eq!(rt; numbers, [1u8, 2, 3, 4, 5]);
}
