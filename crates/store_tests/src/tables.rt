use records::Tables;
use sp_base::{Blob, Key, TableId};
use std::test::Fail;

#[test]
fn tables_hold_what_was_put_last(rt: HostRuntime) -> Result<(), Fail> {
    let alloc = rt.alloc();
    let mut tables = Tables::new(alloc);
    tables.reserve(1)?;
    tables.put(TableId(5), Key::of(alloc, b"k")?, Blob::of(alloc, b"v")?, 1);
    let key = Key::of(alloc, b"k")?;
    assert_eq!(rt; tables.version(TableId(5), &key), 1);
    assert_eq!(rt; tables.version(TableId(6), &key), 0);
    tables.reserve(1)?;
    tables.put(TableId(5), Key::of(alloc, b"k")?, Blob::of(alloc, b"w")?, 2);
    match tables.look(TableId(5), &key) {
        Some((version, value)) => {
            assert_eq!(rt; version, 2);
            assert_eq!(rt; value.bytes(), b"w".as_slice());
        }
        None => assert!(rt; false),
    }
    tables.del(TableId(5), &key);
    assert!(rt; tables.look(TableId(5), &key).is_none());
    Ok(())
}
