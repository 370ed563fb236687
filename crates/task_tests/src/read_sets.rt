use rw_set::ReadSet;
use sp_base::{Key, MOST_READS, ReadItem, TableId};
use std::test::Fail;

/// As many reads as one set may have, added in no order: each is found, and they weigh 24 bytes each, the
/// table 4, the key 1 and 2, the version and the moment 8 each, and 1 for the absent value.
#[test]
fn a_full_set_finds_each_of_its_reads(rt: HostRuntime) -> Result<(), Fail> {
    let alloc = rt.alloc();
    let mut set = ReadSet::new(alloc);
    for turn in 0..6_250u32 {
        let number = (turn * 2_477 % 6_250) as u16;
        let read = ReadItem {
            table: TableId(5),
            key: Key::of(alloc, &number.to_be_bytes())?,
            version: u64::from(number),
            read_at: 9,
            value: None,
        };
        let is_new = set.find(read.table, &read.key).is_none();
        assert!(rt; is_new);
        let has_room = set.items().len() < MOST_READS;
        assert!(rt; has_room);
        if is_new && has_room {
            assert!(rt; set.add(read).is_ok());
        }
    }
    assert_eq!(rt; set.items().len(), 6_250);
    assert_eq!(rt; set.weight(), 150_000);
    for number in [0u16, 1, 255, 256, 3_124, 3_125, 6_248, 6_249] {
        let key = Key::of(alloc, &number.to_be_bytes())?;
        match set.find(TableId(5), &key) {
            Some(read) => assert_eq!(rt; read.version, u64::from(number)),
            None => assert!(rt; false),
        }
        assert!(rt; set.find(TableId(4), &key).is_none());
    }
    for bytes in [[0u8].as_slice(), &[24, 106], &[0, 0, 0]] {
        assert!(rt; set.find(TableId(5), &Key::of(alloc, bytes)?).is_none());
    }
    Ok(())
}
