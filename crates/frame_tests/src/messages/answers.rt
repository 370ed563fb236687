// The bytes are written out by hand from the tables of docs/PROTOCOL.md.
use super::*;
use sp_base::ReadItem;

/// Each kind of answer, each of its tags, and each item.
const SPELLED: &str = "\
41 00 0000000000000002 => Welcome { rights: Rights { list: [] }, at: 2 }
41 02 00000005 02 ffffffff 01 0000000000000002 \
=> Welcome { rights: Rights { list: [(TableId(5), Write), (TableId(4294967295), Read)] }, at: 2 }
42 00 0000000000000001 00000004 => Installed(Done { n: 1, ext: ExtNo(4) })
42 01 00000002 10 => Installed(Rejected { line: 2, code: 16 })
42 02 0000000000000003 => Installed(Full { at: 3 })
42 03 => Installed(Memory)
43 000a 00 0000000000000002 00 0000000000000003 0002 7631 \
01 0000000000000004 0000000000000005 \
02 00000005 01 6b 0000000000000001 0000000000000002 0000000000000003 0000000000000004 \
03 00000040 000003e8 0001 00000005 01 6b 0000000000000000 0000000000000002 00 \
04 0000000000000006 05 0000000000000007 06 07 00000008 0000000000000009 08 09 \
=> Answers { items: Items { items: [\
Committed { n: 2, outcome: Done(Reply { code: 3, bytes: Blob { bytes: [118, 49] } }) }, \
Stale { last: 4, at: 5 }, \
Conflict { table: TableId(5), key: Key { bytes: [107] }, read: 1, read_at: 2, now: 3, now_at: 4 }, \
Pushed { load: 64, spent: 1000, reads: Reads { items: [ReadItem { table: TableId(5), \
key: Key { bytes: [107] }, version: 0, read_at: 2, value: None }] } }, \
Full { at: 6 }, Busy { number: CallNo(7) }, Repeated, NoExtension { count: 8, at: 9 }, \
BadBudget, Memory] } }
44 00 0000000000000001 0000000000000002 01 0001 76 \
=> Fetched(Found { version: 1, read_at: 2, value: Some(Blob { bytes: [118] }) })
44 00 0000000000000000 0000000000000002 00 \
=> Fetched(Found { version: 0, read_at: 2, value: None })
44 01 => Fetched(Denied)
44 02 => Fetched(NotParked)
44 03 => Fetched(Memory)
44 04 => Fetched(Many)
45 00 0000000000000004 01 05 => Finished { item: Committed { n: 4, outcome: Trapped(Width) } }
45 01 0000000000000004 0000000000000005 => Finished { item: Stale { last: 4, at: 5 } }
45 02 00000005 01 6b 0000000000000001 0000000000000002 0000000000000003 0000000000000004 \
=> Finished { item: Conflict { table: TableId(5), key: Key { bytes: [107] }, \
read: 1, read_at: 2, now: 3, now_at: 4 } }
45 04 0000000000000006 => Finished { item: Full { at: 6 } }
45 09 => Finished { item: Memory }
45 0a 00000005 => Finished { item: Foreign { table: TableId(5) } }
45 0b 03 => Finished { item: Shape { code: 3 } }
45 0c => Finished { item: Lied }
45 0d => Finished { item: NotParked }
46 00 0000000000000100 => PutDone(Done(256))
46 01 => PutDone(Denied)
46 02 0000000000000003 => PutDone(Full { at: 3 })
46 03 => PutDone(Memory)
47 00 0001 61 => Text(Text(Blob { bytes: [97] }))
47 01 00000002 0000000000000003 => Text(NoExtension { count: 2, at: 3 })
47 03 => Text(Memory)
48 01 => Fault { code: 1 }
48 05 => Fault { code: 5 }";

/// Items, a reply, a text and a read value that may not be longer.
const LONGEST: &str = "\
43 0040 06*64
45 00 0000000000000002 00 0000000000000000 1000 72*4096
47 00 4000 61*16384
44 00 0000000000000001 0000000000000002 01 1000 76*4096";

/// Lists of reads, behind them the bytes that the reads weigh.
const WEIGHED: &str = "\
0000 => 0
0001 00000005 01 6b 0000000000000000 0000000000000002 00 => 23
0002 00000005 01 6b 0000000000000000 0000000000000002 00 \
00000005 01 6c 0000000000000001 0000000000000002 01 0001 76 => 49
0001 00000005 40 6b*64 0000000000000001 0000000000000002 01 1000 76*4096 => 4184";

#[test]
fn each_kind_of_answer_has_its_bytes(rt: HostRuntime) -> Result<(), Fail> {
    let alloc = rt.alloc();
    for case in SPELLED.lines() {
        let (words, shown) = parts(case)?;
        let body = bytes_of(alloc, words)?;
        let message = spells_answer(&rt, alloc, body.as_slice())?;
        assert_eq!(rt; format!(in alloc; "{message:?}")?.as_str(), shown);
        bad_answer_if_cut(&rt, alloc, body.as_slice())?;
    }
    for words in LONGEST.lines() {
        let body = bytes_of(alloc, words)?;
        let _ = spells_answer(&rt, alloc, body.as_slice())?;
    }
    Ok(())
}

/// The bytes of a read: table, key and its length, two numbers, and what was read.
fn weight(read: &ReadItem) -> usize {
    let value = match &read.value {
        None => 0,
        Some(value) => value.len().saturating_add(2),
    };
    value
        .saturating_add(read.key.bytes().len())
        .saturating_add(22)
}

/// The reads of a call that was pushed back take as many bytes of its answer as they weigh.
#[test]
fn reads_take_the_bytes_that_they_weigh(rt: HostRuntime) -> Result<(), Fail> {
    let alloc = rt.alloc();
    for case in WEIGHED.lines() {
        let (words, wanted) = parts(case)?;
        let wanted = wanted.parse::<usize>()?;
        let mut body = bytes_of(alloc, "43 0001 03 00000040 000003e8")?;
        body.extend_from_slice(bytes_of(alloc, words)?.as_slice())?;
        assert_eq!(rt; body.len(), wanted.saturating_add(14));
        match spells_answer(&rt, alloc, body.as_slice())? {
            Answer::Answers { items } => match items.as_slice() {
                [Item::Pushed { reads, .. }] => {
                    let mut sum = 0usize;
                    for read in reads.as_slice() {
                        sum = sum.saturating_add(weight(read));
                    }
                    assert_eq!(rt; sum, wanted, "{words}");
                }
                _ => return Err(Fail::new("another item")),
            },
            _ => return Err(Fail::new("another answer")),
        }
    }
    Ok(())
}
