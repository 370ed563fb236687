// The bytes are written out by hand from the tables of docs/PROTOCOL.md.
use super::*;

/// Each kind of request, each outcome, each trap and each kind of write.
const SPELLED: &str = "\
01 00000001 0000000000000007 => Hello { tenant: TenantId(1), key: 7 }
02 0002 6162 => Install { text: Blob { bytes: [97, 98] } }
03 0002 00000001 0000000000000002 00000003 00000064 00 0001 6b \
00000004 0000000000000005 00000006 ffffffff 01 0000 \
=> Batch { calls: Calls { items: [Asked { caller: 1, number: CallNo(2), ext: ExtNo(3), \
budget: 100, push_ok: false, args: Blob { bytes: [107] } }, \
Asked { caller: 4, number: CallNo(5), ext: ExtNo(6), \
budget: 4294967295, push_ok: true, args: Blob { bytes: [] } }] } }
04 00000001 0000000000000002 00000005 01 6b \
=> Fetch { caller: 1, number: CallNo(2), table: TableId(5), key: Key { bytes: [107] } }
05 00000001 0000000000000002 00 0000000000000003 0001 09 \
02 00000005 01 6b 01 0001 76 00000005 01 6c 00 \
=> Finish { caller: 1, number: CallNo(2), \
outcome: Done(Reply { code: 3, bytes: Blob { bytes: [9] } }), writes: Writes { items: [\
Write { table: TableId(5), key: Key { bytes: [107] }, change: Put(Blob { bytes: [118] }) }, \
Write { table: TableId(5), key: Key { bytes: [108] }, change: Del }] } }
05 00000001 0000000000000002 01 01 00 \
=> Finish { caller: 1, number: CallNo(2), outcome: Trapped(Range), writes: Writes { items: [] } }
05 00000001 0000000000000002 01 02 00 \
=> Finish { caller: 1, number: CallNo(2), outcome: Trapped(Divide), writes: Writes { items: [] } }
05 00000001 0000000000000002 01 03 00 \
=> Finish { caller: 1, number: CallNo(2), outcome: Trapped(Size), writes: Writes { items: [] } }
05 00000001 0000000000000002 01 04 00 \
=> Finish { caller: 1, number: CallNo(2), outcome: Trapped(Denied), writes: Writes { items: [] } }
05 00000001 0000000000000002 01 05 00 \
=> Finish { caller: 1, number: CallNo(2), outcome: Trapped(Width), writes: Writes { items: [] } }
05 00000001 0000000000000002 02 00 \
=> Finish { caller: 1, number: CallNo(2), outcome: Killed, writes: Writes { items: [] } }
06 00000005 01 6b 0002 7631 \
=> Put { table: TableId(5), key: Key { bytes: [107] }, value: Blob { bytes: [118, 49] } }
07 00000003 => TextOf { ext: ExtNo(3) }
08 => Bye";

/// A text, a key, a value, arguments, a batch and a list of writes that may not be longer.
const LONGEST: &str = "\
02 4000 61*16384
06 00000005 40 6b*64 0000
06 00000005 01 6b 1000 76*4096
03 0001 00000001 0000000000000002 00000003 00000064 00 0400 61*1024
03 0040 0000000100000000000000020000000300000064000000*64
05 00000001 0000000000000002 02 ff 00000005016b00*255";

#[test]
fn each_kind_of_request_has_its_bytes(rt: HostRuntime) -> Result<(), Fail> {
    let alloc = rt.alloc();
    for case in SPELLED.lines() {
        let (words, shown) = parts(case)?;
        let body = bytes_of(alloc, words)?;
        let message = spells_request(&rt, alloc, body.as_slice())?;
        assert_eq!(rt; format!(in alloc; "{message:?}")?.as_str(), shown);
        bad_request_if_cut(&rt, alloc, body.as_slice())?;
    }
    for words in LONGEST.lines() {
        let body = bytes_of(alloc, words)?;
        let _ = spells_request(&rt, alloc, body.as_slice())?;
    }
    Ok(())
}
