//! The smallest scripts of two calls to a counter: on one worker or two, for one record or two, and then up to
//! three events out of four. The expected lines were worked out apart from this program, by hand-made rules of
//! the counter's charges: its record is wanted with 18 units spent, and its run takes 4 more where there is
//! none, and 5 more where there is one.
//!
//! A case is three lines, each with `|` for a newline: its events, the answers to them, and the journal's
//! lines behind the one of the counter.

/// What stands before the events of each case.
pub const HEAD: &str = "tenant 1 7
table 6 1 write
workers 2
# The counter.
ext 1 1
";

pub const COUNTER: &str =
    "fn main() -> int { let n: int = 0; get(6, args()) { some s => { n = u64(s, 0); } none => { } } let b: buf = alloc(6, args(), 8); set8(b, 0, n + 1); put(b); return n + 1; }
";

pub const CASES: &str = "\
$begin 0 1 1 1 0 100 stay x61|begin 0 1 2 1 0 100 stay x61|
7 1.1.1 queued|8 1.2.1 queued|drain 1.1.1 read 6 x61 0|drain 1.2.1 read 6 x61 0|drain 1.1.1 committed 1 done 1 x|drain 1.2.1 conflict 6 x61 0 2|
journal 1 invoke 1 1 1 0 100 x61 server done 1 x reads 1 6 x61 0 writes 1 6 x61 put x0100000000000000|
$begin 0 1 1 1 0 100 stay x61|begin 0 1 2 1 0 100 stay x62|
7 1.1.1 queued|8 1.2.1 queued|drain 1.1.1 read 6 x61 0|drain 1.2.1 read 6 x62 0|drain 1.1.1 committed 1 done 1 x|drain 1.2.1 committed 2 done 1 x|
journal 1 invoke 1 1 1 0 100 x61 server done 1 x reads 1 6 x61 0 writes 1 6 x61 put x0100000000000000|journal 2 invoke 1 2 1 0 100 x62 server done 1 x reads 1 6 x62 0 writes 1 6 x62 put x0100000000000000|
$begin 0 1 1 1 0 100 stay x61|begin 1 1 2 1 0 100 stay x61|
7 1.1.1 queued|8 1.2.1 queued|drain 1.1.1 read 6 x61 0|drain 1.2.1 read 6 x61 0|drain 1.1.1 committed 1 done 1 x|drain 1.2.1 conflict 6 x61 0 2|
journal 1 invoke 1 1 1 0 100 x61 server done 1 x reads 1 6 x61 0 writes 1 6 x61 put x0100000000000000|
$begin 0 1 1 1 0 100 stay x61|begin 1 1 2 1 0 100 stay x62|
7 1.1.1 queued|8 1.2.1 queued|drain 1.1.1 read 6 x61 0|drain 1.2.1 read 6 x62 0|drain 1.1.1 committed 1 done 1 x|drain 1.2.1 committed 2 done 1 x|
journal 1 invoke 1 1 1 0 100 x61 server done 1 x reads 1 6 x61 0 writes 1 6 x61 put x0100000000000000|journal 2 invoke 1 2 1 0 100 x62 server done 1 x reads 1 6 x62 0 writes 1 6 x62 put x0100000000000000|
$begin 0 1 1 1 0 100 stay x61|begin 0 1 2 1 0 100 stay x61|turn 0 20|
7 1.1.1 queued|8 1.2.1 queued|9 1.1.1 read 6 x61 0|drain 1.2.1 read 6 x61 0|drain 1.1.1 committed 1 done 1 x|drain 1.2.1 conflict 6 x61 0 2|
journal 1 invoke 1 1 1 0 100 x61 server done 1 x reads 1 6 x61 0 writes 1 6 x61 put x0100000000000000|
$begin 0 1 1 1 0 100 stay x61|begin 0 1 2 1 0 100 stay x62|turn 0 20|
7 1.1.1 queued|8 1.2.1 queued|9 1.1.1 read 6 x61 0|drain 1.2.1 read 6 x62 0|drain 1.1.1 committed 1 done 1 x|drain 1.2.1 committed 2 done 1 x|
journal 1 invoke 1 1 1 0 100 x61 server done 1 x reads 1 6 x61 0 writes 1 6 x61 put x0100000000000000|journal 2 invoke 1 2 1 0 100 x62 server done 1 x reads 1 6 x62 0 writes 1 6 x62 put x0100000000000000|
$begin 0 1 1 1 0 100 stay x61|begin 1 1 2 1 0 100 stay x61|turn 0 20|
7 1.1.1 queued|8 1.2.1 queued|9 1.1.1 read 6 x61 0|drain 1.1.1 committed 1 done 1 x|drain 1.2.1 read 6 x61 2|drain 1.2.1 committed 2 done 2 x|
journal 1 invoke 1 1 1 0 100 x61 server done 1 x reads 1 6 x61 0 writes 1 6 x61 put x0100000000000000|journal 2 invoke 1 2 1 0 100 x61 server done 2 x reads 1 6 x61 2 writes 1 6 x61 put x0200000000000000|
$begin 0 1 1 1 0 100 stay x61|begin 1 1 2 1 0 100 stay x62|turn 0 20|
7 1.1.1 queued|8 1.2.1 queued|9 1.1.1 read 6 x61 0|drain 1.1.1 committed 1 done 1 x|drain 1.2.1 read 6 x62 0|drain 1.2.1 committed 2 done 1 x|
journal 1 invoke 1 1 1 0 100 x61 server done 1 x reads 1 6 x61 0 writes 1 6 x61 put x0100000000000000|journal 2 invoke 1 2 1 0 100 x62 server done 1 x reads 1 6 x62 0 writes 1 6 x62 put x0100000000000000|
$begin 0 1 1 1 0 100 stay x61|begin 0 1 2 1 0 100 stay x61|turn 1 20|
7 1.1.1 queued|8 1.2.1 queued|9 idle|drain 1.1.1 read 6 x61 0|drain 1.2.1 read 6 x61 0|drain 1.1.1 committed 1 done 1 x|drain 1.2.1 conflict 6 x61 0 2|
journal 1 invoke 1 1 1 0 100 x61 server done 1 x reads 1 6 x61 0 writes 1 6 x61 put x0100000000000000|
$begin 0 1 1 1 0 100 stay x61|begin 0 1 2 1 0 100 stay x62|turn 1 20|
7 1.1.1 queued|8 1.2.1 queued|9 idle|drain 1.1.1 read 6 x61 0|drain 1.2.1 read 6 x62 0|drain 1.1.1 committed 1 done 1 x|drain 1.2.1 committed 2 done 1 x|
journal 1 invoke 1 1 1 0 100 x61 server done 1 x reads 1 6 x61 0 writes 1 6 x61 put x0100000000000000|journal 2 invoke 1 2 1 0 100 x62 server done 1 x reads 1 6 x62 0 writes 1 6 x62 put x0100000000000000|
$begin 0 1 1 1 0 100 stay x61|begin 1 1 2 1 0 100 stay x61|turn 1 20|
7 1.1.1 queued|8 1.2.1 queued|9 1.2.1 read 6 x61 0|drain 1.1.1 read 6 x61 0|drain 1.2.1 committed 1 done 1 x|drain 1.1.1 conflict 6 x61 0 2|
journal 1 invoke 1 2 1 0 100 x61 server done 1 x reads 1 6 x61 0 writes 1 6 x61 put x0100000000000000|
$begin 0 1 1 1 0 100 stay x61|begin 1 1 2 1 0 100 stay x62|turn 1 20|
7 1.1.1 queued|8 1.2.1 queued|9 1.2.1 read 6 x62 0|drain 1.1.1 read 6 x61 0|drain 1.2.1 committed 1 done 1 x|drain 1.1.1 committed 2 done 1 x|
journal 1 invoke 1 2 1 0 100 x62 server done 1 x reads 1 6 x62 0 writes 1 6 x62 put x0100000000000000|journal 2 invoke 1 1 1 0 100 x61 server done 1 x reads 1 6 x61 0 writes 1 6 x61 put x0100000000000000|
$begin 0 1 1 1 0 100 stay x61|begin 0 1 2 1 0 100 stay x61|turn 0 9|
7 1.1.1 queued|8 1.2.1 queued|9 1.1.1 on 9|drain 1.2.1 read 6 x61 0|drain 1.1.1 read 6 x61 0|drain 1.2.1 committed 1 done 1 x|drain 1.1.1 conflict 6 x61 0 2|
journal 1 invoke 1 2 1 0 100 x61 server done 1 x reads 1 6 x61 0 writes 1 6 x61 put x0100000000000000|
$begin 0 1 1 1 0 100 stay x61|begin 0 1 2 1 0 100 stay x62|turn 0 9|
7 1.1.1 queued|8 1.2.1 queued|9 1.1.1 on 9|drain 1.2.1 read 6 x62 0|drain 1.1.1 read 6 x61 0|drain 1.2.1 committed 1 done 1 x|drain 1.1.1 committed 2 done 1 x|
journal 1 invoke 1 2 1 0 100 x62 server done 1 x reads 1 6 x62 0 writes 1 6 x62 put x0100000000000000|journal 2 invoke 1 1 1 0 100 x61 server done 1 x reads 1 6 x61 0 writes 1 6 x61 put x0100000000000000|
$begin 0 1 1 1 0 100 stay x61|begin 1 1 2 1 0 100 stay x61|turn 0 9|
7 1.1.1 queued|8 1.2.1 queued|9 1.1.1 on 9|drain 1.1.1 read 6 x61 0|drain 1.2.1 read 6 x61 0|drain 1.1.1 committed 1 done 1 x|drain 1.2.1 conflict 6 x61 0 2|
journal 1 invoke 1 1 1 0 100 x61 server done 1 x reads 1 6 x61 0 writes 1 6 x61 put x0100000000000000|
$begin 0 1 1 1 0 100 stay x61|begin 1 1 2 1 0 100 stay x62|turn 0 9|
7 1.1.1 queued|8 1.2.1 queued|9 1.1.1 on 9|drain 1.1.1 read 6 x61 0|drain 1.2.1 read 6 x62 0|drain 1.1.1 committed 1 done 1 x|drain 1.2.1 committed 2 done 1 x|
journal 1 invoke 1 1 1 0 100 x61 server done 1 x reads 1 6 x61 0 writes 1 6 x61 put x0100000000000000|journal 2 invoke 1 2 1 0 100 x62 server done 1 x reads 1 6 x62 0 writes 1 6 x62 put x0100000000000000|
$begin 0 1 1 1 0 100 stay x61|begin 0 1 2 1 0 100 stay x61|steal 1 0|
7 1.1.1 queued|8 1.2.1 queued|9 1.1.1 moved|drain 1.2.1 read 6 x61 0|drain 1.1.1 read 6 x61 0|drain 1.2.1 committed 1 done 1 x|drain 1.1.1 conflict 6 x61 0 2|
journal 1 invoke 1 2 1 0 100 x61 server done 1 x reads 1 6 x61 0 writes 1 6 x61 put x0100000000000000|
$begin 0 1 1 1 0 100 stay x61|begin 0 1 2 1 0 100 stay x62|steal 1 0|
7 1.1.1 queued|8 1.2.1 queued|9 1.1.1 moved|drain 1.2.1 read 6 x62 0|drain 1.1.1 read 6 x61 0|drain 1.2.1 committed 1 done 1 x|drain 1.1.1 committed 2 done 1 x|
journal 1 invoke 1 2 1 0 100 x62 server done 1 x reads 1 6 x62 0 writes 1 6 x62 put x0100000000000000|journal 2 invoke 1 1 1 0 100 x61 server done 1 x reads 1 6 x61 0 writes 1 6 x61 put x0100000000000000|
$begin 0 1 1 1 0 100 stay x61|begin 1 1 2 1 0 100 stay x61|steal 1 0|
7 1.1.1 queued|8 1.2.1 queued|9 1.1.1 moved|drain 1.2.1 read 6 x61 0|drain 1.1.1 read 6 x61 0|drain 1.2.1 committed 1 done 1 x|drain 1.1.1 conflict 6 x61 0 2|
journal 1 invoke 1 2 1 0 100 x61 server done 1 x reads 1 6 x61 0 writes 1 6 x61 put x0100000000000000|
$begin 0 1 1 1 0 100 stay x61|begin 1 1 2 1 0 100 stay x62|steal 1 0|
7 1.1.1 queued|8 1.2.1 queued|9 1.1.1 moved|drain 1.2.1 read 6 x62 0|drain 1.1.1 read 6 x61 0|drain 1.2.1 committed 1 done 1 x|drain 1.1.1 committed 2 done 1 x|
journal 1 invoke 1 2 1 0 100 x62 server done 1 x reads 1 6 x62 0 writes 1 6 x62 put x0100000000000000|journal 2 invoke 1 1 1 0 100 x61 server done 1 x reads 1 6 x61 0 writes 1 6 x61 put x0100000000000000|
$begin 0 1 1 1 0 100 stay x61|begin 0 1 2 1 0 100 stay x61|turn 0 20|turn 0 20|
7 1.1.1 queued|8 1.2.1 queued|9 1.1.1 read 6 x61 0|10 1.2.1 read 6 x61 0|drain 1.1.1 committed 1 done 1 x|drain 1.2.1 conflict 6 x61 0 2|
journal 1 invoke 1 1 1 0 100 x61 server done 1 x reads 1 6 x61 0 writes 1 6 x61 put x0100000000000000|
$begin 0 1 1 1 0 100 stay x61|begin 0 1 2 1 0 100 stay x62|turn 0 20|turn 0 20|
7 1.1.1 queued|8 1.2.1 queued|9 1.1.1 read 6 x61 0|10 1.2.1 read 6 x62 0|drain 1.1.1 committed 1 done 1 x|drain 1.2.1 committed 2 done 1 x|
journal 1 invoke 1 1 1 0 100 x61 server done 1 x reads 1 6 x61 0 writes 1 6 x61 put x0100000000000000|journal 2 invoke 1 2 1 0 100 x62 server done 1 x reads 1 6 x62 0 writes 1 6 x62 put x0100000000000000|
$begin 0 1 1 1 0 100 stay x61|begin 1 1 2 1 0 100 stay x61|turn 0 20|turn 0 20|
7 1.1.1 queued|8 1.2.1 queued|9 1.1.1 read 6 x61 0|10 1.1.1 committed 1 done 1 x|drain 1.2.1 read 6 x61 2|drain 1.2.1 committed 2 done 2 x|
journal 1 invoke 1 1 1 0 100 x61 server done 1 x reads 1 6 x61 0 writes 1 6 x61 put x0100000000000000|journal 2 invoke 1 2 1 0 100 x61 server done 2 x reads 1 6 x61 2 writes 1 6 x61 put x0200000000000000|
$begin 0 1 1 1 0 100 stay x61|begin 1 1 2 1 0 100 stay x62|turn 0 20|turn 0 20|
7 1.1.1 queued|8 1.2.1 queued|9 1.1.1 read 6 x61 0|10 1.1.1 committed 1 done 1 x|drain 1.2.1 read 6 x62 0|drain 1.2.1 committed 2 done 1 x|
journal 1 invoke 1 1 1 0 100 x61 server done 1 x reads 1 6 x61 0 writes 1 6 x61 put x0100000000000000|journal 2 invoke 1 2 1 0 100 x62 server done 1 x reads 1 6 x62 0 writes 1 6 x62 put x0100000000000000|
$begin 0 1 1 1 0 100 stay x61|begin 0 1 2 1 0 100 stay x61|turn 0 20|turn 1 20|
7 1.1.1 queued|8 1.2.1 queued|9 1.1.1 read 6 x61 0|10 idle|drain 1.2.1 read 6 x61 0|drain 1.1.1 committed 1 done 1 x|drain 1.2.1 conflict 6 x61 0 2|
journal 1 invoke 1 1 1 0 100 x61 server done 1 x reads 1 6 x61 0 writes 1 6 x61 put x0100000000000000|
$begin 0 1 1 1 0 100 stay x61|begin 0 1 2 1 0 100 stay x62|turn 0 20|turn 1 20|
7 1.1.1 queued|8 1.2.1 queued|9 1.1.1 read 6 x61 0|10 idle|drain 1.2.1 read 6 x62 0|drain 1.1.1 committed 1 done 1 x|drain 1.2.1 committed 2 done 1 x|
journal 1 invoke 1 1 1 0 100 x61 server done 1 x reads 1 6 x61 0 writes 1 6 x61 put x0100000000000000|journal 2 invoke 1 2 1 0 100 x62 server done 1 x reads 1 6 x62 0 writes 1 6 x62 put x0100000000000000|
$begin 0 1 1 1 0 100 stay x61|begin 1 1 2 1 0 100 stay x61|turn 0 20|turn 1 20|
7 1.1.1 queued|8 1.2.1 queued|9 1.1.1 read 6 x61 0|10 1.2.1 read 6 x61 0|drain 1.1.1 committed 1 done 1 x|drain 1.2.1 conflict 6 x61 0 2|
journal 1 invoke 1 1 1 0 100 x61 server done 1 x reads 1 6 x61 0 writes 1 6 x61 put x0100000000000000|
$begin 0 1 1 1 0 100 stay x61|begin 1 1 2 1 0 100 stay x62|turn 0 20|turn 1 20|
7 1.1.1 queued|8 1.2.1 queued|9 1.1.1 read 6 x61 0|10 1.2.1 read 6 x62 0|drain 1.1.1 committed 1 done 1 x|drain 1.2.1 committed 2 done 1 x|
journal 1 invoke 1 1 1 0 100 x61 server done 1 x reads 1 6 x61 0 writes 1 6 x61 put x0100000000000000|journal 2 invoke 1 2 1 0 100 x62 server done 1 x reads 1 6 x62 0 writes 1 6 x62 put x0100000000000000|
$begin 0 1 1 1 0 100 stay x61|begin 0 1 2 1 0 100 stay x61|turn 0 20|turn 0 9|
7 1.1.1 queued|8 1.2.1 queued|9 1.1.1 read 6 x61 0|10 1.2.1 on 9|drain 1.1.1 committed 1 done 1 x|drain 1.2.1 read 6 x61 2|drain 1.2.1 committed 2 done 2 x|
journal 1 invoke 1 1 1 0 100 x61 server done 1 x reads 1 6 x61 0 writes 1 6 x61 put x0100000000000000|journal 2 invoke 1 2 1 0 100 x61 server done 2 x reads 1 6 x61 2 writes 1 6 x61 put x0200000000000000|
$begin 0 1 1 1 0 100 stay x61|begin 0 1 2 1 0 100 stay x62|turn 0 20|turn 0 9|
7 1.1.1 queued|8 1.2.1 queued|9 1.1.1 read 6 x61 0|10 1.2.1 on 9|drain 1.1.1 committed 1 done 1 x|drain 1.2.1 read 6 x62 0|drain 1.2.1 committed 2 done 1 x|
journal 1 invoke 1 1 1 0 100 x61 server done 1 x reads 1 6 x61 0 writes 1 6 x61 put x0100000000000000|journal 2 invoke 1 2 1 0 100 x62 server done 1 x reads 1 6 x62 0 writes 1 6 x62 put x0100000000000000|
$begin 0 1 1 1 0 100 stay x61|begin 1 1 2 1 0 100 stay x61|turn 0 20|turn 0 9|
7 1.1.1 queued|8 1.2.1 queued|9 1.1.1 read 6 x61 0|10 1.1.1 committed 1 done 1 x|drain 1.2.1 read 6 x61 2|drain 1.2.1 committed 2 done 2 x|
journal 1 invoke 1 1 1 0 100 x61 server done 1 x reads 1 6 x61 0 writes 1 6 x61 put x0100000000000000|journal 2 invoke 1 2 1 0 100 x61 server done 2 x reads 1 6 x61 2 writes 1 6 x61 put x0200000000000000|
$begin 0 1 1 1 0 100 stay x61|begin 1 1 2 1 0 100 stay x62|turn 0 20|turn 0 9|
7 1.1.1 queued|8 1.2.1 queued|9 1.1.1 read 6 x61 0|10 1.1.1 committed 1 done 1 x|drain 1.2.1 read 6 x62 0|drain 1.2.1 committed 2 done 1 x|
journal 1 invoke 1 1 1 0 100 x61 server done 1 x reads 1 6 x61 0 writes 1 6 x61 put x0100000000000000|journal 2 invoke 1 2 1 0 100 x62 server done 1 x reads 1 6 x62 0 writes 1 6 x62 put x0100000000000000|
$begin 0 1 1 1 0 100 stay x61|begin 0 1 2 1 0 100 stay x61|turn 0 20|steal 1 0|
7 1.1.1 queued|8 1.2.1 queued|9 1.1.1 read 6 x61 0|10 1.2.1 moved|drain 1.1.1 committed 1 done 1 x|drain 1.2.1 read 6 x61 2|drain 1.2.1 committed 2 done 2 x|
journal 1 invoke 1 1 1 0 100 x61 server done 1 x reads 1 6 x61 0 writes 1 6 x61 put x0100000000000000|journal 2 invoke 1 2 1 0 100 x61 server done 2 x reads 1 6 x61 2 writes 1 6 x61 put x0200000000000000|
$begin 0 1 1 1 0 100 stay x61|begin 0 1 2 1 0 100 stay x62|turn 0 20|steal 1 0|
7 1.1.1 queued|8 1.2.1 queued|9 1.1.1 read 6 x61 0|10 1.2.1 moved|drain 1.1.1 committed 1 done 1 x|drain 1.2.1 read 6 x62 0|drain 1.2.1 committed 2 done 1 x|
journal 1 invoke 1 1 1 0 100 x61 server done 1 x reads 1 6 x61 0 writes 1 6 x61 put x0100000000000000|journal 2 invoke 1 2 1 0 100 x62 server done 1 x reads 1 6 x62 0 writes 1 6 x62 put x0100000000000000|
$begin 0 1 1 1 0 100 stay x61|begin 1 1 2 1 0 100 stay x61|turn 0 20|steal 1 0|
7 1.1.1 queued|8 1.2.1 queued|9 1.1.1 read 6 x61 0|10 1.1.1 moved|drain 1.2.1 read 6 x61 0|drain 1.1.1 committed 1 done 1 x|drain 1.2.1 conflict 6 x61 0 2|
journal 1 invoke 1 1 1 0 100 x61 server done 1 x reads 1 6 x61 0 writes 1 6 x61 put x0100000000000000|
$begin 0 1 1 1 0 100 stay x61|begin 1 1 2 1 0 100 stay x62|turn 0 20|steal 1 0|
7 1.1.1 queued|8 1.2.1 queued|9 1.1.1 read 6 x61 0|10 1.1.1 moved|drain 1.2.1 read 6 x62 0|drain 1.1.1 committed 1 done 1 x|drain 1.2.1 committed 2 done 1 x|
journal 1 invoke 1 1 1 0 100 x61 server done 1 x reads 1 6 x61 0 writes 1 6 x61 put x0100000000000000|journal 2 invoke 1 2 1 0 100 x62 server done 1 x reads 1 6 x62 0 writes 1 6 x62 put x0100000000000000|
$begin 0 1 1 1 0 100 stay x61|begin 0 1 2 1 0 100 stay x61|turn 1 20|turn 0 20|
7 1.1.1 queued|8 1.2.1 queued|9 idle|10 1.1.1 read 6 x61 0|drain 1.2.1 read 6 x61 0|drain 1.1.1 committed 1 done 1 x|drain 1.2.1 conflict 6 x61 0 2|
journal 1 invoke 1 1 1 0 100 x61 server done 1 x reads 1 6 x61 0 writes 1 6 x61 put x0100000000000000|
$begin 0 1 1 1 0 100 stay x61|begin 0 1 2 1 0 100 stay x62|turn 1 20|turn 0 20|
7 1.1.1 queued|8 1.2.1 queued|9 idle|10 1.1.1 read 6 x61 0|drain 1.2.1 read 6 x62 0|drain 1.1.1 committed 1 done 1 x|drain 1.2.1 committed 2 done 1 x|
journal 1 invoke 1 1 1 0 100 x61 server done 1 x reads 1 6 x61 0 writes 1 6 x61 put x0100000000000000|journal 2 invoke 1 2 1 0 100 x62 server done 1 x reads 1 6 x62 0 writes 1 6 x62 put x0100000000000000|
$begin 0 1 1 1 0 100 stay x61|begin 1 1 2 1 0 100 stay x61|turn 1 20|turn 0 20|
7 1.1.1 queued|8 1.2.1 queued|9 1.2.1 read 6 x61 0|10 1.1.1 read 6 x61 0|drain 1.1.1 committed 1 done 1 x|drain 1.2.1 conflict 6 x61 0 2|
journal 1 invoke 1 1 1 0 100 x61 server done 1 x reads 1 6 x61 0 writes 1 6 x61 put x0100000000000000|
$begin 0 1 1 1 0 100 stay x61|begin 1 1 2 1 0 100 stay x62|turn 1 20|turn 0 20|
7 1.1.1 queued|8 1.2.1 queued|9 1.2.1 read 6 x62 0|10 1.1.1 read 6 x61 0|drain 1.1.1 committed 1 done 1 x|drain 1.2.1 committed 2 done 1 x|
journal 1 invoke 1 1 1 0 100 x61 server done 1 x reads 1 6 x61 0 writes 1 6 x61 put x0100000000000000|journal 2 invoke 1 2 1 0 100 x62 server done 1 x reads 1 6 x62 0 writes 1 6 x62 put x0100000000000000|
$begin 0 1 1 1 0 100 stay x61|begin 0 1 2 1 0 100 stay x61|turn 1 20|turn 1 20|
7 1.1.1 queued|8 1.2.1 queued|9 idle|10 idle|drain 1.1.1 read 6 x61 0|drain 1.2.1 read 6 x61 0|drain 1.1.1 committed 1 done 1 x|drain 1.2.1 conflict 6 x61 0 2|
journal 1 invoke 1 1 1 0 100 x61 server done 1 x reads 1 6 x61 0 writes 1 6 x61 put x0100000000000000|
$begin 0 1 1 1 0 100 stay x61|begin 0 1 2 1 0 100 stay x62|turn 1 20|turn 1 20|
7 1.1.1 queued|8 1.2.1 queued|9 idle|10 idle|drain 1.1.1 read 6 x61 0|drain 1.2.1 read 6 x62 0|drain 1.1.1 committed 1 done 1 x|drain 1.2.1 committed 2 done 1 x|
journal 1 invoke 1 1 1 0 100 x61 server done 1 x reads 1 6 x61 0 writes 1 6 x61 put x0100000000000000|journal 2 invoke 1 2 1 0 100 x62 server done 1 x reads 1 6 x62 0 writes 1 6 x62 put x0100000000000000|
$begin 0 1 1 1 0 100 stay x61|begin 1 1 2 1 0 100 stay x61|turn 1 20|turn 1 20|
7 1.1.1 queued|8 1.2.1 queued|9 1.2.1 read 6 x61 0|10 1.2.1 committed 1 done 1 x|drain 1.1.1 read 6 x61 2|drain 1.1.1 committed 2 done 2 x|
journal 1 invoke 1 2 1 0 100 x61 server done 1 x reads 1 6 x61 0 writes 1 6 x61 put x0100000000000000|journal 2 invoke 1 1 1 0 100 x61 server done 2 x reads 1 6 x61 2 writes 1 6 x61 put x0200000000000000|
$begin 0 1 1 1 0 100 stay x61|begin 1 1 2 1 0 100 stay x62|turn 1 20|turn 1 20|
7 1.1.1 queued|8 1.2.1 queued|9 1.2.1 read 6 x62 0|10 1.2.1 committed 1 done 1 x|drain 1.1.1 read 6 x61 0|drain 1.1.1 committed 2 done 1 x|
journal 1 invoke 1 2 1 0 100 x62 server done 1 x reads 1 6 x62 0 writes 1 6 x62 put x0100000000000000|journal 2 invoke 1 1 1 0 100 x61 server done 1 x reads 1 6 x61 0 writes 1 6 x61 put x0100000000000000|
$begin 0 1 1 1 0 100 stay x61|begin 0 1 2 1 0 100 stay x61|turn 1 20|turn 0 9|
7 1.1.1 queued|8 1.2.1 queued|9 idle|10 1.1.1 on 9|drain 1.2.1 read 6 x61 0|drain 1.1.1 read 6 x61 0|drain 1.2.1 committed 1 done 1 x|drain 1.1.1 conflict 6 x61 0 2|
journal 1 invoke 1 2 1 0 100 x61 server done 1 x reads 1 6 x61 0 writes 1 6 x61 put x0100000000000000|
$begin 0 1 1 1 0 100 stay x61|begin 0 1 2 1 0 100 stay x62|turn 1 20|turn 0 9|
7 1.1.1 queued|8 1.2.1 queued|9 idle|10 1.1.1 on 9|drain 1.2.1 read 6 x62 0|drain 1.1.1 read 6 x61 0|drain 1.2.1 committed 1 done 1 x|drain 1.1.1 committed 2 done 1 x|
journal 1 invoke 1 2 1 0 100 x62 server done 1 x reads 1 6 x62 0 writes 1 6 x62 put x0100000000000000|journal 2 invoke 1 1 1 0 100 x61 server done 1 x reads 1 6 x61 0 writes 1 6 x61 put x0100000000000000|
$begin 0 1 1 1 0 100 stay x61|begin 1 1 2 1 0 100 stay x61|turn 1 20|turn 0 9|
7 1.1.1 queued|8 1.2.1 queued|9 1.2.1 read 6 x61 0|10 1.1.1 on 9|drain 1.1.1 read 6 x61 0|drain 1.2.1 committed 1 done 1 x|drain 1.1.1 conflict 6 x61 0 2|
journal 1 invoke 1 2 1 0 100 x61 server done 1 x reads 1 6 x61 0 writes 1 6 x61 put x0100000000000000|
$begin 0 1 1 1 0 100 stay x61|begin 1 1 2 1 0 100 stay x62|turn 1 20|turn 0 9|
7 1.1.1 queued|8 1.2.1 queued|9 1.2.1 read 6 x62 0|10 1.1.1 on 9|drain 1.1.1 read 6 x61 0|drain 1.2.1 committed 1 done 1 x|drain 1.1.1 committed 2 done 1 x|
journal 1 invoke 1 2 1 0 100 x62 server done 1 x reads 1 6 x62 0 writes 1 6 x62 put x0100000000000000|journal 2 invoke 1 1 1 0 100 x61 server done 1 x reads 1 6 x61 0 writes 1 6 x61 put x0100000000000000|
$begin 0 1 1 1 0 100 stay x61|begin 0 1 2 1 0 100 stay x61|turn 1 20|steal 1 0|
7 1.1.1 queued|8 1.2.1 queued|9 idle|10 1.1.1 moved|drain 1.2.1 read 6 x61 0|drain 1.1.1 read 6 x61 0|drain 1.2.1 committed 1 done 1 x|drain 1.1.1 conflict 6 x61 0 2|
journal 1 invoke 1 2 1 0 100 x61 server done 1 x reads 1 6 x61 0 writes 1 6 x61 put x0100000000000000|
$begin 0 1 1 1 0 100 stay x61|begin 0 1 2 1 0 100 stay x62|turn 1 20|steal 1 0|
7 1.1.1 queued|8 1.2.1 queued|9 idle|10 1.1.1 moved|drain 1.2.1 read 6 x62 0|drain 1.1.1 read 6 x61 0|drain 1.2.1 committed 1 done 1 x|drain 1.1.1 committed 2 done 1 x|
journal 1 invoke 1 2 1 0 100 x62 server done 1 x reads 1 6 x62 0 writes 1 6 x62 put x0100000000000000|journal 2 invoke 1 1 1 0 100 x61 server done 1 x reads 1 6 x61 0 writes 1 6 x61 put x0100000000000000|
$begin 0 1 1 1 0 100 stay x61|begin 1 1 2 1 0 100 stay x61|turn 1 20|steal 1 0|
7 1.1.1 queued|8 1.2.1 queued|9 1.2.1 read 6 x61 0|10 1.1.1 moved|drain 1.2.1 committed 1 done 1 x|drain 1.1.1 read 6 x61 2|drain 1.1.1 committed 2 done 2 x|
journal 1 invoke 1 2 1 0 100 x61 server done 1 x reads 1 6 x61 0 writes 1 6 x61 put x0100000000000000|journal 2 invoke 1 1 1 0 100 x61 server done 2 x reads 1 6 x61 2 writes 1 6 x61 put x0200000000000000|
$begin 0 1 1 1 0 100 stay x61|begin 1 1 2 1 0 100 stay x62|turn 1 20|steal 1 0|
7 1.1.1 queued|8 1.2.1 queued|9 1.2.1 read 6 x62 0|10 1.1.1 moved|drain 1.2.1 committed 1 done 1 x|drain 1.1.1 read 6 x61 0|drain 1.1.1 committed 2 done 1 x|
journal 1 invoke 1 2 1 0 100 x62 server done 1 x reads 1 6 x62 0 writes 1 6 x62 put x0100000000000000|journal 2 invoke 1 1 1 0 100 x61 server done 1 x reads 1 6 x61 0 writes 1 6 x61 put x0100000000000000|
$begin 0 1 1 1 0 100 stay x61|begin 0 1 2 1 0 100 stay x61|turn 0 9|turn 0 20|
7 1.1.1 queued|8 1.2.1 queued|9 1.1.1 on 9|10 1.2.1 read 6 x61 0|drain 1.1.1 read 6 x61 0|drain 1.2.1 committed 1 done 1 x|drain 1.1.1 conflict 6 x61 0 2|
journal 1 invoke 1 2 1 0 100 x61 server done 1 x reads 1 6 x61 0 writes 1 6 x61 put x0100000000000000|
$begin 0 1 1 1 0 100 stay x61|begin 0 1 2 1 0 100 stay x62|turn 0 9|turn 0 20|
7 1.1.1 queued|8 1.2.1 queued|9 1.1.1 on 9|10 1.2.1 read 6 x62 0|drain 1.1.1 read 6 x61 0|drain 1.2.1 committed 1 done 1 x|drain 1.1.1 committed 2 done 1 x|
journal 1 invoke 1 2 1 0 100 x62 server done 1 x reads 1 6 x62 0 writes 1 6 x62 put x0100000000000000|journal 2 invoke 1 1 1 0 100 x61 server done 1 x reads 1 6 x61 0 writes 1 6 x61 put x0100000000000000|
$begin 0 1 1 1 0 100 stay x61|begin 1 1 2 1 0 100 stay x61|turn 0 9|turn 0 20|
7 1.1.1 queued|8 1.2.1 queued|9 1.1.1 on 9|10 1.1.1 read 6 x61 0|drain 1.1.1 committed 1 done 1 x|drain 1.2.1 read 6 x61 2|drain 1.2.1 committed 2 done 2 x|
journal 1 invoke 1 1 1 0 100 x61 server done 1 x reads 1 6 x61 0 writes 1 6 x61 put x0100000000000000|journal 2 invoke 1 2 1 0 100 x61 server done 2 x reads 1 6 x61 2 writes 1 6 x61 put x0200000000000000|
$begin 0 1 1 1 0 100 stay x61|begin 1 1 2 1 0 100 stay x62|turn 0 9|turn 0 20|
7 1.1.1 queued|8 1.2.1 queued|9 1.1.1 on 9|10 1.1.1 read 6 x61 0|drain 1.1.1 committed 1 done 1 x|drain 1.2.1 read 6 x62 0|drain 1.2.1 committed 2 done 1 x|
journal 1 invoke 1 1 1 0 100 x61 server done 1 x reads 1 6 x61 0 writes 1 6 x61 put x0100000000000000|journal 2 invoke 1 2 1 0 100 x62 server done 1 x reads 1 6 x62 0 writes 1 6 x62 put x0100000000000000|
$begin 0 1 1 1 0 100 stay x61|begin 0 1 2 1 0 100 stay x61|turn 0 9|turn 1 20|
7 1.1.1 queued|8 1.2.1 queued|9 1.1.1 on 9|10 idle|drain 1.2.1 read 6 x61 0|drain 1.1.1 read 6 x61 0|drain 1.2.1 committed 1 done 1 x|drain 1.1.1 conflict 6 x61 0 2|
journal 1 invoke 1 2 1 0 100 x61 server done 1 x reads 1 6 x61 0 writes 1 6 x61 put x0100000000000000|
$begin 0 1 1 1 0 100 stay x61|begin 0 1 2 1 0 100 stay x62|turn 0 9|turn 1 20|
7 1.1.1 queued|8 1.2.1 queued|9 1.1.1 on 9|10 idle|drain 1.2.1 read 6 x62 0|drain 1.1.1 read 6 x61 0|drain 1.2.1 committed 1 done 1 x|drain 1.1.1 committed 2 done 1 x|
journal 1 invoke 1 2 1 0 100 x62 server done 1 x reads 1 6 x62 0 writes 1 6 x62 put x0100000000000000|journal 2 invoke 1 1 1 0 100 x61 server done 1 x reads 1 6 x61 0 writes 1 6 x61 put x0100000000000000|
$begin 0 1 1 1 0 100 stay x61|begin 1 1 2 1 0 100 stay x61|turn 0 9|turn 1 20|
7 1.1.1 queued|8 1.2.1 queued|9 1.1.1 on 9|10 1.2.1 read 6 x61 0|drain 1.1.1 read 6 x61 0|drain 1.2.1 committed 1 done 1 x|drain 1.1.1 conflict 6 x61 0 2|
journal 1 invoke 1 2 1 0 100 x61 server done 1 x reads 1 6 x61 0 writes 1 6 x61 put x0100000000000000|
$begin 0 1 1 1 0 100 stay x61|begin 1 1 2 1 0 100 stay x62|turn 0 9|turn 1 20|
7 1.1.1 queued|8 1.2.1 queued|9 1.1.1 on 9|10 1.2.1 read 6 x62 0|drain 1.1.1 read 6 x61 0|drain 1.2.1 committed 1 done 1 x|drain 1.1.1 committed 2 done 1 x|
journal 1 invoke 1 2 1 0 100 x62 server done 1 x reads 1 6 x62 0 writes 1 6 x62 put x0100000000000000|journal 2 invoke 1 1 1 0 100 x61 server done 1 x reads 1 6 x61 0 writes 1 6 x61 put x0100000000000000|
$begin 0 1 1 1 0 100 stay x61|begin 0 1 2 1 0 100 stay x61|turn 0 9|turn 0 9|
7 1.1.1 queued|8 1.2.1 queued|9 1.1.1 on 9|10 1.2.1 on 9|drain 1.1.1 read 6 x61 0|drain 1.2.1 read 6 x61 0|drain 1.1.1 committed 1 done 1 x|drain 1.2.1 conflict 6 x61 0 2|
journal 1 invoke 1 1 1 0 100 x61 server done 1 x reads 1 6 x61 0 writes 1 6 x61 put x0100000000000000|
$begin 0 1 1 1 0 100 stay x61|begin 0 1 2 1 0 100 stay x62|turn 0 9|turn 0 9|
7 1.1.1 queued|8 1.2.1 queued|9 1.1.1 on 9|10 1.2.1 on 9|drain 1.1.1 read 6 x61 0|drain 1.2.1 read 6 x62 0|drain 1.1.1 committed 1 done 1 x|drain 1.2.1 committed 2 done 1 x|
journal 1 invoke 1 1 1 0 100 x61 server done 1 x reads 1 6 x61 0 writes 1 6 x61 put x0100000000000000|journal 2 invoke 1 2 1 0 100 x62 server done 1 x reads 1 6 x62 0 writes 1 6 x62 put x0100000000000000|
$begin 0 1 1 1 0 100 stay x61|begin 1 1 2 1 0 100 stay x61|turn 0 9|turn 0 9|
7 1.1.1 queued|8 1.2.1 queued|9 1.1.1 on 9|10 1.1.1 read 6 x61 0|drain 1.1.1 committed 1 done 1 x|drain 1.2.1 read 6 x61 2|drain 1.2.1 committed 2 done 2 x|
journal 1 invoke 1 1 1 0 100 x61 server done 1 x reads 1 6 x61 0 writes 1 6 x61 put x0100000000000000|journal 2 invoke 1 2 1 0 100 x61 server done 2 x reads 1 6 x61 2 writes 1 6 x61 put x0200000000000000|
$begin 0 1 1 1 0 100 stay x61|begin 1 1 2 1 0 100 stay x62|turn 0 9|turn 0 9|
7 1.1.1 queued|8 1.2.1 queued|9 1.1.1 on 9|10 1.1.1 read 6 x61 0|drain 1.1.1 committed 1 done 1 x|drain 1.2.1 read 6 x62 0|drain 1.2.1 committed 2 done 1 x|
journal 1 invoke 1 1 1 0 100 x61 server done 1 x reads 1 6 x61 0 writes 1 6 x61 put x0100000000000000|journal 2 invoke 1 2 1 0 100 x62 server done 1 x reads 1 6 x62 0 writes 1 6 x62 put x0100000000000000|
$begin 0 1 1 1 0 100 stay x61|begin 0 1 2 1 0 100 stay x61|turn 0 9|steal 1 0|
7 1.1.1 queued|8 1.2.1 queued|9 1.1.1 on 9|10 1.2.1 moved|drain 1.1.1 read 6 x61 0|drain 1.2.1 read 6 x61 0|drain 1.1.1 committed 1 done 1 x|drain 1.2.1 conflict 6 x61 0 2|
journal 1 invoke 1 1 1 0 100 x61 server done 1 x reads 1 6 x61 0 writes 1 6 x61 put x0100000000000000|
$begin 0 1 1 1 0 100 stay x61|begin 0 1 2 1 0 100 stay x62|turn 0 9|steal 1 0|
7 1.1.1 queued|8 1.2.1 queued|9 1.1.1 on 9|10 1.2.1 moved|drain 1.1.1 read 6 x61 0|drain 1.2.1 read 6 x62 0|drain 1.1.1 committed 1 done 1 x|drain 1.2.1 committed 2 done 1 x|
journal 1 invoke 1 1 1 0 100 x61 server done 1 x reads 1 6 x61 0 writes 1 6 x61 put x0100000000000000|journal 2 invoke 1 2 1 0 100 x62 server done 1 x reads 1 6 x62 0 writes 1 6 x62 put x0100000000000000|
$begin 0 1 1 1 0 100 stay x61|begin 1 1 2 1 0 100 stay x61|turn 0 9|steal 1 0|
7 1.1.1 queued|8 1.2.1 queued|9 1.1.1 on 9|10 1.1.1 moved|drain 1.2.1 read 6 x61 0|drain 1.1.1 read 6 x61 0|drain 1.2.1 committed 1 done 1 x|drain 1.1.1 conflict 6 x61 0 2|
journal 1 invoke 1 2 1 0 100 x61 server done 1 x reads 1 6 x61 0 writes 1 6 x61 put x0100000000000000|
$begin 0 1 1 1 0 100 stay x61|begin 1 1 2 1 0 100 stay x62|turn 0 9|steal 1 0|
7 1.1.1 queued|8 1.2.1 queued|9 1.1.1 on 9|10 1.1.1 moved|drain 1.2.1 read 6 x62 0|drain 1.1.1 read 6 x61 0|drain 1.2.1 committed 1 done 1 x|drain 1.1.1 committed 2 done 1 x|
journal 1 invoke 1 2 1 0 100 x62 server done 1 x reads 1 6 x62 0 writes 1 6 x62 put x0100000000000000|journal 2 invoke 1 1 1 0 100 x61 server done 1 x reads 1 6 x61 0 writes 1 6 x61 put x0100000000000000|
$begin 0 1 1 1 0 100 stay x61|begin 0 1 2 1 0 100 stay x61|steal 1 0|turn 0 20|
7 1.1.1 queued|8 1.2.1 queued|9 1.1.1 moved|10 1.2.1 read 6 x61 0|drain 1.2.1 committed 1 done 1 x|drain 1.1.1 read 6 x61 2|drain 1.1.1 committed 2 done 2 x|
journal 1 invoke 1 2 1 0 100 x61 server done 1 x reads 1 6 x61 0 writes 1 6 x61 put x0100000000000000|journal 2 invoke 1 1 1 0 100 x61 server done 2 x reads 1 6 x61 2 writes 1 6 x61 put x0200000000000000|
$begin 0 1 1 1 0 100 stay x61|begin 0 1 2 1 0 100 stay x62|steal 1 0|turn 0 20|
7 1.1.1 queued|8 1.2.1 queued|9 1.1.1 moved|10 1.2.1 read 6 x62 0|drain 1.2.1 committed 1 done 1 x|drain 1.1.1 read 6 x61 0|drain 1.1.1 committed 2 done 1 x|
journal 1 invoke 1 2 1 0 100 x62 server done 1 x reads 1 6 x62 0 writes 1 6 x62 put x0100000000000000|journal 2 invoke 1 1 1 0 100 x61 server done 1 x reads 1 6 x61 0 writes 1 6 x61 put x0100000000000000|
$begin 0 1 1 1 0 100 stay x61|begin 1 1 2 1 0 100 stay x61|steal 1 0|turn 0 20|
7 1.1.1 queued|8 1.2.1 queued|9 1.1.1 moved|10 idle|drain 1.2.1 read 6 x61 0|drain 1.1.1 read 6 x61 0|drain 1.2.1 committed 1 done 1 x|drain 1.1.1 conflict 6 x61 0 2|
journal 1 invoke 1 2 1 0 100 x61 server done 1 x reads 1 6 x61 0 writes 1 6 x61 put x0100000000000000|
$begin 0 1 1 1 0 100 stay x61|begin 1 1 2 1 0 100 stay x62|steal 1 0|turn 0 20|
7 1.1.1 queued|8 1.2.1 queued|9 1.1.1 moved|10 idle|drain 1.2.1 read 6 x62 0|drain 1.1.1 read 6 x61 0|drain 1.2.1 committed 1 done 1 x|drain 1.1.1 committed 2 done 1 x|
journal 1 invoke 1 2 1 0 100 x62 server done 1 x reads 1 6 x62 0 writes 1 6 x62 put x0100000000000000|journal 2 invoke 1 1 1 0 100 x61 server done 1 x reads 1 6 x61 0 writes 1 6 x61 put x0100000000000000|
$begin 0 1 1 1 0 100 stay x61|begin 0 1 2 1 0 100 stay x61|steal 1 0|turn 1 20|
7 1.1.1 queued|8 1.2.1 queued|9 1.1.1 moved|10 1.1.1 read 6 x61 0|drain 1.2.1 read 6 x61 0|drain 1.1.1 committed 1 done 1 x|drain 1.2.1 conflict 6 x61 0 2|
journal 1 invoke 1 1 1 0 100 x61 server done 1 x reads 1 6 x61 0 writes 1 6 x61 put x0100000000000000|
$begin 0 1 1 1 0 100 stay x61|begin 0 1 2 1 0 100 stay x62|steal 1 0|turn 1 20|
7 1.1.1 queued|8 1.2.1 queued|9 1.1.1 moved|10 1.1.1 read 6 x61 0|drain 1.2.1 read 6 x62 0|drain 1.1.1 committed 1 done 1 x|drain 1.2.1 committed 2 done 1 x|
journal 1 invoke 1 1 1 0 100 x61 server done 1 x reads 1 6 x61 0 writes 1 6 x61 put x0100000000000000|journal 2 invoke 1 2 1 0 100 x62 server done 1 x reads 1 6 x62 0 writes 1 6 x62 put x0100000000000000|
$begin 0 1 1 1 0 100 stay x61|begin 1 1 2 1 0 100 stay x61|steal 1 0|turn 1 20|
7 1.1.1 queued|8 1.2.1 queued|9 1.1.1 moved|10 1.2.1 read 6 x61 0|drain 1.1.1 read 6 x61 0|drain 1.2.1 committed 1 done 1 x|drain 1.1.1 conflict 6 x61 0 2|
journal 1 invoke 1 2 1 0 100 x61 server done 1 x reads 1 6 x61 0 writes 1 6 x61 put x0100000000000000|
$begin 0 1 1 1 0 100 stay x61|begin 1 1 2 1 0 100 stay x62|steal 1 0|turn 1 20|
7 1.1.1 queued|8 1.2.1 queued|9 1.1.1 moved|10 1.2.1 read 6 x62 0|drain 1.1.1 read 6 x61 0|drain 1.2.1 committed 1 done 1 x|drain 1.1.1 committed 2 done 1 x|
journal 1 invoke 1 2 1 0 100 x62 server done 1 x reads 1 6 x62 0 writes 1 6 x62 put x0100000000000000|journal 2 invoke 1 1 1 0 100 x61 server done 1 x reads 1 6 x61 0 writes 1 6 x61 put x0100000000000000|
$begin 0 1 1 1 0 100 stay x61|begin 0 1 2 1 0 100 stay x61|steal 1 0|turn 0 9|
7 1.1.1 queued|8 1.2.1 queued|9 1.1.1 moved|10 1.2.1 on 9|drain 1.2.1 read 6 x61 0|drain 1.1.1 read 6 x61 0|drain 1.2.1 committed 1 done 1 x|drain 1.1.1 conflict 6 x61 0 2|
journal 1 invoke 1 2 1 0 100 x61 server done 1 x reads 1 6 x61 0 writes 1 6 x61 put x0100000000000000|
$begin 0 1 1 1 0 100 stay x61|begin 0 1 2 1 0 100 stay x62|steal 1 0|turn 0 9|
7 1.1.1 queued|8 1.2.1 queued|9 1.1.1 moved|10 1.2.1 on 9|drain 1.2.1 read 6 x62 0|drain 1.1.1 read 6 x61 0|drain 1.2.1 committed 1 done 1 x|drain 1.1.1 committed 2 done 1 x|
journal 1 invoke 1 2 1 0 100 x62 server done 1 x reads 1 6 x62 0 writes 1 6 x62 put x0100000000000000|journal 2 invoke 1 1 1 0 100 x61 server done 1 x reads 1 6 x61 0 writes 1 6 x61 put x0100000000000000|
$begin 0 1 1 1 0 100 stay x61|begin 1 1 2 1 0 100 stay x61|steal 1 0|turn 0 9|
7 1.1.1 queued|8 1.2.1 queued|9 1.1.1 moved|10 idle|drain 1.2.1 read 6 x61 0|drain 1.1.1 read 6 x61 0|drain 1.2.1 committed 1 done 1 x|drain 1.1.1 conflict 6 x61 0 2|
journal 1 invoke 1 2 1 0 100 x61 server done 1 x reads 1 6 x61 0 writes 1 6 x61 put x0100000000000000|
$begin 0 1 1 1 0 100 stay x61|begin 1 1 2 1 0 100 stay x62|steal 1 0|turn 0 9|
7 1.1.1 queued|8 1.2.1 queued|9 1.1.1 moved|10 idle|drain 1.2.1 read 6 x62 0|drain 1.1.1 read 6 x61 0|drain 1.2.1 committed 1 done 1 x|drain 1.1.1 committed 2 done 1 x|
journal 1 invoke 1 2 1 0 100 x62 server done 1 x reads 1 6 x62 0 writes 1 6 x62 put x0100000000000000|journal 2 invoke 1 1 1 0 100 x61 server done 1 x reads 1 6 x61 0 writes 1 6 x61 put x0100000000000000|
$begin 0 1 1 1 0 100 stay x61|begin 0 1 2 1 0 100 stay x61|steal 1 0|steal 1 0|
7 1.1.1 queued|8 1.2.1 queued|9 1.1.1 moved|10 1.2.1 moved|drain 1.1.1 read 6 x61 0|drain 1.2.1 read 6 x61 0|drain 1.1.1 committed 1 done 1 x|drain 1.2.1 conflict 6 x61 0 2|
journal 1 invoke 1 1 1 0 100 x61 server done 1 x reads 1 6 x61 0 writes 1 6 x61 put x0100000000000000|
$begin 0 1 1 1 0 100 stay x61|begin 0 1 2 1 0 100 stay x62|steal 1 0|steal 1 0|
7 1.1.1 queued|8 1.2.1 queued|9 1.1.1 moved|10 1.2.1 moved|drain 1.1.1 read 6 x61 0|drain 1.2.1 read 6 x62 0|drain 1.1.1 committed 1 done 1 x|drain 1.2.1 committed 2 done 1 x|
journal 1 invoke 1 1 1 0 100 x61 server done 1 x reads 1 6 x61 0 writes 1 6 x61 put x0100000000000000|journal 2 invoke 1 2 1 0 100 x62 server done 1 x reads 1 6 x62 0 writes 1 6 x62 put x0100000000000000|
$begin 0 1 1 1 0 100 stay x61|begin 1 1 2 1 0 100 stay x61|steal 1 0|steal 1 0|
7 1.1.1 queued|8 1.2.1 queued|9 1.1.1 moved|10 idle|drain 1.2.1 read 6 x61 0|drain 1.1.1 read 6 x61 0|drain 1.2.1 committed 1 done 1 x|drain 1.1.1 conflict 6 x61 0 2|
journal 1 invoke 1 2 1 0 100 x61 server done 1 x reads 1 6 x61 0 writes 1 6 x61 put x0100000000000000|
$begin 0 1 1 1 0 100 stay x61|begin 1 1 2 1 0 100 stay x62|steal 1 0|steal 1 0|
7 1.1.1 queued|8 1.2.1 queued|9 1.1.1 moved|10 idle|drain 1.2.1 read 6 x62 0|drain 1.1.1 read 6 x61 0|drain 1.2.1 committed 1 done 1 x|drain 1.1.1 committed 2 done 1 x|
journal 1 invoke 1 2 1 0 100 x62 server done 1 x reads 1 6 x62 0 writes 1 6 x62 put x0100000000000000|journal 2 invoke 1 1 1 0 100 x61 server done 1 x reads 1 6 x61 0 writes 1 6 x61 put x0100000000000000|
$begin 0 1 1 1 0 100 stay x61|begin 0 1 2 1 0 100 stay x61|turn 0 20|turn 0 20|turn 0 20|
7 1.1.1 queued|8 1.2.1 queued|9 1.1.1 read 6 x61 0|10 1.2.1 read 6 x61 0|11 1.1.1 committed 1 done 1 x|drain 1.2.1 conflict 6 x61 0 2|
journal 1 invoke 1 1 1 0 100 x61 server done 1 x reads 1 6 x61 0 writes 1 6 x61 put x0100000000000000|
$begin 0 1 1 1 0 100 stay x61|begin 0 1 2 1 0 100 stay x62|turn 0 20|turn 0 20|turn 0 20|
7 1.1.1 queued|8 1.2.1 queued|9 1.1.1 read 6 x61 0|10 1.2.1 read 6 x62 0|11 1.1.1 committed 1 done 1 x|drain 1.2.1 committed 2 done 1 x|
journal 1 invoke 1 1 1 0 100 x61 server done 1 x reads 1 6 x61 0 writes 1 6 x61 put x0100000000000000|journal 2 invoke 1 2 1 0 100 x62 server done 1 x reads 1 6 x62 0 writes 1 6 x62 put x0100000000000000|
$begin 0 1 1 1 0 100 stay x61|begin 1 1 2 1 0 100 stay x61|turn 0 20|turn 0 20|turn 0 20|
7 1.1.1 queued|8 1.2.1 queued|9 1.1.1 read 6 x61 0|10 1.1.1 committed 1 done 1 x|11 idle|drain 1.2.1 read 6 x61 2|drain 1.2.1 committed 2 done 2 x|
journal 1 invoke 1 1 1 0 100 x61 server done 1 x reads 1 6 x61 0 writes 1 6 x61 put x0100000000000000|journal 2 invoke 1 2 1 0 100 x61 server done 2 x reads 1 6 x61 2 writes 1 6 x61 put x0200000000000000|
$begin 0 1 1 1 0 100 stay x61|begin 1 1 2 1 0 100 stay x62|turn 0 20|turn 0 20|turn 0 20|
7 1.1.1 queued|8 1.2.1 queued|9 1.1.1 read 6 x61 0|10 1.1.1 committed 1 done 1 x|11 idle|drain 1.2.1 read 6 x62 0|drain 1.2.1 committed 2 done 1 x|
journal 1 invoke 1 1 1 0 100 x61 server done 1 x reads 1 6 x61 0 writes 1 6 x61 put x0100000000000000|journal 2 invoke 1 2 1 0 100 x62 server done 1 x reads 1 6 x62 0 writes 1 6 x62 put x0100000000000000|
$begin 0 1 1 1 0 100 stay x61|begin 0 1 2 1 0 100 stay x61|turn 0 20|turn 0 20|turn 1 20|
7 1.1.1 queued|8 1.2.1 queued|9 1.1.1 read 6 x61 0|10 1.2.1 read 6 x61 0|11 idle|drain 1.1.1 committed 1 done 1 x|drain 1.2.1 conflict 6 x61 0 2|
journal 1 invoke 1 1 1 0 100 x61 server done 1 x reads 1 6 x61 0 writes 1 6 x61 put x0100000000000000|
$begin 0 1 1 1 0 100 stay x61|begin 0 1 2 1 0 100 stay x62|turn 0 20|turn 0 20|turn 1 20|
7 1.1.1 queued|8 1.2.1 queued|9 1.1.1 read 6 x61 0|10 1.2.1 read 6 x62 0|11 idle|drain 1.1.1 committed 1 done 1 x|drain 1.2.1 committed 2 done 1 x|
journal 1 invoke 1 1 1 0 100 x61 server done 1 x reads 1 6 x61 0 writes 1 6 x61 put x0100000000000000|journal 2 invoke 1 2 1 0 100 x62 server done 1 x reads 1 6 x62 0 writes 1 6 x62 put x0100000000000000|
$begin 0 1 1 1 0 100 stay x61|begin 1 1 2 1 0 100 stay x61|turn 0 20|turn 0 20|turn 1 20|
7 1.1.1 queued|8 1.2.1 queued|9 1.1.1 read 6 x61 0|10 1.1.1 committed 1 done 1 x|11 1.2.1 read 6 x61 2|drain 1.2.1 committed 2 done 2 x|
journal 1 invoke 1 1 1 0 100 x61 server done 1 x reads 1 6 x61 0 writes 1 6 x61 put x0100000000000000|journal 2 invoke 1 2 1 0 100 x61 server done 2 x reads 1 6 x61 2 writes 1 6 x61 put x0200000000000000|
$begin 0 1 1 1 0 100 stay x61|begin 1 1 2 1 0 100 stay x62|turn 0 20|turn 0 20|turn 1 20|
7 1.1.1 queued|8 1.2.1 queued|9 1.1.1 read 6 x61 0|10 1.1.1 committed 1 done 1 x|11 1.2.1 read 6 x62 0|drain 1.2.1 committed 2 done 1 x|
journal 1 invoke 1 1 1 0 100 x61 server done 1 x reads 1 6 x61 0 writes 1 6 x61 put x0100000000000000|journal 2 invoke 1 2 1 0 100 x62 server done 1 x reads 1 6 x62 0 writes 1 6 x62 put x0100000000000000|
$begin 0 1 1 1 0 100 stay x61|begin 0 1 2 1 0 100 stay x61|turn 0 20|turn 0 20|turn 0 9|
7 1.1.1 queued|8 1.2.1 queued|9 1.1.1 read 6 x61 0|10 1.2.1 read 6 x61 0|11 1.1.1 committed 1 done 1 x|drain 1.2.1 conflict 6 x61 0 2|
journal 1 invoke 1 1 1 0 100 x61 server done 1 x reads 1 6 x61 0 writes 1 6 x61 put x0100000000000000|
$begin 0 1 1 1 0 100 stay x61|begin 0 1 2 1 0 100 stay x62|turn 0 20|turn 0 20|turn 0 9|
7 1.1.1 queued|8 1.2.1 queued|9 1.1.1 read 6 x61 0|10 1.2.1 read 6 x62 0|11 1.1.1 committed 1 done 1 x|drain 1.2.1 committed 2 done 1 x|
journal 1 invoke 1 1 1 0 100 x61 server done 1 x reads 1 6 x61 0 writes 1 6 x61 put x0100000000000000|journal 2 invoke 1 2 1 0 100 x62 server done 1 x reads 1 6 x62 0 writes 1 6 x62 put x0100000000000000|
$begin 0 1 1 1 0 100 stay x61|begin 1 1 2 1 0 100 stay x61|turn 0 20|turn 0 20|turn 0 9|
7 1.1.1 queued|8 1.2.1 queued|9 1.1.1 read 6 x61 0|10 1.1.1 committed 1 done 1 x|11 idle|drain 1.2.1 read 6 x61 2|drain 1.2.1 committed 2 done 2 x|
journal 1 invoke 1 1 1 0 100 x61 server done 1 x reads 1 6 x61 0 writes 1 6 x61 put x0100000000000000|journal 2 invoke 1 2 1 0 100 x61 server done 2 x reads 1 6 x61 2 writes 1 6 x61 put x0200000000000000|
$begin 0 1 1 1 0 100 stay x61|begin 1 1 2 1 0 100 stay x62|turn 0 20|turn 0 20|turn 0 9|
7 1.1.1 queued|8 1.2.1 queued|9 1.1.1 read 6 x61 0|10 1.1.1 committed 1 done 1 x|11 idle|drain 1.2.1 read 6 x62 0|drain 1.2.1 committed 2 done 1 x|
journal 1 invoke 1 1 1 0 100 x61 server done 1 x reads 1 6 x61 0 writes 1 6 x61 put x0100000000000000|journal 2 invoke 1 2 1 0 100 x62 server done 1 x reads 1 6 x62 0 writes 1 6 x62 put x0100000000000000|
$begin 0 1 1 1 0 100 stay x61|begin 0 1 2 1 0 100 stay x61|turn 0 20|turn 0 20|steal 1 0|
7 1.1.1 queued|8 1.2.1 queued|9 1.1.1 read 6 x61 0|10 1.2.1 read 6 x61 0|11 1.1.1 moved|drain 1.2.1 committed 1 done 1 x|drain 1.1.1 conflict 6 x61 0 2|
journal 1 invoke 1 2 1 0 100 x61 server done 1 x reads 1 6 x61 0 writes 1 6 x61 put x0100000000000000|
$begin 0 1 1 1 0 100 stay x61|begin 0 1 2 1 0 100 stay x62|turn 0 20|turn 0 20|steal 1 0|
7 1.1.1 queued|8 1.2.1 queued|9 1.1.1 read 6 x61 0|10 1.2.1 read 6 x62 0|11 1.1.1 moved|drain 1.2.1 committed 1 done 1 x|drain 1.1.1 committed 2 done 1 x|
journal 1 invoke 1 2 1 0 100 x62 server done 1 x reads 1 6 x62 0 writes 1 6 x62 put x0100000000000000|journal 2 invoke 1 1 1 0 100 x61 server done 1 x reads 1 6 x61 0 writes 1 6 x61 put x0100000000000000|
$begin 0 1 1 1 0 100 stay x61|begin 1 1 2 1 0 100 stay x61|turn 0 20|turn 0 20|steal 1 0|
7 1.1.1 queued|8 1.2.1 queued|9 1.1.1 read 6 x61 0|10 1.1.1 committed 1 done 1 x|11 idle|drain 1.2.1 read 6 x61 2|drain 1.2.1 committed 2 done 2 x|
journal 1 invoke 1 1 1 0 100 x61 server done 1 x reads 1 6 x61 0 writes 1 6 x61 put x0100000000000000|journal 2 invoke 1 2 1 0 100 x61 server done 2 x reads 1 6 x61 2 writes 1 6 x61 put x0200000000000000|
$begin 0 1 1 1 0 100 stay x61|begin 1 1 2 1 0 100 stay x62|turn 0 20|turn 0 20|steal 1 0|
7 1.1.1 queued|8 1.2.1 queued|9 1.1.1 read 6 x61 0|10 1.1.1 committed 1 done 1 x|11 idle|drain 1.2.1 read 6 x62 0|drain 1.2.1 committed 2 done 1 x|
journal 1 invoke 1 1 1 0 100 x61 server done 1 x reads 1 6 x61 0 writes 1 6 x61 put x0100000000000000|journal 2 invoke 1 2 1 0 100 x62 server done 1 x reads 1 6 x62 0 writes 1 6 x62 put x0100000000000000|";
