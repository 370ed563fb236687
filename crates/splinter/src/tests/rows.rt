//! Whole runs, each with the text that the rules give: interleaved calls, steals, budgets, traps,
//! refusals. A case is the command with the status that it ends with, its input, and what it writes.

pub const ROWS: &str = "\
$run 0
>>
$run 0
tenant 1 11
tenant 2 12
tenant 3 13
table 5 1 read
table 5 3 write
table 6 2 write
workers 2
put 3 5 x61 x6263
put 3 5 x62 x6164
put 3 5 x63 x61
ext 1 1
fn main() -> int { get(5, args()) { some s => { multiget(5, s, 1) { some u => { resp(u); } none => { } } } none => { } } return 0; }
ext 2 1
fn main() -> int { let n: int = 0; get(6, args()) { some s => { n = u64(s, 0); } none => { } } let b: buf = alloc(6, args(), 8); set8(b, 0, n + 1); put(b); return n + 1; }
begin 0 1 1 1 0 1000 stay x61
begin 0 2 1 1 0 1000 stay x63
begin 1 2 2 1 0 1000 stay x64
turn 0 20
steal 1 0
turn 1 20
turn 1 20
>>
8 put 0
9 put 1
10 put 2
11 installed 3 ext 0
13 installed 4 ext 0
15 1.1.1 queued
16 2.1.1 queued
17 2.2.1 queued
18 1.1.1 read 5 x61 1
19 2.1.1 moved
20 2.2.1 read 6 x64 0
21 2.1.1 read 6 x63 0
drain 1.1.1 read 5 x62 2
drain 2.2.1 committed 5 done 1 x
drain 1.1.1 read 5 x63 3
drain 2.1.1 committed 6 done 1 x
drain 1.1.1 committed 7 done 0 x616461
journal 0 put 3 5 x61 x6263
journal 1 put 3 5 x62 x6164
journal 2 put 3 5 x63 x61
journal 3 install 1 0 1
fn main() -> int { get(5, args()) { some s => { multiget(5, s, 1) { some u => { resp(u); } none => { } } } none => { } } return 0; }
journal 4 install 2 0 1
fn main() -> int { let n: int = 0; get(6, args()) { some s => { n = u64(s, 0); } none => { } } let b: buf = alloc(6, args(), 8); set8(b, 0, n + 1); put(b); return n + 1; }
journal 5 invoke 2 2 1 0 1000 x64 server done 1 x reads 1 6 x64 0 writes 1 6 x64 put x0100000000000000
journal 6 invoke 2 1 1 0 1000 x63 server done 1 x reads 1 6 x63 0 writes 1 6 x63 put x0100000000000000
journal 7 invoke 1 1 1 0 1000 x61 server done 0 x616461 reads 3 5 x61 1 5 x62 2 5 x63 3 writes 0
$run 0
tenant 1 11
tenant 2 12
tenant 3 13
table 5 1 read
table 5 3 write
table 6 2 write
workers 2
put 3 5 x61 x6263
put 3 5 x62 x6164
put 3 5 x63 x61
ext 1 1
fn main() -> int { get(5, args()) { some s => { multiget(5, s, 1) { some u => { resp(u); } none => { } } } none => { } } return 0; }
ext 2 1
fn main() -> int { let n: int = 0; get(6, args()) { some s => { n = u64(s, 0); } none => { } } let b: buf = alloc(6, args(), 8); set8(b, 0, n + 1); put(b); return n + 1; }
begin 0 1 1 1 0 1000 stay x61
begin 0 2 1 1 0 1000 stay x63
begin 1 2 2 1 0 1000 stay x64
>>
8 put 0
9 put 1
10 put 2
11 installed 3 ext 0
13 installed 4 ext 0
15 1.1.1 queued
16 2.1.1 queued
17 2.2.1 queued
drain 1.1.1 read 5 x61 1
drain 2.2.1 read 6 x64 0
drain 2.1.1 read 6 x63 0
drain 2.2.1 committed 5 done 1 x
drain 1.1.1 read 5 x62 2
drain 2.1.1 committed 6 done 1 x
drain 1.1.1 read 5 x63 3
drain 1.1.1 committed 7 done 0 x616461
journal 0 put 3 5 x61 x6263
journal 1 put 3 5 x62 x6164
journal 2 put 3 5 x63 x61
journal 3 install 1 0 1
fn main() -> int { get(5, args()) { some s => { multiget(5, s, 1) { some u => { resp(u); } none => { } } } none => { } } return 0; }
journal 4 install 2 0 1
fn main() -> int { let n: int = 0; get(6, args()) { some s => { n = u64(s, 0); } none => { } } let b: buf = alloc(6, args(), 8); set8(b, 0, n + 1); put(b); return n + 1; }
journal 5 invoke 2 2 1 0 1000 x64 server done 1 x reads 1 6 x64 0 writes 1 6 x64 put x0100000000000000
journal 6 invoke 2 1 1 0 1000 x63 server done 1 x reads 1 6 x63 0 writes 1 6 x63 put x0100000000000000
journal 7 invoke 1 1 1 0 1000 x61 server done 0 x616461 reads 3 5 x61 1 5 x62 2 5 x63 3 writes 0
$run 0
tenant 1 7
table 6 1 write
ext 1 1
fn main() -> int { let n: int = 0; get(6, args()) { some s => { n = u64(s, 0); } none => { } } let b: buf = alloc(6, args(), 8); set8(b, 0, n + 1); put(b); return n + 1; }
begin 0 1 1 1 0 100 stay x63
begin 0 1 2 1 0 100 stay x63
turn 0 50
turn 0 50
turn 0 50
turn 0 50
>>
3 installed 0 ext 0
5 1.1.1 queued
6 1.2.1 queued
7 1.1.1 read 6 x63 0
8 1.2.1 read 6 x63 0
9 1.1.1 committed 1 done 1 x
10 1.2.1 conflict 6 x63 0 2
journal 0 install 1 0 1
fn main() -> int { let n: int = 0; get(6, args()) { some s => { n = u64(s, 0); } none => { } } let b: buf = alloc(6, args(), 8); set8(b, 0, n + 1); put(b); return n + 1; }
journal 1 invoke 1 1 1 0 100 x63 server done 1 x reads 1 6 x63 0 writes 1 6 x63 put x0100000000000000
$run 0
tenant 1 7
table 6 1 write
ext 1 1
fn main() -> int { let n: int = 0; get(6, args()) { some s => { n = u64(s, 0); } none => { } } let b: buf = alloc(6, args(), 8); set8(b, 0, n + 1); put(b); return n + 1; }
ext 1 1
fn main() -> int { del(6, args()); return 0; }
begin 0 1 1 1 0 100 stay x63
turn 0 50
put 1 6 x63 x6f
begin 0 1 2 1 1 100 stay x63
steal 0 0
turn 0 50
>>
3 installed 0 ext 0
5 installed 1 ext 1
7 1.1.1 queued
8 1.1.1 read 6 x63 0
9 put 2
10 1.2.1 queued
11 1.1.1 moved
12 1.2.1 committed 3 done 0 x
drain 1.1.1 committed 4 done 1 x
journal 0 install 1 0 1
fn main() -> int { let n: int = 0; get(6, args()) { some s => { n = u64(s, 0); } none => { } } let b: buf = alloc(6, args(), 8); set8(b, 0, n + 1); put(b); return n + 1; }
journal 1 install 1 1 1
fn main() -> int { del(6, args()); return 0; }
journal 2 put 1 6 x63 x6f
journal 3 invoke 1 2 1 1 100 x63 server done 0 x reads 0 writes 1 6 x63 del
journal 4 invoke 1 1 1 0 100 x63 server done 1 x reads 1 6 x63 0 writes 1 6 x63 put x0100000000000000
$run 0
tenant 1 7
table 6 1 write
ext 1 1
fn main() -> int { let b: buf = alloc(6, \"k\", 1); set(b, 0, byte(args(), 0)); put(b); return 0; }
begin 0 1 1 1 0 4 stay x01
begin 0 1 2 1 0 4 stay x02
turn 0 2
turn 0 2
>>
3 installed 0 ext 0
5 1.1.1 queued
6 1.2.1 queued
7 1.1.1 on 2
8 1.2.1 on 2
drain 1.1.1 committed 1 done 0 x
drain 1.2.1 committed 2 done 0 x
journal 0 install 1 0 1
fn main() -> int { let b: buf = alloc(6, \"k\", 1); set(b, 0, byte(args(), 0)); put(b); return 0; }
journal 1 invoke 1 1 1 0 4 x01 server done 0 x reads 0 writes 1 6 x6b put x01
journal 2 invoke 1 2 1 0 4 x02 server done 0 x reads 0 writes 1 6 x6b put x02
$run 0
tenant 1 7
table 6 1 write
ext 1 1
fn main() -> int { let b: buf = alloc(6, \"k\", 1); set(b, 0, byte(args(), 0)); put(b); return 0; }
begin 0 1 1 1 0 3 stay x01
begin 0 1 2 1 0 4 stay x02
turn 0 2
turn 0 2
>>
3 installed 0 ext 0
5 1.1.1 queued
6 1.2.1 queued
7 1.1.1 on 2
8 1.2.1 on 2
drain 1.1.1 committed 1 killed
drain 1.2.1 committed 2 done 0 x
journal 0 install 1 0 1
fn main() -> int { let b: buf = alloc(6, \"k\", 1); set(b, 0, byte(args(), 0)); put(b); return 0; }
journal 1 invoke 1 1 1 0 3 x01 server killed reads 0 writes 0
journal 2 invoke 1 2 1 0 4 x02 server done 0 x reads 0 writes 1 6 x6b put x02
$run 0
tenant 1 7
table 6 1 write
ext 1 1
fn main() -> int { let a: int = 0; let c: int = 0; get(6, \"a\") { some s => { a = u64(s, 0); } none => { } } get(6, \"b\") { some s => { c = u64(s, 0); } none => { } } while a != c { } return 0; }
begin 0 1 1 1 0 60 stay x
turn 0 60
put 1 6 x61 x0100000000000000
put 1 6 x62 x0100000000000000
>>
3 installed 0 ext 0
5 1.1.1 queued
6 1.1.1 read 6 x61 0
7 put 1
8 put 2
drain 1.1.1 read 6 x62 3
drain 1.1.1 conflict 6 x61 0 2
journal 0 install 1 0 1
fn main() -> int { let a: int = 0; let c: int = 0; get(6, \"a\") { some s => { a = u64(s, 0); } none => { } } get(6, \"b\") { some s => { c = u64(s, 0); } none => { } } while a != c { } return 0; }
journal 1 put 1 6 x61 x0100000000000000
journal 2 put 1 6 x62 x0100000000000000
$run 0
tenant 1 7
table 6 1 write
ext 1 1
fn main() -> int { let a: int = 0; let c: int = 0; get(6, \"a\") { some s => { a = u64(s, 0); } none => { } } get(6, \"b\") { some s => { c = u64(s, 0); } none => { } } while a != c { } return 0; }
begin 0 1 1 1 0 60 stay x
turn 0 60
put 1 6 x62 x0100000000000000
>>
3 installed 0 ext 0
5 1.1.1 queued
6 1.1.1 read 6 x61 0
7 put 1
drain 1.1.1 read 6 x62 2
drain 1.1.1 committed 2 killed
journal 0 install 1 0 1
fn main() -> int { let a: int = 0; let c: int = 0; get(6, \"a\") { some s => { a = u64(s, 0); } none => { } } get(6, \"b\") { some s => { c = u64(s, 0); } none => { } } while a != c { } return 0; }
journal 1 put 1 6 x62 x0100000000000000
journal 2 invoke 1 1 1 0 60 x server killed reads 2 6 x61 0 6 x62 2 writes 0
$run 0
tenant 1 7
table 6 1 write
ext 1 1
fn main() -> int { let a: int = 0; let c: int = 0; get(6, \"a\") { some s => { a = u64(s, 0); } none => { } } get(6, \"b\") { some s => { c = u64(s, 0); } none => { } } while a != c { } return 0; }
begin 0 1 1 1 0 60 stay x
turn 0 60
turn 0 60
put 1 6 x62 x01
put 1 6 x61 x02
>>
3 installed 0 ext 0
5 1.1.1 queued
6 1.1.1 read 6 x61 0
7 1.1.1 read 6 x62 0
8 put 1
9 put 2
drain 1.1.1 conflict 6 x61 0 3
journal 0 install 1 0 1
fn main() -> int { let a: int = 0; let c: int = 0; get(6, \"a\") { some s => { a = u64(s, 0); } none => { } } get(6, \"b\") { some s => { c = u64(s, 0); } none => { } } while a != c { } return 0; }
journal 1 put 1 6 x62 x01
journal 2 put 1 6 x61 x02
$run 0
tenant 1 7
table 6 1 write
ext 1 1
fn main() -> int { let a: int = 0; let c: int = 0; get(6, \"a\") { some s => { a = u64(s, 0); } none => { } } get(6, \"b\") { some s => { c = u64(s, 0); } none => { } } while a != c { } return 0; }
begin 0 1 1 1 0 60 stay x
turn 0 60
turn 0 60
put 1 6 x62 x01
>>
3 installed 0 ext 0
5 1.1.1 queued
6 1.1.1 read 6 x61 0
7 1.1.1 read 6 x62 0
8 put 1
drain 1.1.1 conflict 6 x62 0 2
journal 0 install 1 0 1
fn main() -> int { let a: int = 0; let c: int = 0; get(6, \"a\") { some s => { a = u64(s, 0); } none => { } } get(6, \"b\") { some s => { c = u64(s, 0); } none => { } } while a != c { } return 0; }
journal 1 put 1 6 x62 x01
$run 0
tenant 1 7
table 5 1 write
put 1 5 x6b x7631
ext 1 1
fn main() -> int { get(5, args()) { some s => { resp(s); } none => { } } return 0; }
begin 0 1 1 1 0 100 stay x6b
turn 0 1
turn 0 1
turn 0 1
turn 0 1
turn 0 1
turn 0 1
turn 0 1
turn 0 1
turn 0 1
turn 0 1
turn 0 1
turn 0 1
turn 0 1
turn 0 1
turn 0 1
turn 0 1
turn 0 1
>>
3 put 0
4 installed 1 ext 0
6 1.1.1 queued
7 1.1.1 on 1
8 1.1.1 on 2
9 1.1.1 on 3
10 1.1.1 on 4
11 1.1.1 on 5
12 1.1.1 on 6
13 1.1.1 on 7
14 1.1.1 on 8
15 1.1.1 on 9
16 1.1.1 on 10
17 1.1.1 on 11
18 1.1.1 on 12
19 1.1.1 on 13
20 1.1.1 on 14
21 1.1.1 on 15
22 1.1.1 on 16
23 1.1.1 read 5 x6b 1
drain 1.1.1 committed 2 done 0 x7631
journal 0 put 1 5 x6b x7631
journal 1 install 1 0 1
fn main() -> int { get(5, args()) { some s => { resp(s); } none => { } } return 0; }
journal 2 invoke 1 1 1 0 100 x6b server done 0 x7631 reads 1 5 x6b 1 writes 0
$run 0
tenant 1 7
table 6 1 write
ext 1 1
fn main() -> int { let b: buf = alloc(6, \"k\", 1); put(b); get(6, \"k\") { some s => { return byte(s, 0) + 5; } none => { } } return 9; }
begin 0 1 1 1 0 100 stay x
>>
3 installed 0 ext 0
5 1.1.1 queued
drain 1.1.1 committed 1 done 5 x
journal 0 install 1 0 1
fn main() -> int { let b: buf = alloc(6, \"k\", 1); put(b); get(6, \"k\") { some s => { return byte(s, 0) + 5; } none => { } } return 9; }
journal 1 invoke 1 1 1 0 100 x server done 5 x reads 0 writes 1 6 x6b put x00
$run 0
tenant 1 7
ext 1 1
fn main() -> int { get(5, args()) { some s => { resp(s); } none => { } } return 0; }
begin 0 1 1 1 0 100 stay x6b
>>
2 installed 0 ext 0
4 1.1.1 queued
drain 1.1.1 committed 1 trap 4
journal 0 install 1 0 1
fn main() -> int { get(5, args()) { some s => { resp(s); } none => { } } return 0; }
journal 1 invoke 1 1 1 0 100 x6b server trap 4 reads 0 writes 0
$run 0
tenant 1 7
table 5 1 write
put 1 5 x6b x7631
ext 1 1
fn main() -> int { get(5, args()) { some s => { resp(s); } none => { } } return 0; }
begin 0 1 1 1 0 100 stay x0000000000000000000000000000000000000000000000000000000000000000000000000000000000000000000000000000000000000000000000000000000000
>>
3 put 0
4 installed 1 ext 0
6 1.1.1 queued
drain 1.1.1 committed 2 trap 3
journal 0 put 1 5 x6b x7631
journal 1 install 1 0 1
fn main() -> int { get(5, args()) { some s => { resp(s); } none => { } } return 0; }
journal 2 invoke 1 1 1 0 100 x0000000000000000000000000000000000000000000000000000000000000000000000000000000000000000000000000000000000000000000000000000000000 server trap 3 reads 0 writes 0
$run 0
tenant 1 7
table 5 1 write
put 1 5 x6b x7631
ext 1 1
fn main() -> int { get(5, args()) { some s => { resp(s); } none => { } } return 0; }
begin 0 1 1 1 0 100 stay x00000000000000000000000000000000000000000000000000000000000000000000000000000000000000000000000000000000000000000000000000000000
>>
3 put 0
4 installed 1 ext 0
6 1.1.1 queued
drain 1.1.1 read 5 x00000000000000000000000000000000000000000000000000000000000000000000000000000000000000000000000000000000000000000000000000000000 0
drain 1.1.1 committed 2 done 0 x
journal 0 put 1 5 x6b x7631
journal 1 install 1 0 1
fn main() -> int { get(5, args()) { some s => { resp(s); } none => { } } return 0; }
journal 2 invoke 1 1 1 0 100 x00000000000000000000000000000000000000000000000000000000000000000000000000000000000000000000000000000000000000000000000000000000 server done 0 x reads 1 5 x00000000000000000000000000000000000000000000000000000000000000000000000000000000000000000000000000000000000000000000000000000000 0 writes 0
$run 0
tenant 1 7
table 6 1 write
ext 1 1
fn main() -> int { let i: int = 0; while i < 65 { let k: temp = temp(1); set(k, 0, i); let b: buf = alloc(6, view(k), 0); put(b); i = i + 1; } return 0; }
begin 0 1 1 1 0 1000 stay x
>>
3 installed 0 ext 0
5 1.1.1 queued
drain 1.1.1 committed 1 trap 3
journal 0 install 1 0 1
fn main() -> int { let i: int = 0; while i < 65 { let k: temp = temp(1); set(k, 0, i); let b: buf = alloc(6, view(k), 0); put(b); i = i + 1; } return 0; }
journal 1 invoke 1 1 1 0 1000 x server trap 3 reads 0 writes 0
$run 0
tenant 1 7
table 6 1 write
ext 1 1
fn main() -> int { let i: int = 0; while i < 64 { let k: temp = temp(1); set(k, 0, i); let b: buf = alloc(6, view(k), 0); put(b); i = i + 1; } return 0; }
begin 0 1 1 1 0 1000 stay x
>>
3 installed 0 ext 0
5 1.1.1 queued
drain 1.1.1 committed 1 done 0 x
journal 0 install 1 0 1
fn main() -> int { let i: int = 0; while i < 64 { let k: temp = temp(1); set(k, 0, i); let b: buf = alloc(6, view(k), 0); put(b); i = i + 1; } return 0; }
journal 1 invoke 1 1 1 0 1000 x server done 0 x reads 0 writes 64 6 x00 put x 6 x01 put x 6 x02 put x 6 x03 put x 6 x04 put x 6 x05 put x 6 x06 put x 6 x07 put x 6 x08 put x 6 x09 put x 6 x0a put x 6 x0b put x 6 x0c put x 6 x0d put x 6 x0e put x 6 x0f put x 6 x10 put x 6 x11 put x 6 x12 put x 6 x13 put x 6 x14 put x 6 x15 put x 6 x16 put x 6 x17 put x 6 x18 put x 6 x19 put x 6 x1a put x 6 x1b put x 6 x1c put x 6 x1d put x 6 x1e put x 6 x1f put x 6 x20 put x 6 x21 put x 6 x22 put x 6 x23 put x 6 x24 put x 6 x25 put x 6 x26 put x 6 x27 put x 6 x28 put x 6 x29 put x 6 x2a put x 6 x2b put x 6 x2c put x 6 x2d put x 6 x2e put x 6 x2f put x 6 x30 put x 6 x31 put x 6 x32 put x 6 x33 put x 6 x34 put x 6 x35 put x 6 x36 put x 6 x37 put x 6 x38 put x 6 x39 put x 6 x3a put x 6 x3b put x 6 x3c put x 6 x3d put x 6 x3e put x 6 x3f put x
$run 0
tenant 1 7
table 5 1 write
put 1 5 x6b x7631
ext 1 1
fn main() -> int { get(5, args()) { some s => { resp(s); } none => { } } return 0; }
begin 0 1 1 1 0 100 stay x6b
turn 0 100
turn 0 100
begin 0 1 1 1 0 100 stay x6b
begin 0 1 1 1 0 100 stay x6b
>>
3 put 0
4 installed 1 ext 0
6 1.1.1 queued
7 1.1.1 read 5 x6b 1
8 1.1.1 committed 2 done 0 x7631
9 1.1.1 queued
10 1.1.1 busy 1
drain 1.1.1 read 5 x6b 1
drain 1.1.1 stale 1
journal 0 put 1 5 x6b x7631
journal 1 install 1 0 1
fn main() -> int { get(5, args()) { some s => { resp(s); } none => { } } return 0; }
journal 2 invoke 1 1 1 0 100 x6b server done 0 x7631 reads 1 5 x6b 1 writes 0
$run 0
tenant 1 7
table 5 1 write
limit 2
put 1 5 x6b x7631
ext 1 1
fn main() -> int { get(5, args()) { some s => { resp(s); } none => { } } return 0; }
begin 0 1 1 1 0 100 stay x6b
>>
4 put 0
5 installed 1 ext 0
7 1.1.1 queued
drain 1.1.1 read 5 x6b 1
drain 1.1.1 full
journal 0 put 1 5 x6b x7631
journal 1 install 1 0 1
fn main() -> int { get(5, args()) { some s => { resp(s); } none => { } } return 0; }
$run 0
tenant 1 7
table 5 1 write
limit 3
put 1 5 x6b x7631
ext 1 1
fn main() -> int { get(5, args()) { some s => { resp(s); } none => { } } return 0; }
begin 0 1 1 1 0 100 stay x6b
turn 0 100
turn 0 100
begin 0 1 1 1 0 100 stay x6b
begin 0 1 1 1 0 100 stay x6b
>>
4 put 0
5 installed 1 ext 0
7 1.1.1 queued
8 1.1.1 read 5 x6b 1
9 1.1.1 committed 2 done 0 x7631
10 1.1.1 queued
11 1.1.1 busy 1
drain 1.1.1 read 5 x6b 1
drain 1.1.1 stale 1
journal 0 put 1 5 x6b x7631
journal 1 install 1 0 1
fn main() -> int { get(5, args()) { some s => { resp(s); } none => { } } return 0; }
journal 2 invoke 1 1 1 0 100 x6b server done 0 x7631 reads 1 5 x6b 1 writes 0
$run 0
tenant 1 7
table 5 1 read
put 1 5 x6b x
ext 1 1
fn main() -> int { return x; }
begin 0 1 1 1 0 100 stay x
>>
3 denied
4 rejected 1 NoName
6 1.1.1 no-extension 0
$run 0
turn 0 5
>>
1 idle
$run 3
tenant 1 7
turn 0 0
>>
script 2 Field
$run 3
tenant 1 7
tenant 1 8
>>
script 2 Twice
";
