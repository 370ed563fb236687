//! Whole runs in which calls are pushed to their clients, or stay by one unit or by one call, each with the
//! text that the rules give. A case is the command with the status that it ends with, its input, and what it
//! writes.

pub const PUSHED: &str = "\
$run 0
tenant 1 7
table 5 1 write
policy 1 17
put 1 5 x6b x7631
ext 1 1
fn main() -> int { get(5, args()) { some s => { resp(s); } none => { } } return 0; }
begin 0 1 1 1 0 100 push x6b
>>
4 put 0
5 installed 1 ext 0
7 1.1.1 queued
drain 1.1.1 read 5 x6b 1 pushed
drain 1.1.1 committed 2 done 0 x7631
journal 0 put 1 5 x6b x7631
journal 1 install 1 0 1
fn main() -> int { get(5, args()) { some s => { resp(s); } none => { } } return 0; }
journal 2 invoke 1 1 1 0 100 x6b client done 0 x7631 reads 1 5 x6b 1 writes 0
$run 0
tenant 1 7
table 5 1 write
policy 1 18
put 1 5 x6b x7631
ext 1 1
fn main() -> int { get(5, args()) { some s => { resp(s); } none => { } } return 0; }
begin 0 1 1 1 0 100 push x6b
>>
4 put 0
5 installed 1 ext 0
7 1.1.1 queued
drain 1.1.1 read 5 x6b 1
drain 1.1.1 committed 2 done 0 x7631
journal 0 put 1 5 x6b x7631
journal 1 install 1 0 1
fn main() -> int { get(5, args()) { some s => { resp(s); } none => { } } return 0; }
journal 2 invoke 1 1 1 0 100 x6b server done 0 x7631 reads 1 5 x6b 1 writes 0
$run 0
tenant 1 7
table 5 1 write
policy 2 17
put 1 5 x6b x7631
ext 1 1
fn main() -> int { get(5, args()) { some s => { resp(s); } none => { } } return 0; }
begin 0 1 1 1 0 100 push x6b
>>
4 put 0
5 installed 1 ext 0
7 1.1.1 queued
drain 1.1.1 read 5 x6b 1
drain 1.1.1 committed 2 done 0 x7631
journal 0 put 1 5 x6b x7631
journal 1 install 1 0 1
fn main() -> int { get(5, args()) { some s => { resp(s); } none => { } } return 0; }
journal 2 invoke 1 1 1 0 100 x6b server done 0 x7631 reads 1 5 x6b 1 writes 0
$run 0
tenant 1 7
table 6 1 write
policy 1 1
ext 1 1
fn main() -> int { let a: int = 0; let c: int = 0; get(6, \"a\") { some s => { a = u64(s, 0); } none => { } } get(6, \"b\") { some s => { c = u64(s, 0); } none => { } } while a != c { } return 0; }
begin 0 1 1 1 0 100 push x
turn 0 50
put 1 6 x61 x0000000000000000
away 1 1
away 1 1
>>
4 installed 0 ext 0
6 1.1.1 queued
7 1.1.1 read 6 x61 0 pushed
8 put 1
9 1.1.1 read 6 x62 0
10 1.1.1 conflict 6 x61 0 2
journal 0 install 1 0 1
fn main() -> int { let a: int = 0; let c: int = 0; get(6, \"a\") { some s => { a = u64(s, 0); } none => { } } get(6, \"b\") { some s => { c = u64(s, 0); } none => { } } while a != c { } return 0; }
journal 1 put 1 6 x61 x0000000000000000
$run 0
tenant 1 7
table 6 1 write
policy 1 1
ext 1 1
fn main() -> int { let a: int = 0; let c: int = 0; get(6, \"a\") { some s => { a = u64(s, 0); } none => { } } get(6, \"b\") { some s => { c = u64(s, 0); } none => { } } while a != c { } return 0; }
begin 0 1 1 1 0 100 push x
turn 0 50
cut 1 1
begin 0 1 1 1 0 100 stay x
>>
4 installed 0 ext 0
6 1.1.1 queued
7 1.1.1 read 6 x61 0 pushed
8 1.1.1 cut
9 1.1.1 queued
drain 1.1.1 read 6 x61 0
drain 1.1.1 read 6 x62 0
drain 1.1.1 committed 1 done 0 x
journal 0 install 1 0 1
fn main() -> int { let a: int = 0; let c: int = 0; get(6, \"a\") { some s => { a = u64(s, 0); } none => { } } get(6, \"b\") { some s => { c = u64(s, 0); } none => { } } while a != c { } return 0; }
journal 1 invoke 1 1 1 0 100 x server done 0 x reads 2 6 x61 0 6 x62 0 writes 0
$run 0
tenant 1 7
table 6 1 write
policy 2 1
ext 1 1
fn main() -> int { let a: int = 0; let c: int = 0; get(6, \"a\") { some s => { a = u64(s, 0); } none => { } } get(6, \"b\") { some s => { c = u64(s, 0); } none => { } } while a != c { } return 0; }
begin 0 1 1 1 0 100 push x
begin 0 1 2 1 0 100 push x
turn 0 50
begin 0 1 1 2 0 100 push x
away 1 9
cut 1 9
>>
4 installed 0 ext 0
6 1.1.1 queued
7 1.2.1 queued
8 1.1.1 read 6 x61 0 pushed
9 1.1.2 busy 1
10 idle
11 idle
drain 1.2.1 read 6 x61 0
drain 1.2.1 read 6 x62 0
drain 1.2.1 committed 1 done 0 x
drain 1.1.1 read 6 x62 0
drain 1.1.1 committed 2 done 0 x
journal 0 install 1 0 1
fn main() -> int { let a: int = 0; let c: int = 0; get(6, \"a\") { some s => { a = u64(s, 0); } none => { } } get(6, \"b\") { some s => { c = u64(s, 0); } none => { } } while a != c { } return 0; }
journal 1 invoke 1 2 1 0 100 x server done 0 x reads 2 6 x61 0 6 x62 0 writes 0
journal 2 invoke 1 1 1 0 100 x client done 0 x reads 2 6 x61 0 6 x62 0 writes 0
$run 0
tenant 1 7
table 6 1 write
policy 1 2
ext 1 1
fn main() -> int { let b: buf = alloc(6, \"k\", 1); set(b, 0, byte(args(), 0)); put(b); return 0; }
begin 0 1 1 1 0 4 push x01
begin 0 1 2 1 0 3 push x02
turn 0 1
turn 0 2
turn 0 1
>>
4 installed 0 ext 0
6 1.1.1 queued
7 1.2.1 queued
8 1.1.1 on 1
9 1.2.1 on 2 pushed
10 1.1.1 on 2 pushed
drain 1.2.1 committed 1 killed
drain 1.1.1 committed 2 done 0 x
journal 0 install 1 0 1
fn main() -> int { let b: buf = alloc(6, \"k\", 1); set(b, 0, byte(args(), 0)); put(b); return 0; }
journal 1 invoke 1 2 1 0 3 x02 client killed reads 0 writes 0
journal 2 invoke 1 1 1 0 4 x01 client done 0 x reads 0 writes 1 6 x6b put x01
";
