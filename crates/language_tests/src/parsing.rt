use crate::notation::{parts, text_of};
use ext_parse::{ParseFault, Parsed, parse, print};
use sp_base::Blob;
use std::alloc::Global;
use std::process::Abort;
use std::test::Fail;

/// What is told of a text: `ok`, or the line and the code of its fault.
fn told(alloc: Global, text: &[u8]) -> Result<String, Fail> {
    match parse(alloc, text) {
        Ok(_) => Ok(String::from_str(alloc, "ok")?),
        Err(ParseFault::Syntax { line, code }) => Ok(format!(in alloc; "{line} {code:?}")?),
        Err(ParseFault::Memory) => Err(Fail::new("no memory")),
    }
}

/// Each bound at the last that it lets through and one step above it, and each place of a fault. In
/// order: sizes and ends, brackets, functions, locals, operators, names and numbers, bytes, places.
const TEXTS: &str = "\
~ => 1 Expected
 => 1 Expected
# none~ => 1 Expected
fn main()->int{return 0;}[ @16358]~ => ok
fn main()->int{return 0;}[ @16359]~ => 1 Long
[~@16385]^ => 1 Long
^ => 1 Expected
fn main()->int{return 0;} => 1 Expected
fn main()->int{~^return 0;} => 2 Expected
fn main()->int{~# }~~ => 3 Expected
fn main()->int{return [(@31]0[)@31];}~ => ok
fn main()->int{return [(@31]0~(~ => 2 Deep
fn main()->int{[if true{@31][}@31]}~ => ok
fn main()->int{[if true{@31]~while 1{~ => 2 Deep
fn main()->int{[if true{@15]return [(@16]0[)@16];[}@15]}~ => ok
fn main()->int{[if true{@15]return [(@16]~(0[)@17];~ => 2 Deep
fn main()->int{[if true{@31]~0{~ => 2 Expected
fn main()->int{[resp(args());@40]}~ => ok
[fn f()->int{}~@32]~ => ok
[fn f()->int{}~@33]~ => 33 Many
[fn f()->int{}~@32]int~ => 33 Expected
fn f()->int{~fn~ => 2 Expected
fn main()->int{[let a:int=0;~@256]}~ => ok
fn main()->int{[let a:int=0;~@257]}~ => 257 Many
fn f(a:int[,~a:int@255])->int{}~ => ok
fn f(a:int[,~a:int@256])->int{}~ => 257 Many
fn f()->int{[get(0,args()){some s=>{}none=>{}}~@256]}~ => ok
fn f()->int{[get(0,args()){some s=>{}none=>{}}~@257]}~ => 257 Many
fn f(a:int)->int{[let b:int=f();@254]~multiget(0,a,1){some s=>{}none=>{}}}~ => ok
fn f(a:int)->int{[let b:int=f();@255]~multiget(0,a,1){some s=>{}none=>{}}}~ => 2 Many
fn f()->int{[if 1{let a:int=0;}@256]}fn g()->int{let a:int=0;}~ => ok
fn f()->int{[let a:int=0;@256]~let [a@33]:int=0;}~ => 2 Long
fn f()->int{[let a:int=0;@256]~let if:int=0;}~ => 2 Expected
fn main()->int{return 0[+0@64];}~ => ok
fn main()->int{return 0[+0@64]~+0;}~ => 2 Many
fn main()->int{return !0[+!0@31]+0;}~ => ok
fn main()->int{return !0[+!0@31]+0~+0;}~ => 2 Many
fn main()->int{return 0[+0@63]+~!0;}~ => 2 Many
fn main()->int{let a:int=0[+0@64];a=0[+0@64];}~ => ok
fn main()->int{return 0[+0@63]+~+0;}~ => 2 Many
fn main()->int{return 0[+0@62]+~+0;}~ => 2 Expected
fn main()->int{get(0[+0@64],args()){~+~ => 2 Many
fn main()->int{get(0[+0@64],args()){some s=>{}~+~ => 2 Many
fn main()->int{get(0[+0@64],args()){some s=>{}none=>{}~+~ => 2 Many
fn main()->int{get(0[+0@64],args()){some s=>{}none=>{}}~+~ => 2 Expected
fn main()->int{get(0[+0@64],args()){some s=>{~+~ => 2 Expected
fn main()->int{if 0[+0@64]{}else~+~ => 2 Many
fn main()->int{if 0[+0@64]{}~+~ => 2 Expected
fn main()->int{if 0[+0@64]{~+~ => 2 Expected
fn main()->int{while 0[+0@64]{}~+~ => 2 Expected
fn main()->int{let a:int=0[+0@64];~+~ => 2 Expected
fn main()->int{return [a@32];}~ => ok
fn main()->int{return~[a@33];}~ => 2 Long
fn main(~(~[a@33]~ => 2 Expected
fn main()->int{~+[a@33]~ => 2 Expected
fn main()->int{~[a@33]+~ => 2 Long
fn main()->int{return 18446744073709551615;}~ => ok
fn main()->int{return~18446744073709551616;}~ => 2 Long
fn main()->int{~18446744073709551616~ => 2 Long
fn main()->int{return~18446744073709551616a;}~ => 2 Token
fn main()->int{return~07;}~ => 2 Token
fn main()->int{return~7a;}~ => 2 Token
fn main()->int{return~7A;}~ => 2 Token
fn$main()->int{return$0;}#$~ => ok
fn main()->int{return 0;}~#^~ => 2 Token
fn main()->int{return 0;}~x~#^~ => 2 Expected
fn main()->int{resp(~\"a^\");}~ => 2 Token
fn main()->int{return 0;}~^~ => 2 Token
fn main()->int{resp(\"#\\x0a\");}~ => ok
fn main()->int{resp(~\"\\x0A\");}~ => 2 Token
fn main()->int{return 0;~put(b);}~ => 2 Expected
fn main()->int{return 0;~return 0;}~ => 2 Expected
fn main()->int{return 1<2~<3;}~ => 2 Expected
fn main()->int{return 1<2~==3;}~ => 2 Expected
fn main()->int{return (1<2)<3+4;}~ => ok
fn main()->int{return !~!a;}~ => 2 Expected
fn main()->int{return !(!a);}~ => ok
fn main()->int{let a:int=f();let b:int=f(1,(2));}~ => ok
fn main()->int{let a:int=1+f~(2);}~ => 2 Expected
fn main()->int{let a:int=(f~(2));}~ => 2 Expected
fn main()->int{let a:int=f(2)~+1;}~ => 2 Expected
fn main()->int{let a:int=f(f~(2));}~ => 2 Expected
fn main()->int{a=f~();}~ => 2 Expected
fn main()->int{if a{}~else b{}}~ => 2 Expected
fn main()->int{while a{}~else{}}~ => 2 Expected
fn main()->int{get(0,args()){~none=>{}some s=>{}}}~ => 2 Expected
fn main()->int{}~int~ => 2 Expected
";

/// Extensions that a tenant may install: a look-up, a counter, a look-up in two hops, a deletion, a
/// blind write, a wait until two records agree, a write that is read back, and many writes.
const WORKED: &str = "\
fn main() -> int { get(5, args()) { some s => { resp(s); } none => { } } return 0; }~ => ok
fn main() -> int { let n: int = 0; get(6, args()) { some s => { n = u64(s, 0); } none => { } } \
let b: buf = alloc(6, args(), 8); set8(b, 0, n + 1); put(b); return n + 1; }~ => ok
fn main() -> int { get(5, args()) { some s => { multiget(5, s, 1) { some u => { resp(u); } \
none => { } } } none => { } } return 0; }~ => ok
fn main() -> int { del(6, args()); return 0; }~ => ok
fn main() -> int { let b: buf = alloc(6, \"k\", 1); set(b, 0, byte(args(), 0)); put(b); \
return 0; }~ => ok
fn main() -> int { let a: int = 0; let c: int = 0; get(6, \"a\") { some s => { a = u64(s, 0); } \
none => { } } get(6, \"b\") { some s => { c = u64(s, 0); } none => { } } while a != c { } \
return 0; }~ => ok
fn main() -> int { let b: buf = alloc(6, \"k\", 1); put(b); get(6, \"k\") { some s => \
{ return byte(s, 0) + 5; } none => { } } return 9; }~ => ok
fn main() -> int { let i: int = 0; while i < 65 { let k: temp = temp(1); set(k, 0, i); \
let b: buf = alloc(6, view(k), 0); put(b); i = i + 1; } return 0; }~ => ok
";

fn expect_all(rt: &impl Abort, alloc: Global, cases: &str) -> Result<(), Fail> {
    for case in cases.lines() {
        let (notation, wanted) = parts(case)?;
        let text = text_of(alloc, notation)?;
        let found = told(alloc, text.as_slice())?;
        assert_eq!(rt; found.as_str(), wanted, "{notation}");
    }
    Ok(())
}

#[test]
fn each_text_is_a_program_or_has_its_fault(rt: HostRuntime) -> Result<(), Fail> {
    expect_all(&rt, rt.alloc(), WORKED)?;
    expect_all(&rt, rt.alloc(), TEXTS)
}

/// Programs, each with its canonical text.
const CANONICAL: &str = "\
fn main() -> int { get(5, args()) { some s => { resp(s); } none => { } } return 0; }~ => \
fn main()->int{get(5,args()){some s=>{resp(s);}none=>{}}return 0;}~
fn main ( ) -> int { return ( ( 1 ) ) ; } # end~ => fn main()->int{return 1;}~
fn f(a : int ,~b : slice)~->$buf~{}#~ => fn f(a:int,b:slice)->buf{}~
fn f()->int{}~fn g()->bool{return true;}~ => fn f()->int{}fn g()->bool{return true;}~
fn f()->int{return(1+2)*3;}~ => fn f()->int{return(1+2)*3;}~
fn f()->int{return 1+(2*3);}~ => fn f()->int{return 1+2*3;}~
fn f()->int{return (1-2)-(3-4);}~ => fn f()->int{return 1-2-(3-4);}~
fn f()->int{return (1*2)/(3*4);}~ => fn f()->int{return 1*2/(3*4);}~
fn f()->int{return (a<b)==(c<d);}~ => fn f()->int{return(a<b)==(c<d);}~
fn f()->int{return (a+b)<(c%d);}~ => fn f()->int{return a+b<c%d;}~
fn f()->int{return ((a&&b)||c)&&(d&&(e&&g));}~ => fn f()->int{return(a&&b||c)&&(d&&(e&&g));}~
fn f()->int{return (a||b)||(c||(d&&e));}~ => fn f()->int{return a||b||(c||d&&e);}~
fn f()->int{return (!(a))==(!(!(b==c)));}~ => fn f()->int{return!a==!(!(b==c));}~
fn f()->int{return !(len((args())));}~ => fn f()->int{return!len(args());}~
fn f()->int{if (a) {} else { } if(b){a=(1);}else{put( b );}}~ => \
fn f()->int{if a{}if b{a=1;}else{put(b);}}~
fn f()->int{while ( (1) < i ) { let x : int = f( 1 , (2) ) ; }}~ => \
fn f()->int{while 1<i{let x:int=f(1,2);}}~
fn f()->int{resp(\"# \\x41\\x7d\\x20\\x22\\x5c\\x0a\\x7f\\xff\");# x~}~ => \
fn f()->int{resp(\"# A} \\x22\\x5c\\x0a\\x7f\\xff\");}~
fn f( b : temp ) -> int { let n : int = u64( sub( args( ) , 0 , 8 ) , 0 ) + byte( \"a\" , 0 ) ; \
set( b , 0 , n ) ; set8( b , 0 , n ) ; copy( b , 0 , view( b ) ) ; resp( \"\" ) ; \
let c : buf = alloc( 6 , \"k\" , len( \"\" ) ) ; put( c ) ; \
let d : temp = temp( 8 ) ; return false ; }~ => \
fn f(b:temp)->int{let n:int=u64(sub(args(),0,8),0)+byte(\"a\",0);\
set(b,0,n);set8(b,0,n);copy(b,0,view(b));resp(\"\");\
let c:buf=alloc(6,\"k\",len(\"\"));put(c);\
let d:temp=temp(8);return false;}~
fn f()->slice{return \"a\" ;}~ => fn f()->slice{return\"a\";}~
fn f()->int{multiget ( 5 , s , (1) ) { some u => { } none => { del(6,u); } }}~ => \
fn f()->int{multiget(5,s,1){some u=>{}none=>{del(6,u);}}}~
";

/// The canonical text of the program of a text.
fn canonical(alloc: Global, text: &[u8]) -> Result<Blob, Fail> {
    let parsed = parse(alloc, text)?;
    Ok(print(alloc, &parsed.program)?)
}

#[test]
fn a_program_has_one_short_text(rt: HostRuntime) -> Result<(), Fail> {
    let alloc = rt.alloc();
    for case in CANONICAL.lines() {
        let (notation, wanted) = parts(case)?;
        let text = text_of(alloc, notation)?;
        let wanted = text_of(alloc, wanted)?;
        let printed = canonical(alloc, text.as_slice())?;
        assert_eq!(rt; printed.bytes(), wanted.as_slice(), "{notation}");
    }
    Ok(())
}
