use crate::notation::{parts, text_of};
use ext_mean::{Placed, Token};
use ext_tokens::{End, Scanned, ends_line, scan_text};
use sp_base::Memory;
use std::alloc::Global;
use std::test::Fail;

/// Adds a token: a word, a mark or an operator by what the tree calls it, a name by its letters, a
/// number, or the bytes of a byte string.
fn push_token(text: &mut String, token: &Token) -> Result<(), Fail> {
    match token {
        Token::Word(word) => write!(text, "{word:?}")?,
        Token::Name(name) => text.push_str(str::from_utf8(name.bytes())?)?,
        Token::Number(number) => write!(text, "{number}")?,
        Token::Str(items) => {
            text.push_str("x")?;
            for byte in items.bytes() {
                write!(text, "{byte:02x}")?;
            }
        }
        Token::Mark(mark) => write!(text, "{mark:?}")?,
        Token::Not => text.push_str("Not")?,
        Token::Binary(operator) => write!(text, "{operator:?}")?,
    }
    Ok(())
}

/// The tokens in words, each behind its line.
fn told(alloc: Global, tokens: &[Placed]) -> Result<String, Fail> {
    let mut text = String::new(alloc);
    for placed in tokens {
        let line = placed.line;
        write!(text, "{line}:")?;
        push_token(&mut text, &placed.token)?;
        text.push_str(" ")?;
    }
    Ok(text)
}

/// What stands behind the last token: the lines of the whole text, or a fault.
fn told_end(alloc: Global, end: End) -> Result<String, Fail> {
    match end {
        End::Text(lines) => Ok(format!(in alloc; "end {lines}")?),
        End::Fault(line, code) => Ok(format!(in alloc; "{line} {code:?}")?),
    }
}

/// The tokens of a text and its end, which no case wants where it may not be scanned.
fn scanned(alloc: Global, text: &[u8]) -> Result<Scanned, Memory> {
    if text.len() > 16_384 || !ends_line(text) {
        let tokens = Vec::new(alloc);
        let end = End::Text(0);
        return Ok(Scanned { tokens, end });
    }
    scan_text(alloc, text)
}

/// Texts with their tokens, up to the end or to the first fault.
const TOKENS: &str = "\
fn set8(set9) -> u64 {~ => 1:Fn 1:Set8 1:Open 1:set9 1:Close 1:Arrow 1:U64 1:OpenBlock end 1
a=>b==c~= >d~ => 1:a 1:Arm 1:b 1:Equal 1:c 2:Assign 2:Greater 2:d end 2
<=<!=!~ => 1:LessEqual 1:Less 1:NotEqual 1:Not end 1
>=>-->~ => 1:GreaterEqual 1:Greater 1:Subtract 1:Arrow end 1
# a \"x~~$7 0 18446744073709551615 # end = 1a~#~ => 3:7 3:0 3:18446744073709551615 end 4
\"a # \\x0a\\xffb\"\"\"~ => 1:x612023200aff62 1:x end 1
abcdefghijklmnopqrstuvwxyz_12345~ => 1:abcdefghijklmnopqrstuvwxyz_12345 end 1
~# nothing~ ~ => end 3
abcdefghijklmnopqrstuvwxyz_123456~ => 1 Long
x~18446744073709551616~ => 1:x 2 Long
99999999999999999999999999999999;~ => 1 Long
18446744073709551616a~ => 1 Token
07~ => 1 Token
00~ => 1 Token
1a~ => 1 Token
1_~ => 1 Token
1A~ => 1 Token
len(\"\\xAA\")~ => 1:Len 1:Open 1 Token
\"\\x0\"~ => 1 Token
\"\\n\"~ => 1 Token
\"abc~\"~ => 1 Token
\"^\"~ => 1 Token
x # a~# ^~ => 1:x 2 Token
# a~~ ?~ => 3 Token
a & b~ => 1:a 1 Token
a~|b~ => 1:a 2 Token
a B~ => 1:a 1 Token
";

#[test]
fn each_token_is_read_with_its_line(rt: HostRuntime) -> Result<(), Fail> {
    let alloc = rt.alloc();
    for case in TOKENS.lines() {
        let (notation, wanted) = parts(case)?;
        let text = text_of(alloc, notation)?;
        let found = scanned(alloc, text.as_slice())?;
        let mut all = told(alloc, found.tokens.as_slice())?;
        all.push_str(told_end(alloc, found.end)?.as_str())?;
        assert_eq!(rt; all.as_str(), wanted, "{notation}");
    }
    Ok(())
}

/// Texts with open brackets, and what ends their tokens.
const BRACKETS: &str = "\
[(@32]~ => end 1
[(@32]~(~ => 2 Deep
[{@32]~ => end 1
[{@32]~{~ => 2 Deep
[({@16]~(~ => 2 Deep
[(@32])({}~ => 1 Deep
[(@32]})~({~ => end 2
[){}@40]~ => end 1
";

#[test]
fn the_33rd_open_bracket_is_too_deep(rt: HostRuntime) -> Result<(), Fail> {
    let alloc = rt.alloc();
    for case in BRACKETS.lines() {
        let (notation, wanted) = parts(case)?;
        let text = text_of(alloc, notation)?;
        let found = scanned(alloc, text.as_slice())?;
        let end = told_end(alloc, found.end)?;
        assert_eq!(rt; end.as_str(), wanted, "{notation}");
    }
    Ok(())
}
