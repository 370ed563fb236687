ghost use Rattle.std.specs.Prelude.{◌≡◌};
ghost use Rattle.ext_mean.specs.Tokens as spelling;
ghost use Rattle.ext_tokens.specs.Words.{word_among};

use ext_mean::Word;
use sp_base::same_bytes;

/// The words of the language.
const WORDS: [Word; 30] = [
    Word::Fn,
    Word::Let,
    Word::If,
    Word::Else,
    Word::While,
    Word::Get,
    Word::Multiget,
    Word::Some,
    Word::None,
    Word::Set,
    Word::Set8,
    Word::Copy,
    Word::Put,
    Word::Del,
    Word::Resp,
    Word::Return,
    Word::Int,
    Word::Bool,
    Word::Slice,
    Word::Buf,
    Word::Temp,
    Word::True,
    Word::False,
    Word::Args,
    Word::Len,
    Word::Byte,
    Word::U64,
    Word::Sub,
    Word::View,
    Word::Alloc,
];

/// The word with these letters.
pub fn word_of(bytes: &[u8]) -> Option<Word>
    ensures { result ≡ word_among WORDS bytes.now }
{
    word_among(&WORDS, bytes)
}

/// The first of these words that has the letters.
fn word_among(words: &[Word], bytes: &[u8]) -> Option<Word>
    ensures { result ≡ word_among words.now bytes.now }
{
    for word in words {
        if same_bytes(letters(*word), bytes) {
            return Some(*word);
        }
    }
    None
}

/// The letters of a word.
pub fn letters(word: Word) -> &'static [u8]
    ensures { result.now ≡ spelling.letters word }
{
    match word {
        Word::Fn => b"fn",
        Word::Let => b"let",
        Word::If => b"if",
        Word::Else => b"else",
        Word::While => b"while",
        Word::Get => b"get",
        Word::Multiget => b"multiget",
        Word::Some => b"some",
        Word::None => b"none",
        Word::Set => b"set",
        Word::Set8 => b"set8",
        Word::Copy => b"copy",
        Word::Put => b"put",
        Word::Del => b"del",
        Word::Resp => b"resp",
        Word::Return => b"return",
        Word::Int => b"int",
        Word::Bool => b"bool",
        Word::Slice => b"slice",
        Word::Buf => b"buf",
        Word::Temp => b"temp",
        Word::True => b"true",
        Word::False => b"false",
        Word::Args => b"args",
        Word::Len => b"len",
        Word::Byte => b"byte",
        Word::U64 => b"u64",
        Word::Sub => b"sub",
        Word::View => b"view",
        Word::Alloc => b"alloc",
    }
}
