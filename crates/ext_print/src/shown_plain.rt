//! The tokens of statements that have no block.

ghost use Rattle.std.specs.Prelude.{◌≡◌, ◌++◌, OnOk, [], ◌∷◌};
ghost use Rattle.ext_mean.specs.Canonical as canon;
ghost use Rattle.ext_mean.specs.Wording as wording;
ghost use Rattle.ext_mean.specs.declared.token.Token.TheVariants as token;

use crate::shown_expressions::{show_expression, show_named, show_one, show_two};
use ext_mean::{Expr, Kind, Mark, Name, Token, Word};
use sp_base::Memory;
use sqlite_items::Items;
use std::alloc::Global;

/// Adds a mark.
pub fn show_mark(tokens: &mut Items<Token>, mark: Mark) -> Result<(), Memory>
    ensures { OnOk result (tokens.new ≡ tokens.old ++ token.Mark mark ∷ []) }
{
    tokens.push(Token::Mark(mark))?;
    Ok(())
}

/// Adds a word.
pub fn show_word(tokens: &mut Items<Token>, word: Word) -> Result<(), Memory>
    ensures { OnOk result (tokens.new ≡ tokens.old ++ token.Word word ∷ []) }
{
    tokens.push(Token::Word(word))?;
    Ok(())
}

/// Adds a name.
pub fn show_name(alloc: Global, tokens: &mut Items<Token>, name: &Name) -> Result<(), Memory>
    ensures { OnOk result (tokens.new ≡ tokens.old ++ token.Name name.now ∷ []) }
{
    tokens.push(Token::Name(name.share(alloc)?))?;
    Ok(())
}

/// Adds the word of a kind.
pub fn show_kind(tokens: &mut Items<Token>, kind: Kind) -> Result<(), Memory>
    ensures { OnOk result (tokens.new ≡ tokens.old ++ wording.kind_token kind ∷ []) }
{
    match kind {
        Kind::Int => show_word(tokens, Word::Int),
        Kind::Bool => show_word(tokens, Word::Bool),
        Kind::Slice => show_word(tokens, Word::Slice),
        Kind::Buf => show_word(tokens, Word::Buf),
        Kind::Temp => show_word(tokens, Word::Temp),
    }
}

/// Adds `let name: kind = value;`.
pub fn show_let(
    alloc: Global,
    tokens: &mut Items<Token>,
    name: &Name,
    kind: Kind,
    value: &Expr,
) -> Result<(), Memory>
    ensures { OnOk result (tokens.new ≡ tokens.old ++ canon.let_shown name.now kind (canon.expression_tokens value.now)) }
{
    show_declared(alloc, tokens, name, kind)?;
    show_expression(alloc, tokens, value)?;
    show_mark(tokens, Mark::Semicolon)
}

/// Adds `let name: kind = function(args);`.
pub fn show_let_call(
    alloc: Global,
    tokens: &mut Items<Token>,
    name: &Name,
    kind: Kind,
    function: &Name,
    args: &[Expr],
) -> Result<(), Memory>
    ensures { OnOk result (tokens.new ≡ tokens.old ++ canon.let_shown name.now kind
        (token.Name function.now ∷ wording.open_ ∷ (canon.listed args.now ++ wording.close ∷ []))) }
{
    show_declared(alloc, tokens, name, kind)?;
    show_name(alloc, tokens, function)?;
    show_arguments(alloc, tokens, args)?;
    show_mark(tokens, Mark::Semicolon)
}

/// Adds `name = value;`.
pub fn show_assign(
    alloc: Global,
    tokens: &mut Items<Token>,
    name: &Name,
    value: &Expr,
) -> Result<(), Memory>
    ensures { OnOk result (tokens.new ≡ tokens.old
        ++ token.Name name.now ∷ wording.assigns ∷ (canon.expression_tokens value.now ++ wording.semicolon ∷ [])) }
{
    show_name(alloc, tokens, name)?;
    show_mark(tokens, Mark::Assign)?;
    show_expression(alloc, tokens, value)?;
    show_mark(tokens, Mark::Semicolon)
}

/// Adds `return value;`.
pub fn show_return(alloc: Global, tokens: &mut Items<Token>, value: &Expr) -> Result<(), Memory>
    ensures { OnOk result (tokens.new ≡ tokens.old
        ++ token.Word Word.Return ∷ (canon.expression_tokens value.now ++ wording.semicolon ∷ [])) }
{
    show_word(tokens, Word::Return)?;
    show_expression(alloc, tokens, value)?;
    show_mark(tokens, Mark::Semicolon)
}

/// Adds `put(name);`.
pub fn show_put(alloc: Global, tokens: &mut Items<Token>, name: &Name) -> Result<(), Memory>
    ensures { OnOk result (tokens.new ≡ tokens.old
        ++ (canon.with_one Word.Put (token.Name name.now ∷ []) ++ wording.semicolon ∷ [])) }
{
    show_named(alloc, tokens, Word::Put, name)?;
    show_mark(tokens, Mark::Semicolon)
}

/// Adds `del(table, key);`.
pub fn show_del(
    alloc: Global,
    tokens: &mut Items<Token>,
    table: &Expr,
    key: &Expr,
) -> Result<(), Memory>
    ensures { OnOk result (tokens.new ≡ tokens.old
        ++ (canon.with_two Word.Del (canon.expression_tokens table.now) (canon.expression_tokens key.now)
        ++ wording.semicolon ∷ [])) }
{
    show_two(alloc, tokens, Word::Del, table, key)?;
    show_mark(tokens, Mark::Semicolon)
}

/// Adds `resp(value);`.
pub fn show_resp(alloc: Global, tokens: &mut Items<Token>, value: &Expr) -> Result<(), Memory>
    ensures { OnOk result (tokens.new ≡ tokens.old
        ++ (canon.with_one Word.Resp (canon.expression_tokens value.now) ++ wording.semicolon ∷ [])) }
{
    show_one(alloc, tokens, Word::Resp, value)?;
    show_mark(tokens, Mark::Semicolon)
}

/// Adds `{ some name =>`.
pub fn show_some(alloc: Global, tokens: &mut Items<Token>, name: &Name) -> Result<(), Memory>
    ensures { OnOk result (tokens.new ≡ tokens.old ++ wording.open_block ∷ token.Word Word.Some
        ∷ token.Name name.now ∷ token.Mark Mark.Arm ∷ []) }
{
    show_mark(tokens, Mark::OpenBlock)?;
    show_word(tokens, Word::Some)?;
    show_name(alloc, tokens, name)?;
    show_mark(tokens, Mark::Arm)
}

/// Adds `none =>`.
pub fn show_none(tokens: &mut Items<Token>) -> Result<(), Memory>
    ensures { OnOk result (tokens.new ≡ tokens.old ++ token.Word Word.None ∷ token.Mark Mark.Arm ∷ []) }
{
    show_word(tokens, Word::None)?;
    show_mark(tokens, Mark::Arm)
}

/// Adds `let name: kind =`.
fn show_declared(
    alloc: Global,
    tokens: &mut Items<Token>,
    name: &Name,
    kind: Kind,
) -> Result<(), Memory>
    ensures { OnOk result (tokens.new ≡ tokens.old ++ canon.declared_shown name.now kind) }
{
    show_word(tokens, Word::Let)?;
    show_name(alloc, tokens, name)?;
    show_mark(tokens, Mark::Colon)?;
    show_kind(tokens, kind)?;
    show_mark(tokens, Mark::Assign)
}

/// Adds the arguments of a call with their parentheses.
fn show_arguments(alloc: Global, tokens: &mut Items<Token>, args: &[Expr]) -> Result<(), Memory>
    ensures { OnOk result (tokens.new ≡ tokens.old ++ wording.open_ ∷ (canon.listed args.now ++ wording.close ∷ [])) }
{
    show_mark(tokens, Mark::Open)?;
    if let [first, more @ ..] = args {
        show_expression(alloc, tokens, first)?;
        show_listed(alloc, tokens, more)?;
    }
    show_mark(tokens, Mark::Close)
}

/// Adds expressions, each behind a comma.
fn show_listed(alloc: Global, tokens: &mut Items<Token>, args: &[Expr]) -> Result<(), Memory>
    ensures { OnOk result (tokens.new ≡ tokens.old ++ canon.listed_behind args.now) }
{
    for arg in args {
        show_mark(tokens, Mark::Comma)?;
        show_expression(alloc, tokens, arg)?;
    }
    Ok(())
}

/// Adds `set(name, place, value);`.
pub fn show_set(
    alloc: Global,
    tokens: &mut Items<Token>,
    name: &Name,
    place: &Expr,
    value: &Expr,
) -> Result<(), Memory>
    ensures { OnOk result (tokens.new ≡ tokens.old
        ++ (canon.with_three Word.Set (token.Name name.now ∷ []) (canon.expression_tokens place.now)
        (canon.expression_tokens value.now) ++ wording.semicolon ∷ [])) }
{
    show_write(alloc, tokens, Word::Set, name, place, value)
}

/// Adds `set8(name, place, value);`.
pub fn show_set8(
    alloc: Global,
    tokens: &mut Items<Token>,
    name: &Name,
    place: &Expr,
    value: &Expr,
) -> Result<(), Memory>
    ensures { OnOk result (tokens.new ≡ tokens.old
        ++ (canon.with_three Word.Set8 (token.Name name.now ∷ []) (canon.expression_tokens place.now)
        (canon.expression_tokens value.now) ++ wording.semicolon ∷ [])) }
{
    show_write(alloc, tokens, Word::Set8, name, place, value)
}

/// Adds `copy(name, place, source);`.
pub fn show_copy(
    alloc: Global,
    tokens: &mut Items<Token>,
    name: &Name,
    place: &Expr,
    source: &Expr,
) -> Result<(), Memory>
    ensures { OnOk result (tokens.new ≡ tokens.old
        ++ (canon.with_three Word.Copy (token.Name name.now ∷ []) (canon.expression_tokens place.now)
        (canon.expression_tokens source.now) ++ wording.semicolon ∷ [])) }
{
    show_write(alloc, tokens, Word::Copy, name, place, source)
}

/// Adds a write into a buffer.
fn show_write(
    alloc: Global,
    tokens: &mut Items<Token>,
    word: Word,
    name: &Name,
    place: &Expr,
    value: &Expr,
) -> Result<(), Memory>
    ensures { OnOk result (tokens.new ≡ tokens.old
        ++ (canon.with_three word (token.Name name.now ∷ []) (canon.expression_tokens place.now)
        (canon.expression_tokens value.now) ++ wording.semicolon ∷ [])) }
{
    show_word(tokens, word)?;
    show_mark(tokens, Mark::Open)?;
    show_name(alloc, tokens, name)?;
    show_mark(tokens, Mark::Comma)?;
    show_expression(alloc, tokens, place)?;
    show_mark(tokens, Mark::Comma)?;
    show_expression(alloc, tokens, value)?;
    show_mark(tokens, Mark::Close)?;
    show_mark(tokens, Mark::Semicolon)
}
