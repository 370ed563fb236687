//! The tokens of an expression, with the parentheses that it needs.

ghost use Rattle.std.specs.Prelude.{◌≡◌, ◌+◌, ◌++◌, OnOk, IfOk, [], ◌∷◌};
ghost use Rattle.ext_mean.specs.Canonical as canon;
ghost use Rattle.ext_mean.specs.declared.token.Token.TheVariants as token;
ghost use Rattle.ext_mean.specs.declared.token.Mark.TheVariants as mark;

use ext_mean::{BinOp, Expr, Mark, Name, Token, Word};
use sp_base::Memory;
use sqlite_items::Items;
use std::alloc::Global;

/// How tightly the operator binds.
fn binding(operator: BinOp) -> u8
    ensures { result ≡ canon.binding operator }
{
    match operator {
        BinOp::Or => 0,
        BinOp::And => 1,
        BinOp::Add | BinOp::Subtract => 3,
        BinOp::Multiply | BinOp::Divide | BinOp::Remainder => 4,
        _ => 2,
    }
}

/// How tightly the left side of the operator must bind.
fn left_binding(operator: BinOp) -> u8
    ensures { result ≡ canon.left_binding operator }
{
    match operator {
        BinOp::Or => 0,
        BinOp::And => 1,
        BinOp::Multiply | BinOp::Divide | BinOp::Remainder => 4,
        _ => 3,
    }
}

/// How tightly an expression binds.
#[tactic(auto, using(ext_mean::proofs::CanonicalForms::shown_forms))]
fn binds(expr: &Expr) -> u8
    ensures { result ≡ (canon.shown expr.now).binds }
{
    match expr {
        Expr::Bin(operator, _, _) => binding(*operator),
        Expr::Not(_) => 5,
        Expr::Number(_) | Expr::Str(_) | Expr::Truth(_) | Expr::Var(_) => 6,
        Expr::Args | Expr::Len(_) | Expr::View(_) | Expr::Temp(_) => 6,
        Expr::Byte(_, _) | Expr::Word(_, _) => 6,
        Expr::Sub(_, _, _) | Expr::Alloc(_, _, _) => 6,
    }
}

/// Adds the tokens of an expression, in parentheses where it binds less than its place asks.
#[cycle(shown)]
fn show_at_least(
    alloc: Global,
    tokens: &mut Items<Token>,
    least: u8,
    expr: &Expr,
) -> Result<(), Memory>
    ensures { OnOk result (tokens.new ≡ tokens.old ++ canon.at_least least (canon.shown expr.now)) }
{
    if least <= binds(expr) {
        return show_expression(alloc, tokens, expr);
    }
    tokens.push(Token::Mark(Mark::Open))?;
    show_expression(alloc, tokens, expr)?;
    tokens.push(Token::Mark(Mark::Close))?;
    Ok(())
}

/// Adds the tokens of an expression.
#[cycle(shown)]
#[tactic(auto, using(ext_mean::proofs::CanonicalForms::shown_forms))]
pub fn show_expression(alloc: Global, tokens: &mut Items<Token>, expr: &Expr) -> Result<(), Memory>
    ensures { OnOk result (tokens.new ≡ tokens.old ++ canon.expression_tokens expr.now) }
{
    match expr {
        Expr::Number(value) => tokens.push(Token::Number(*value))?,
        Expr::Str(items) => tokens.push(Token::Str(items.share(alloc)?))?,
        Expr::Truth(true) => tokens.push(Token::Word(Word::True))?,
        Expr::Truth(false) => tokens.push(Token::Word(Word::False))?,
        Expr::Var(name) => tokens.push(Token::Name(name.share(alloc)?))?,
        Expr::Args => show_args(tokens)?,
        Expr::View(name) => show_named(alloc, tokens, Word::View, name)?,
        Expr::Len(bytes) => show_one(alloc, tokens, Word::Len, bytes.get())?,
        Expr::Temp(size) => show_one(alloc, tokens, Word::Temp, size.get())?,
        Expr::Byte(bytes, at) => show_two(alloc, tokens, Word::Byte, bytes.get(), at.get())?,
        Expr::Word(bytes, at) => show_two(alloc, tokens, Word::U64, bytes.get(), at.get())?,
        Expr::Sub(bytes, at, size) => {
            show_three(alloc, tokens, Word::Sub, bytes.get(), at.get(), size.get())?
        }
        Expr::Alloc(table, key, size) => {
            show_three(
                alloc,
                tokens,
                Word::Alloc,
                table.get(),
                key.get(),
                size.get(),
            )?
        }
        Expr::Not(operand) => show_not(alloc, tokens, operand.get())?,
        Expr::Bin(operator, left, right) => {
            show_sides(alloc, tokens, *operator, left.get(), right.get())?
        }
    }
    Ok(())
}

/// Adds `!` and its operand.
#[cycle(shown)]
fn show_not(alloc: Global, tokens: &mut Items<Token>, operand: &Expr) -> Result<(), Memory>
    ensures { OnOk result (tokens.new ≡ tokens.old ++ token.Not ∷ canon.at_least 6 (canon.shown operand.now)) }
{
    tokens.push(Token::Not)?;
    show_at_least(alloc, tokens, 6, operand)
}

/// Adds an operator between its two sides.
#[cycle(shown)]
fn show_sides(
    alloc: Global,
    tokens: &mut Items<Token>,
    operator: BinOp,
    left: &Expr,
    right: &Expr,
) -> Result<(), Memory>
    ensures { OnOk result (tokens.new ≡ tokens.old
        ++ (canon.at_least (canon.left_binding operator) (canon.shown left.now)
        ++ token.Binary operator ∷ canon.at_least (canon.binding operator + 1) (canon.shown right.now))) }
{
    show_at_least(alloc, tokens, left_binding(operator), left)?;
    tokens.push(Token::Binary(operator))?;
    show_at_least(alloc, tokens, binding(operator) + 1, right)
}

/// Adds `args()`.
fn show_args(tokens: &mut Items<Token>) -> Result<(), Memory>
    ensures { OnOk result (tokens.new ≡ tokens.old ++ token.Word Word.Args ∷ token.Mark mark.Open ∷ token.Mark mark.Close ∷ []) }
{
    show_opened(tokens, Word::Args)?;
    tokens.push(Token::Mark(Mark::Close))?;
    Ok(())
}

/// Adds a word and its `(`.
pub fn show_opened(tokens: &mut Items<Token>, word: Word) -> Result<(), Memory>
    ensures { OnOk result (tokens.new ≡ tokens.old ++ token.Word word ∷ token.Mark mark.Open ∷ []) }
{
    tokens.push(Token::Word(word))?;
    tokens.push(Token::Mark(Mark::Open))?;
    Ok(())
}

/// Adds a word with a name in parentheses.
pub fn show_named(
    alloc: Global,
    tokens: &mut Items<Token>,
    word: Word,
    name: &Name,
) -> Result<(), Memory>
    ensures { OnOk result (tokens.new ≡ tokens.old ++ canon.with_one word (token.Name name.now ∷ [])) }
{
    show_opened(tokens, word)?;
    tokens.push(Token::Name(name.share(alloc)?))?;
    tokens.push(Token::Mark(Mark::Close))?;
    Ok(())
}

/// Adds a word with an expression in parentheses.
#[cycle(shown)]
pub fn show_one(
    alloc: Global,
    tokens: &mut Items<Token>,
    word: Word,
    a: &Expr,
) -> Result<(), Memory>
    ensures { OnOk result (tokens.new ≡ tokens.old ++ canon.with_one word (canon.expression_tokens a.now)) }
{
    show_opened(tokens, word)?;
    show_expression(alloc, tokens, a)?;
    tokens.push(Token::Mark(Mark::Close))?;
    Ok(())
}

/// Adds a word with two expressions in parentheses.
#[cycle(shown)]
pub fn show_two(
    alloc: Global,
    tokens: &mut Items<Token>,
    word: Word,
    a: &Expr,
    b: &Expr,
) -> Result<(), Memory>
    ensures { OnOk result (tokens.new ≡ tokens.old
        ++ canon.with_two word (canon.expression_tokens a.now) (canon.expression_tokens b.now)) }
{
    show_opened(tokens, word)?;
    show_expression(alloc, tokens, a)?;
    tokens.push(Token::Mark(Mark::Comma))?;
    show_expression(alloc, tokens, b)?;
    tokens.push(Token::Mark(Mark::Close))?;
    Ok(())
}

/// Adds a word with three expressions in parentheses.
#[cycle(shown)]
pub fn show_three(
    alloc: Global,
    tokens: &mut Items<Token>,
    word: Word,
    a: &Expr,
    b: &Expr,
    c: &Expr,
) -> Result<(), Memory>
    ensures { OnOk result (tokens.new ≡ tokens.old ++ canon.with_three word (canon.expression_tokens a.now)
        (canon.expression_tokens b.now) (canon.expression_tokens c.now)) }
{
    show_opened(tokens, word)?;
    show_expression(alloc, tokens, a)?;
    tokens.push(Token::Mark(Mark::Comma))?;
    show_expression(alloc, tokens, b)?;
    tokens.push(Token::Mark(Mark::Comma))?;
    show_expression(alloc, tokens, c)?;
    tokens.push(Token::Mark(Mark::Close))?;
    Ok(())
}
