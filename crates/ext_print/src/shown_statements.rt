//! The tokens of statements and blocks.

ghost use Rattle.std.specs.Prelude.{◌≡◌, ◌++◌, OnOk, [], ◌∷◌};
ghost use Rattle.ext_mean.specs.Canonical as canon;
ghost use Rattle.ext_mean.specs.declared.token.Token.TheVariants as token;

use crate::shown_expressions::{show_expression, show_three, show_two};
use crate::shown_plain::{
    show_assign, show_copy, show_del, show_let, show_let_call, show_mark, show_none, show_put,
    show_resp, show_return, show_set, show_set8, show_some, show_word,
};
use ext_mean::{Block, Expr, Mark, Name, Statement, Token, Word};
use sp_base::Memory;
use sqlite_items::Items;
use std::alloc::Global;

/// Adds a block with its braces.
#[cycle(shown_block)]
#[tactic(auto, using(ext_mean::proofs::CanonicalForms::sentence_forms))]
pub fn show_block(alloc: Global, tokens: &mut Items<Token>, block: &Block) -> Result<(), Memory>
    ensures { OnOk result (tokens.new ≡ tokens.old ++ canon.braced (canon.block_shown block.now)) }
{
    show_mark(tokens, Mark::OpenBlock)?;
    for statement in block.items.as_slice() {
        show_statement(alloc, tokens, statement)?;
    }
    show_mark(tokens, Mark::CloseBlock)
}

/// Adds a statement.
#[cycle(shown_block)]
#[tactic(auto, using(ext_mean::proofs::CanonicalForms::sentence_forms))]
fn show_statement(
    alloc: Global,
    tokens: &mut Items<Token>,
    statement: &Statement,
) -> Result<(), Memory>
    ensures { OnOk result (tokens.new ≡ tokens.old ++ canon.sentence_shown statement.now) }
{
    match statement {
        Statement::If { test, yes, no } => show_if(alloc, tokens, test, yes, no),
        Statement::While { test, body } => show_while(alloc, tokens, test, body),
        Statement::Get {
            table,
            key,
            some,
            yes,
            no,
        } => show_get(alloc, tokens, (table, key), some, yes, no),
        Statement::Multi {
            table,
            keys,
            width,
            some,
            yes,
            no,
        } => show_multiget(alloc, tokens, (table, keys, width), some, yes, no),
        Statement::Let { name, kind, value } => show_let(alloc, tokens, name, *kind, value),
        Statement::LetCall {
            name,
            kind,
            function,
            args,
        } => show_let_call(alloc, tokens, name, *kind, function, args.as_slice()),
        Statement::Assign { name, value } => show_assign(alloc, tokens, name, value),
        Statement::Set { name, place, value } => show_set(alloc, tokens, name, place, value),
        Statement::Set8 { name, place, value } => show_set8(alloc, tokens, name, place, value),
        Statement::Copy {
            name,
            place,
            source,
        } => show_copy(alloc, tokens, name, place, source),
        Statement::Put { name } => show_put(alloc, tokens, name),
        Statement::Del { table, key } => show_del(alloc, tokens, table, key),
        Statement::Resp { value } => show_resp(alloc, tokens, value),
        Statement::Return { value } => show_return(alloc, tokens, value),
    }
}

/// Adds `if` with its blocks.
#[cycle(shown_block)]
fn show_if(
    alloc: Global,
    tokens: &mut Items<Token>,
    test: &Expr,
    yes: &Block,
    no: &Block,
) -> Result<(), Memory>
    ensures { OnOk result (tokens.new ≡ tokens.old ++ token.Word Word.If ∷ (canon.expression_tokens test.now
        ++ (canon.braced (canon.block_shown yes.now) ++ canon.else_shown (canon.block_shown no.now)))) }
{
    show_word(tokens, Word::If)?;
    show_expression(alloc, tokens, test)?;
    show_block(alloc, tokens, yes)?;
    show_else(alloc, tokens, no)
}

/// Adds `while` with its block.
#[cycle(shown_block)]
fn show_while(
    alloc: Global,
    tokens: &mut Items<Token>,
    test: &Expr,
    body: &Block,
) -> Result<(), Memory>
    ensures { OnOk result (tokens.new ≡ tokens.old ++ token.Word Word.While
        ∷ (canon.expression_tokens test.now ++ canon.braced (canon.block_shown body.now))) }
{
    show_word(tokens, Word::While)?;
    show_expression(alloc, tokens, test)?;
    show_block(alloc, tokens, body)
}

/// Adds `get` of a table and a key, with its arms.
#[cycle(shown_block)]
fn show_get(
    alloc: Global,
    tokens: &mut Items<Token>,
    operands: (&Expr, &Expr),
    some: &Name,
    yes: &Block,
    no: &Block,
) -> Result<(), Memory>
    ensures { OnOk result (tokens.new ≡ tokens.old
        ++ (canon.with_two Word.Get (canon.expression_tokens operands.entry.0.now)
        (canon.expression_tokens operands.entry.1.now)
        ++ canon.arms_shown some.now (canon.block_shown yes.now) (canon.block_shown no.now))) }
{
    let (table, key) = operands;
    show_two(alloc, tokens, Word::Get, table, key)?;
    show_arms(alloc, tokens, some, yes, no)
}

/// Adds `multiget` of a table, keys and a width, with its arms.
#[cycle(shown_block)]
fn show_multiget(
    alloc: Global,
    tokens: &mut Items<Token>,
    operands: (&Expr, &Expr, &Expr),
    some: &Name,
    yes: &Block,
    no: &Block,
) -> Result<(), Memory>
    ensures { OnOk result (tokens.new ≡ tokens.old
        ++ (canon.with_three Word.Multiget (canon.expression_tokens operands.entry.0.now)
        (canon.expression_tokens operands.entry.1.now) (canon.expression_tokens operands.entry.2.now)
        ++ canon.arms_shown some.now (canon.block_shown yes.now) (canon.block_shown no.now))) }
{
    let (table, keys, width) = operands;
    show_three(alloc, tokens, Word::Multiget, table, keys, width)?;
    show_arms(alloc, tokens, some, yes, no)
}

/// Adds `else` with its block, unless that is empty.
#[cycle(shown_block)]
#[tactic(auto, using(crate::proofs::Blocks::else_cases))]
fn show_else(alloc: Global, tokens: &mut Items<Token>, block: &Block) -> Result<(), Memory>
    ensures { OnOk result (tokens.new ≡ tokens.old ++ canon.else_shown (canon.block_shown block.now)) }
{
    if block.items.is_empty() {
        return Ok(());
    }
    show_word(tokens, Word::Else)?;
    show_block(alloc, tokens, block)
}

/// Adds the two arms of a read.
#[cycle(shown_block)]
fn show_arms(
    alloc: Global,
    tokens: &mut Items<Token>,
    some: &Name,
    yes: &Block,
    no: &Block,
) -> Result<(), Memory>
    ensures { OnOk result (tokens.new ≡ tokens.old
        ++ canon.arms_shown some.now (canon.block_shown yes.now) (canon.block_shown no.now)) }
{
    show_some(alloc, tokens, some)?;
    show_block(alloc, tokens, yes)?;
    show_none(tokens)?;
    show_block(alloc, tokens, no)?;
    show_mark(tokens, Mark::CloseBlock)
}
