ghost use Rattle.std.specs.Prelude.{◌≡◌, IfOk, codes, [], ◌∷◌};
ghost use Rattle.ext_mean.specs.Lookup.{LookupIsSpelled, LookupMeans, answering, block_of, lookup_block, looking, lookup_program};

use crate::expr::Expr;
use crate::name::Name;
use crate::share::boxed;
use crate::statement::{Block, Kind, Statement};
use crate::tree::{Function, Program};
use sp_base::Memory;
use sqlite_items::Items;
use std::alloc::Global;

/// The tree of `fn main() -> int { get(TABLE, args()) { some s => { resp(s); } none => { } } return CODE; }`.
#[tactic(auto, unfolding(crate::specs::Lookup::lookup_program))]
pub fn lookup_program(alloc: Global, table: u64, code: u64) -> Result<Program, Memory>
    ensures { IfOk result (λ program. program ≡ lookup_program table code) }
{
    let name = Name::of(alloc, b"main")?;
    let mut items = Items::new(alloc);
    items.push(looking(alloc, table)?)?;
    items.push(Statement::Return {
        value: Expr::Number(code),
    })?;
    let mut functions = Items::new(alloc);
    functions.push(Function {
        name,
        params: Items::new(alloc),
        result: Kind::Int,
        body: Block { items },
    })?;
    Ok(Program { functions })
}

/// `get(TABLE, args()) { some s => { resp(s); } none => { } }`
fn looking(alloc: Global, table: u64) -> Result<Statement, Memory>
    ensures { IfOk result (λ statement. statement ≡ looking table) }
{
    let some = Name::of(alloc, b"s")?;
    let value = Expr::Var(some.share(alloc)?);
    let mut items = Items::new(alloc);
    items.push(Statement::Resp { value })?;
    Ok(Statement::Get {
        table: Expr::Number(table),
        key: Expr::Args,
        some,
        yes: Block { items },
        no: Block {
            items: Items::new(alloc),
        },
    })
}

/// The meaning of the form is its straight work.
pub fn lookup_means()
    ensures { LookupMeans }
{}

/// The text of the form spells its tree.
pub fn lookup_is_spelled()
    ensures { LookupIsSpelled }
{}
