//! Programs without a text; more cases are judged from their texts, in `checks`.

use ext_mean::{Block, Expr, Function, Kind, Name, Program, Statement, TypeCode};
use ext_types::{TypeRefusal, check_types};
use sqlite_items::Items;
use std::alloc::Global;
use std::test::Fail;

/// The answer for `fn main() -> int { let n: int = value; return n; }`.
fn answer(alloc: Global, value: Expr) -> Result<Result<(), TypeRefusal>, Fail> {
    let declares = Statement::Let {
        name: Name::of(alloc, b"n")?,
        kind: Kind::Int,
        value,
    };
    let returns = Statement::Return {
        value: Expr::Var(Name::of(alloc, b"n")?),
    };
    let body = Block {
        items: Items::from_vec(vec![in alloc; declares, returns]?),
    };
    let main = Function {
        name: Name::of(alloc, b"main")?,
        params: Items::new(alloc),
        result: Kind::Int,
        body,
    };
    let functions = Items::from_vec(vec![in alloc; main]?);
    Ok(check_types(alloc, &Program { functions }))
}

#[test]
fn a_place_asks_for_its_type(rt: HostRuntime) -> Result<(), Fail> {
    let alloc = rt.alloc();
    assert_eq!(rt; answer(alloc, Expr::Number(1))?, Ok(()));
    let fault = TypeRefusal::Fault {
        item: 1,
        code: TypeCode::Kind,
    };
    assert_eq!(rt; answer(alloc, Expr::Truth(true))?, Err(fault));
    Ok(())
}
