//! Programs without a text; more cases are judged from their texts, in `checks`.

use ext_borrow::{BorrowRefusal, check_borrows};
use ext_mean::{Block, BorrowCode, Expr, Function, Kind, Name, Param, Program, Statement};
use sqlite_items::Items;
use std::alloc::Global;
use std::test::Fail;

/// The answer for `fn f(b: temp) -> temp { let c: temp = b; return name; }`.
fn answer(alloc: Global, name: &[u8]) -> Result<Result<(), BorrowRefusal>, Fail> {
    let moves = Statement::Let {
        name: Name::of(alloc, b"c")?,
        kind: Kind::Temp,
        value: Expr::Var(Name::of(alloc, b"b")?),
    };
    let returns = Statement::Return {
        value: Expr::Var(Name::of(alloc, name)?),
    };
    let body = Block {
        items: Items::from_vec(vec![in alloc; moves, returns]?),
    };
    let param = Param {
        name: Name::of(alloc, b"b")?,
        kind: Kind::Temp,
    };
    let function = Function {
        name: Name::of(alloc, b"f")?,
        params: Items::from_vec(vec![in alloc; param]?),
        result: Kind::Temp,
        body,
    };
    let functions = Items::from_vec(vec![in alloc; function]?);
    Ok(check_borrows(alloc, &Program { functions }))
}

#[test]
fn a_buffer_that_is_gone_is_not_moved(rt: HostRuntime) -> Result<(), Fail> {
    let alloc = rt.alloc();
    assert_eq!(rt; answer(alloc, b"c")?, Ok(()));
    let fault = BorrowRefusal::Fault {
        item: 2,
        code: BorrowCode::Moved,
    };
    assert_eq!(rt; answer(alloc, b"b")?, Err(fault));
    Ok(())
}
