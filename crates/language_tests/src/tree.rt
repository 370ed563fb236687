use ext_mean::{Block, Expr, Function, Kind, Name, Param, Program, Statement, lookup_program};
use sqlite_items::{Boxed, Items};
use std::test::Fail;

#[test]
fn a_program_is_made_and_shared_with_ample_memory(rt: HostRuntime) -> Result<(), Fail> {
    let program = lookup_program(rt.alloc(), 5, 7)?;
    let shared = program.share(rt.alloc())?;
    assert_eq!(rt; shared.functions.len(), 1);
    Ok(())
}

#[test]
fn a_call_with_an_argument_is_shared_with_ample_memory(rt: HostRuntime) -> Result<(), Fail> {
    let mut args = Items::new(rt.alloc());
    args.push(Expr::Len(Boxed::new(rt.alloc(), Expr::Args)?))?;
    let call = Statement::LetCall {
        name: Name::of(rt.alloc(), b"x")?,
        kind: Kind::Int,
        function: Name::of(rt.alloc(), b"twice")?,
        args,
    };
    let shared = call.share(rt.alloc())?;
    assert!(rt; matches!(&shared, Statement::LetCall { .. }));
    Ok(())
}

#[test]
fn a_function_with_a_parameter_is_shared_with_ample_memory(rt: HostRuntime) -> Result<(), Fail> {
    let mut params = Items::new(rt.alloc());
    params.push(Param {
        name: Name::of(rt.alloc(), b"n")?,
        kind: Kind::Slice,
    })?;
    let function = Function {
        name: Name::of(rt.alloc(), b"f")?,
        params,
        result: Kind::Int,
        body: Block {
            items: Items::new(rt.alloc()),
        },
    };
    assert_eq!(rt; function.share(rt.alloc())?.params.len(), 1);
    Ok(())
}
