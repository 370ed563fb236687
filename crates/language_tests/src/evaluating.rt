use ext_eval::eval;
use ext_mean::{Block, Expr, Function, Kind, Name, Program, Run, Statement, lookup_program};
use sp_base::{Blob, Change, Key, Level, ReadItem, Rights, TableId, Trap};
use sqlite_items::Items;
use std::alloc::Global;
use std::test::Fail;

/// The run of a program where table 5 may be read and 6 written, and `k` of table 5 is known: `v1`.
fn run(alloc: Global, program: &Program, args: &[u8], budget: u32) -> Result<Run, Fail> {
    let rights = vec![in alloc; (TableId(5), Level::Read), (TableId(6), Level::Write)]?;
    let rights = Rights::of(rights);
    let read = ReadItem {
        table: TableId(5),
        key: Key::of(alloc, b"k")?,
        version: 0,
        read_at: 0,
        value: Some(Blob::of(alloc, b"v1")?),
    };
    let reads = vec![in alloc; read]?;
    Ok(eval(alloc, program, args, budget, &rights, reads.as_slice())?)
}

/// A statement, the read, the answer and the end: 1, 16, 1 and 1 units.
#[test]
fn a_look_up_ends_in_each_way_with_ample_memory(rt: HostRuntime) -> Result<(), Fail> {
    let alloc = rt.alloc();
    let program = lookup_program(alloc, 5, 7)?;
    let ended = run(alloc, &program, b"k", 19)?;
    match &ended {
        Run::Done {
            reply,
            writes,
            used,
        } => {
            assert_eq!(rt; reply.code, 7);
            assert_eq!(rt; reply.bytes.bytes(), b"v1".as_slice());
            assert_eq!(rt; writes.len(), 0);
            assert_eq!(rt; *used, 19);
        }
        _ => assert!(rt; false),
    }
    let poor = run(alloc, &program, b"k", 18)?;
    assert!(rt; matches!(&poor, Run::Spent));
    let wanting = run(alloc, &program, b"z", 17)?;
    match &wanting {
        Run::Wants { table, key, used } => {
            assert_eq!(rt; table.0, 5);
            assert_eq!(rt; key.bytes(), b"z".as_slice());
            assert_eq!(rt; *used, 17);
        }
        _ => assert!(rt; false),
    }
    let trapped = run(alloc, &program, b"", 17)?;
    match &trapped {
        Run::Trapped { trap, used } => {
            assert_eq!(rt; *trap, Trap::Size);
            assert_eq!(rt; *used, 1);
        }
        _ => assert!(rt; false),
    }
    Ok(())
}

/// `del(6, args()); return 3;`
fn deletion(alloc: Global) -> Result<Program, Fail> {
    let mut items = Items::new(alloc);
    items.push(Statement::Del {
        table: Expr::Number(6),
        key: Expr::Args,
    })?;
    items.push(Statement::Return {
        value: Expr::Number(3),
    })?;
    let mut functions = Items::new(alloc);
    functions.push(Function {
        name: Name::of(alloc, b"main")?,
        params: Items::new(alloc),
        result: Kind::Int,
        body: Block { items },
    })?;
    Ok(Program { functions })
}

#[test]
fn a_deletion_is_a_change_with_ample_memory(rt: HostRuntime) -> Result<(), Fail> {
    let alloc = rt.alloc();
    let program = deletion(alloc)?;
    let ended = run(alloc, &program, b"k", 2)?;
    match &ended {
        Run::Done {
            reply,
            writes,
            used,
        } => {
            assert_eq!(rt; reply.code, 3);
            assert_eq!(rt; *used, 2);
            assert_eq!(rt; writes.len(), 1);
            for write in writes.as_slice() {
                assert_eq!(rt; write.table.0, 6);
                assert_eq!(rt; write.key.bytes(), b"k".as_slice());
                assert!(rt; matches!(&write.change, Change::Del));
            }
        }
        _ => assert!(rt; false),
    }
    Ok(())
}
