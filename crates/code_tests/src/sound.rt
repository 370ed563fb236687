use super::examples::{EXAMPLES, SHORT};
use super::texts::{code_of, text_of};
use gen_code::{Code, CodeFn, Op, is_sound};
use sp_base::Memory;
use sqlite_items::Items;
use std::alloc::Global;
use std::test::Fail;

/// The code of one function with these instructions.
fn lone(alloc: Global, ops: Vec<Op>) -> Result<Code, Memory> {
    let mut functions = Items::new(alloc);
    functions.push(CodeFn {
        params: 0,
        locals: 0,
        ops: Items::from_vec(ops),
    })?;
    Ok(Code { functions })
}

#[test]
fn the_code_of_the_worked_extensions_is_sound(rt: HostRuntime) -> Result<(), Fail> {
    let alloc = rt.alloc();
    for text in EXAMPLES {
        assert!(rt; is_sound(&code_of(alloc, text)?), "{text}");
    }
    for line in SHORT.lines() {
        let text = text_of(alloc, line)?;
        assert!(rt; is_sound(&code_of(alloc, text.as_str())?), "{line}");
    }
    Ok(())
}

#[test]
fn jumps_out_of_a_function_and_loops_without_a_charge_are_not_sound(
    rt: HostRuntime,
) -> Result<(), Fail> {
    let alloc = rt.alloc();
    // A lone jump to itself, with nothing that charges.
    let itself = lone(alloc, vec![in alloc; Op::Jump(0)]?)?;
    assert!(rt; !is_sound(&itself));
    // A jump to the last instruction, and one behind the end.
    let last = lone(alloc, vec![in alloc; Op::Jump(1), Op::Return]?)?;
    assert!(rt; is_sound(&last));
    let behind = lone(alloc, vec![in alloc; Op::Jump(2), Op::Return]?)?;
    assert!(rt; !is_sound(&behind));
    // A jump back onto no charge, and onto one.
    let free = lone(alloc, vec![in alloc; Op::Args, Op::Charge(1), Op::Jump(0)]?)?;
    assert!(rt; !is_sound(&free));
    let charged = lone(alloc, vec![in alloc; Op::Args, Op::Charge(1), Op::Jump(1)]?)?;
    assert!(rt; is_sound(&charged));
    // The next read of a `multiget` charges, and one alone does not.
    let reads = lone(
        alloc,
        vec![in alloc; Op::Multi(2), Op::Jump(0), Op::Return]?,
    )?;
    assert!(rt; is_sound(&reads));
    let read = lone(alloc, vec![in alloc; Op::Get(2), Op::Jump(0), Op::Return]?)?;
    assert!(rt; !is_sound(&read));
    Ok(())
}
