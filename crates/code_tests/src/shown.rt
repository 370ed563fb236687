//! Code as text: of each function the numbers of its parameters and of its variables, and its
//! instructions.

use gen_code::{Code, CodeFn};
use std::alloc::Global;
use std::test::Fail;

fn shown_function(alloc: Global, function: &CodeFn) -> Result<String, Fail> {
    let params = function.params;
    let locals = function.locals;
    let mut shown = format!(in alloc; "{params} {locals}")?;
    for op in function.ops.as_slice() {
        let next = format!(in alloc; " {op:?}")?;
        shown.push_str(next.as_str())?;
    }
    Ok(shown)
}

/// The functions with a bar between two.
pub fn shown(alloc: Global, code: &Code) -> Result<String, Fail> {
    let mut all = String::new(alloc);
    for function in code.functions.as_slice() {
        if !all.is_empty() {
            all.push_str(" | ")?;
        }
        all.push_str(shown_function(alloc, function)?.as_str())?;
    }
    Ok(all)
}
