//! The largest programs that a text can spell have their code where there is memory.

use super::texts::{code_of, program_of};
use gen_code::is_sound;
use gen_compile::compile;
use std::alloc::Global;
use std::test::Fail;

/// A text of 16,384 bytes: the shortest statements, one behind the other.
fn longest(alloc: Global) -> Result<String, Fail> {
    let mut text = String::from_str(alloc, "fn main()->int{let n:int=0;")?;
    for _ in 0..4_086 {
        text.push_str("n=0;")?;
    }
    text.push_str("return 0;}  \n")?;
    Ok(text)
}

/// The most functions, each with the most variables that fit in.
fn widest(alloc: Global) -> Result<String, Fail> {
    let mut text = String::new(alloc);
    for number in 0..31 {
        text.push_str(format!(in alloc; "fn f{number}()->int{{return 0;}}")?.as_str())?;
    }
    text.push_str("fn main()->int{")?;
    for number in 0..256 {
        text.push_str(format!(in alloc; "let v{number}:int=0;")?.as_str())?;
    }
    text.push_str("return v255;}\n")?;
    Ok(text)
}

/// The most brackets that may be open: the function's, 15 blocks and 16 around a number.
fn deepest(alloc: Global) -> Result<String, Fail> {
    let mut text = String::from_str(alloc, "fn main()->int{")?;
    for _ in 0..15 {
        text.push_str("while true{")?;
    }
    text.push_str("return ((((((((((((((((1))))))))))))))));")?;
    for _ in 0..15 {
        text.push_str("}")?;
    }
    text.push_str("return 0;}\n")?;
    Ok(text)
}

#[test]
fn the_largest_programs_have_sound_code(rt: HostRuntime) -> Result<(), Fail> {
    let alloc = rt.alloc();
    let long = longest(alloc)?;
    assert_eq!(rt; long.len(), 16_384);
    let code = code_of(alloc, long.as_str())?;
    assert!(rt; is_sound(&code));
    // Three instructions each for the `let`, 4,086 assignments and the `return`, a drop and the two behind.
    let main = code.functions.get(0).ok_or("no main")?;
    assert_eq!(rt; main.ops.len(), 3 * 4088 + 3);

    let wide = code_of(alloc, widest(alloc)?.as_str())?;
    let main = wide.functions.get(31).ok_or("no main")?;
    assert_eq!(rt; main.locals, 256);
    assert!(rt; is_sound(&wide));

    let program = program_of(alloc, deepest(alloc)?.as_str())?;
    assert!(rt; is_sound(&compile(alloc, &program)?));
    Ok(())
}
