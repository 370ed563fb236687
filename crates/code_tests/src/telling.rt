//! What is told of a run: the units used, and `done` with the code, the reply and the changes; or a trap, a
//! record that is wanted, or that the units are spent.

use ext_mean::Run;
use sp_base::{Change, Write};
use std::alloc::Global;
use std::test::Fail;

fn push_bytes(text: &mut String, bytes: &[u8]) -> Result<(), Fail> {
    write!(text, " x")?;
    for byte in bytes {
        write!(text, "{byte:02x}")?;
    }
    Ok(())
}

fn push_write(text: &mut String, write: &Write) -> Result<(), Fail> {
    let table = write.table.0;
    write!(text, " {table}")?;
    push_bytes(text, write.key.bytes())?;
    match &write.change {
        Change::Put(bytes) => {
            write!(text, " put")?;
            push_bytes(text, bytes.bytes())
        }
        Change::Del => {
            write!(text, " del")?;
            Ok(())
        }
    }
}

/// A run in words: the units used, and how it stands.
pub fn told(alloc: Global, run: &Run) -> Result<String, Fail> {
    match run {
        Run::Done {
            reply,
            writes,
            used,
        } => {
            let code = reply.code;
            let mut text = format!(in alloc; "{used} done {code}")?;
            push_bytes(&mut text, reply.bytes.bytes())?;
            for write in writes.as_slice() {
                push_write(&mut text, write)?;
            }
            Ok(text)
        }
        Run::Trapped { trap, used } => {
            let number = *trap as u8;
            Ok(format!(in alloc; "{used} trap {number}")?)
        }
        Run::Spent => Ok(format!(in alloc; "spent")?),
        Run::Wants { table, key, used } => {
            let table = table.0;
            let mut text = format!(in alloc; "{used} wants {table}")?;
            push_bytes(&mut text, key.bytes())?;
            Ok(text)
        }
    }
}

/// One more line, with a run in words.
pub fn push_run(alloc: Global, text: &mut String, run: &Run) -> Result<(), Fail> {
    let told = told(alloc, run)?;
    write!(text, "{told}\n")?;
    Ok(())
}
