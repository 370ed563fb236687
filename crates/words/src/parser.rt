//! The words read with `clap`.

ghost use Rattle.std.specs.Prelude.{◌≡◌, ◌↔◌, IfOk, IsTrue, false, map, string_bytes};
ghost use Rattle.std.specs.List.{list_any};
ghost use Rattle.clap.specs.Simple.{app_of};
ghost use Rattle.clap.specs.Values.{kind_of};
ghost use Rattle.words.specs.Grammar.{command_of, is_refused};
ghost use Rattle.words.specs.Parser.{splinter_app};

use crate::command::Command;
use crate::plain::command_with;
use clap::Arg;
use clap::error::ErrorKind;
use sp_base::Memory;
use std::alloc::{AllocError, Global};

/// The command that the words name. They are as `clap` wants them: none begins with `-`, and none is `help`.
pub fn parse<'a>(alloc: Global, words: &'a [String]) -> Result<Option<Command>, Memory>
    requires { list_any (λ word. is_refused (string_bytes word)) words.now ≡ false }
    ensures { IfOk result (λ command. command ≡ command_of (map string_bytes words.now)) }
{
    let parser = parser(alloc)?;
    let matches = match parser.try_get_matches_from(words) {
        Ok(matches) => matches,
        Err(error) if is_memory(&error) => return Err(Memory),
        Err(_) => return Ok(None),
    };
    match matches.subcommand() {
        Some((name, given)) => Ok(command_with(
            name,
            given.get_str("count"),
            given.get_str("seed"),
        )),
        None => Ok(None),
    }
}

/// Whether `clap` found no memory.
fn is_memory(error: &clap::Error) -> bool
    ensures { IsTrue result ↔ (kind_of error.now ≡ ErrorKind.OutOfMemory) }
{
    error.kind() == ErrorKind::OutOfMemory
}

/// The commands and their arguments, for `clap`.
fn parser<'a>(alloc: Global) -> Result<clap::Command<'a>, AllocError>
    ensures { IfOk result (λ parser. app_of parser ≡ splinter_app) }
{
    let check = clap::Command::new(alloc, "check");
    let run = clap::Command::new(alloc, "run");
    let drill = clap::Command::new(alloc, "drill")
        .arg(Arg::new(alloc, "count").required(true))?
        .arg(Arg::new(alloc, "seed").required(true))?;
    let splinter = clap::Command::new(alloc, "splinter")
        .no_binary_name(true)
        .disable_help_flag(true)
        .disable_help_subcommand(true)
        .subcommand_required(true);
    splinter
        .subcommand(check)?
        .subcommand(run)?
        .subcommand(drill)
}
