//! The command that the words name.

ghost use Rattle.std.specs.Prelude.{◌≡◌, ◌↔◌, Some, map, string_bytes};
ghost use Rattle.std.specs.List.{list_any};
ghost use Rattle.words.specs.declared.command.Command.{Command};
ghost use Rattle.words.specs.Grammar.{command_of, is_refused};
ghost use Rattle.words.specs.Words.{Names};

use crate::command::Command;
use crate::parser::parse;
use crate::plain::read_plainly;
use sp_base::Memory;
use std::alloc::Global;

/// The command that the words name, if they name one. Where `clap` finds no memory, they are read by hand.
pub fn read_words(alloc: Global, words: &[String]) -> Option<Command>
    ensures { (command : Command) → (result ≡ Some command ↔ Names command words.now) }
{
    command_named(alloc, words)
}

/// The same by the grammar.
fn command_named(alloc: Global, words: &[String]) -> Option<Command>
    ensures { result ≡ command_of (map string_bytes words.now) }
{
    if has_refused(words) {
        return None;
    }
    match parse(alloc, words) {
        Ok(command) => command,
        Err(Memory) => read_plainly(words),
    }
}

/// Whether one of the words is refused before any is read.
fn has_refused(words: &[String]) -> bool
    ensures { result ≡ list_any (λ word. is_refused (string_bytes word)) words.now }
{
    for word in words {
        if is_refused(word.as_str()) {
            return true;
        }
    }
    false
}

/// Whether a word is one that no command has and that `clap` would take for a flag or a call for help.
fn is_refused(word: &str) -> bool
    ensures { result ≡ is_refused word.now }
{
    match word.as_bytes() {
        [b'-', ..] => true,
        _ => word == "help",
    }
}
