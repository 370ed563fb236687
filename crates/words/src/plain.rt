//! The words read by hand.

ghost use Rattle.std.specs.Prelude.{◌≡◌, map, string_bytes};
ghost use Rattle.words.specs.Grammar.{command_of, command_with, drill_with, text_given};

use crate::command::Command;
use load_gen::MOST_CALLS;
use sched_text::spelled_number;

/// The command that the words name, as [`read_words`](crate::read_words) tells it.
pub fn read_plainly(words: &[String]) -> Option<Command>
    ensures { result ≡ command_of (map string_bytes words.now) }
{
    match words {
        [name] => command_with(name.as_str(), None, None),
        [name, count, seed] => command_with(
            name.as_str(),
            Some(count.as_str()),
            Some(seed.as_str()),
        ),
        _ => None,
    }
}

/// The command of this name with these arguments, if there is one.
pub fn command_with(name: &str, count: Option<&str>, seed: Option<&str>) -> Option<Command>
    ensures { result ≡ command_with name.now (text_given count.entry) (text_given seed.entry) }
{
    match (count, seed) {
        (None, None) if name == "check" => Some(Command::Check),
        (None, None) if name == "run" => Some(Command::Run),
        (Some(count), Some(seed)) if name == "drill" => drill(count, seed),
        _ => None,
    }
}

/// A drill, where the words are its numbers.
fn drill(count: &str, seed: &str) -> Option<Command>
    ensures { result ≡ drill_with count.now seed.now }
{
    let count = spelled_number(count.as_bytes(), u64::from(MOST_CALLS))?;
    let seed = spelled_number(seed.as_bytes(), u64::MAX)?;
    Some(Command::Drill {
        count: count as u32,
        seed,
    })
}
