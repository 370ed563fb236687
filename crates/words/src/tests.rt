use crate::{Command, read_plainly, read_words};
use std::test::Fail;

/// Command lines with what they name: each number at its edge and one past it, with a zero in front, a
/// sign, a space; words too few and too many; words that ask for help or stand for a flag.
const LINES: [(&str, Option<Command>); 30] = [
    ("check", Some(Command::Check)),
    ("run", Some(Command::Run)),
    ("drill|0|0", Some(Command::Drill { count: 0, seed: 0 })),
    (
        "drill|10000|18446744073709551615",
        Some(Command::Drill {
            count: 10_000,
            seed: u64::MAX,
        }),
    ),
    ("drill|10001|0", None),
    ("drill|0|18446744073709551616", None),
    ("drill|01|0", None),
    ("drill|0|00", None),
    ("drill|+1|0", None),
    ("drill|0|-1", None),
    ("drill|-1|0", None),
    ("drill| 1|0", None),
    ("drill|1 |0", None),
    ("drill||0", None),
    ("drill|1|", None),
    ("drill|1|x", None),
    ("drill|1", None),
    ("drill", None),
    ("drill|1|2|3", None),
    ("run|now", None),
    ("check|check", None),
    ("help", None),
    ("help|drill", None),
    ("--help", None),
    ("-h", None),
    ("run|--help", None),
    ("--|run", None),
    ("-", None),
    ("Run", None),
    ("running", None),
];

#[test]
fn each_line_names_its_command(rt: HostRuntime) -> Result<(), Fail> {
    let alloc = rt.alloc();
    assert_eq!(rt; read_words(alloc, &[]), None);
    for (line, command) in LINES {
        let mut words = Vec::new(alloc);
        for word in line.split('|') {
            words.push(String::from_str(alloc, word)?)?;
        }
        assert_eq!(rt; read_words(alloc, words.as_slice()), command, "{line}");
        assert_eq!(rt; read_plainly(words.as_slice()), command, "{line}");
    }
    Ok(())
}
