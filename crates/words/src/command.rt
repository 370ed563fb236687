/// A command of the program.
#[derive(Clone, Copy, Debug, PartialEq, Eq)]
pub enum Command {
    /// Checks an extension.
    Check,
    /// Plays a script.
    Run,
    /// Plays the script of a drill, with so many calls on keys that the seed chooses.
    Drill { count: u32, seed: u64 },
}
