/// How a command ended. The number is the process's exit status.
#[derive(Clone, Copy, Debug, PartialEq, Eq)]
pub enum Status {
    /// The input, where the command reads one, was read to its end, and all was written.
    Ok = 0,
    /// The extension is refused, which one line tells.
    Refused = 1,
    /// The words are no command. Nothing was read or written.
    Usage = 2,
    /// The input is no script, which one line tells.
    Script = 3,
    /// Reading failed. Nothing was written.
    ReadFault = 4,
    /// Writing failed. A prefix of the text was written.
    WriteFault = 5,
    /// Nothing was written.
    Memory = 6,
}
