ghost use Rattle.std.specs.Prelude.{◌≡◌};
ghost use Rattle.session.specs.Steps.{fault_code};

/// Why a session ends with a Fault.
#[derive(Clone, Copy, Debug, PartialEq, Eq)]
pub enum Fault {
    /// A frame that no message spells.
    BadFrame,
    /// A frame that is too long.
    TooLong,
    /// A message other than Hello first, or a later Hello.
    OutOfTurn,
    /// A tenant that is not there, or another key.
    WrongKey,
    Memory,
}

impl Fault {
    /// The fault's number, as messages tell it: from 1 to 5.
    pub fn code(self) -> u8
        ensures { result ≡ fault_code self }
    {
        match self {
            Fault::BadFrame => 1,
            Fault::TooLong => 2,
            Fault::OutOfTurn => 3,
            Fault::WrongKey => 4,
            Fault::Memory => 5,
        }
    }
}
