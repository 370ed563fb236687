ghost use Rattle.std.specs.Prelude.{◌≡◌, [], ◌∷◌, ◌++◌, ◌<◌, OnOk};
ghost use Rattle.std.specs.Fmt.{decimal};
ghost use Rattle.sp_base.specs.Fields.{hex_digit, hex_pair, byte_field};

use sp_base::{Blob, Memory};
use std::alloc::Global;
use std::marker::Model;

/// Text that is being written. Contracts see its bytes.
#[derive(Debug, Drop)]
pub struct Text {
    alloc: Global,
    bytes: Vec<u8>,
}

impl Model for Text {
    ghost use Rattle.std.specs.Prelude.{List, ℕ};

    ghost Value = { List ℕ };

    ghost view = { λ t. t.bytes.items };
}

impl Text {
    pub fn new(alloc: Global) -> Text
        ensures { result ≡ [] }
    {
        Text {
            alloc,
            bytes: Vec::new(alloc),
        }
    }

    pub fn bytes(&self) -> &[u8]
        ensures { result.now ≡ self.now }
    {
        self.bytes.as_slice()
    }

    /// The text as a byte value, which needs no memory.
    pub fn into_blob(self) -> Blob
        ensures { result ≡ self }
    {
        let Text { bytes, .. } = self;
        Blob::from_vec(bytes)
    }

    /// Adds these bytes.
    pub fn add(&mut self, bytes: &[u8]) -> Result<(), Memory>
        ensures { OnOk result (self.new ≡ self.old ++ bytes.now) }
    {
        self.bytes.extend_from_slice(bytes)?;
        Ok(())
    }

    /// Adds a number in decimal.
    pub fn add_number(&mut self, number: u64) -> Result<(), Memory>
        ensures { OnOk result (self.new ≡ self.old ++ decimal number) }
    {
        let digits = number.to_string(self.alloc)?;
        self.add(digits.as_bytes())
    }

    /// Adds a space and a word.
    pub fn word(&mut self, word: &[u8]) -> Result<(), Memory>
        ensures { OnOk result (self.new ≡ self.old ++ 32 ∷ word.now) }
    {
        self.bytes.push(b' ')?;
        self.add(word)
    }

    /// Adds a space and a number in decimal.
    pub fn number(&mut self, number: u64) -> Result<(), Memory>
        ensures { OnOk result (self.new ≡ self.old ++ 32 ∷ decimal number) }
    {
        self.bytes.push(b' ')?;
        self.add_number(number)
    }

    /// Adds a space and a byte field.
    pub fn field(&mut self, bytes: &[u8]) -> Result<(), Memory>
        ensures { OnOk result (self.new ≡ self.old ++ 32 ∷ byte_field bytes.now) }
    {
        self.word(b"x")?;
        for byte in bytes {
            self.add_pair(*byte)?;
        }
        Ok(())
    }

    fn add_pair(&mut self, byte: u8) -> Result<(), Memory>
        ensures { OnOk result (self.new ≡ self.old ++ hex_pair byte) }
    {
        self.add(&[digit(byte / 16), digit(byte % 16)])
    }

    /// Ends the line.
    pub fn end_line(&mut self) -> Result<(), Memory>
        ensures { OnOk result (self.new ≡ self.old ++ 10 ∷ []) }
    {
        self.add(b"\n")
    }
}

fn digit(value: u8) -> u8
    requires { value < 16 }
    ensures { result ≡ hex_digit value }
{
    if value < 10 {
        b'0' + value
    } else {
        b'a' + (value - 10)
    }
}
