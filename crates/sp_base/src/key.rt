ghost use Rattle.std.specs.Prelude.{◌≡◌, ◌≤◌, ◌↔◌, IsTrue, IfOk, IsErrOf, length, List, ℕ};
ghost use Rattle.std.specs.Str.{bytes_eq};
ghost use Rattle.sp_base.specs.Limits.{IsKey};

use crate::blob::same_bytes;
use crate::limits::MOST_KEY;
use crate::memory::Memory;
use std::alloc::Global;
use std::marker::Model;
use thiserror::Error;

/// Why bytes are no key.
#[derive(Clone, Copy, Debug, PartialEq, Eq, Error)]
pub enum KeyFault {
    #[error("a key has from 1 to 64 bytes")]
    Size,
    #[error("out of memory")]
    Memory,
}

/// The key of a record: from 1 to 64 bytes.
#[derive(Debug, Drop)]
pub struct Key {
    bytes: Vec<u8>,
}

impl Model for Key {
    ghost use Rattle.std.specs.Prelude.{List, ℕ};
    ghost use Rattle.std.specs.Coded.{coded_list, coded_ℕ};
    ghost use Rattle.sp_base.specs.Limits.{IsKey};

    ghost Value = { List ℕ };

    ghost coded = { coded_list coded_ℕ };

    ghost view = { λ k. k.bytes.items };

    ghost invariant = { λ k. IsKey k.bytes.items };
}

impl Key {
    /// A key of these bytes.
    pub fn of(alloc: Global, bytes: &[u8]) -> Result<Key, KeyFault>
        ensures ok { IfOk result (λ key. key ≡ bytes.now) }
        ensures size { IsErrOf result KeyFault.Size ↔ (IsKey bytes.now → ⊥) }
    {
        if bytes.is_empty() || bytes.len() > MOST_KEY {
            return Err(KeyFault::Size);
        }
        match Vec::from_slice(alloc, bytes) {
            Ok(bytes) => Ok(Key { bytes }),
            Err(_) => Err(KeyFault::Memory),
        }
    }

    pub fn bytes(&self) -> &[u8]
        ensures bytes { result.now ≡ self.now }
        ensures size { IsKey result.now }
    {
        self.bytes.as_slice()
    }

    /// An equal key.
    pub fn share(&self, alloc: Global) -> Result<Key, Memory>
        ensures { IfOk result (λ key. key ≡ self.now) }
    {
        let bytes = Vec::from_slice(alloc, self.bytes.as_slice())?;
        Ok(Key { bytes })
    }

    pub fn is_same(&self, other: &Key) -> bool
        ensures same { IsTrue result ↔ (self.now ≡ other.now) }
        ensures value { result ≡ bytes_eq self.now other.now }
    {
        same_bytes(self.bytes.as_slice(), other.bytes.as_slice())
    }
}
