ghost use Rattle.std.specs.Prelude.{◌≡◌, ◌≤◌};
ghost use Rattle.sp_base.specs.Spelling.{FitsOpt};
ghost use Rattle.rw_set.specs.Weight.{weight_of_read};

use sp_base::ReadItem;

/// The bytes of a read as a frame spells it: its table, its key behind its length, its version and
/// moment, and its value.
pub fn read_weight(read: &ReadItem) -> u64
    requires { FitsOpt read.now.value }
    ensures weight { result ≡ weight_of_read read.now }
    ensures bounded { result ≤ 4184 }
{
    let key = read.key.bytes().len() as u64;
    let value = match &read.value {
        None => 1,
        Some(value) => 3 + value.len() as u64,
    };
    21 + key + value
}
