ghost use Rattle.std.specs.Prelude.{◌≡◌, ◌<◌, ◌^◌, IsTrue};
ghost use Rattle.sp_base.specs.RightsList.{can_read, can_write};

use sp_base::{Level, Rights};

/// Whether these rights let a table be read. A number of 2^32 or more is no table.
pub fn can_read(rights: &Rights, table: u64) -> bool
    ensures value { result ≡ can_read rights.now table }
    ensures small { IsTrue result → table < 2 ^ 32 }
{
    let level = rights.level(table);
    match level {
        Level::Nothing => false,
        Level::Read | Level::Write => true,
    }
}

/// Whether these rights let a table be written. A number of 2^32 or more is no table.
pub fn can_write(rights: &Rights, table: u64) -> bool
    ensures value { result ≡ can_write rights.now table }
    ensures small { IsTrue result → table < 2 ^ 32 }
{
    let level = rights.level(table);
    match level {
        Level::Nothing | Level::Read => false,
        Level::Write => true,
    }
}
