ghost use Rattle.std.specs.Prelude.{◌≡◌, ◌<◌, ◌≤◌, Some, length, map, slice_get};
ghost use Rattle.journal.specs.Reads.{bare};

use rw_set::ReadSet;
use sp_base::{MOST_READS, ReadItem, Reads};

/// The read with this index.
pub fn nth_read(reads: Reads, index: usize) -> ReadItem
    requires { index < length reads }
    ensures { slice_get reads index ≡ Some result }
{
    let mut items = reads.into_vec();
    items.swap_remove(index)
}

/// The reads of a finished run as its entry keeps them.
pub fn kept_reads(reads: ReadSet) -> Reads
    ensures bare { result ≡ map bare reads }
    ensures few { length reads ≤ MOST_READS }
{
    let _ = reads.items();
    bare_reads(reads.into_reads())
}

/// The reads with their places and versions alone.
fn bare_reads(reads: Reads) -> Reads
    ensures { result ≡ map bare reads }
{
    let mut items = reads.into_vec();
    for item in items.iter_mut() {
        forget(item);
    }
    Reads::from_vec(items)
}

fn forget(read: &mut ReadItem)
    ensures { read.new ≡ bare read.old }
{
    read.read_at = 0;
    read.value = None;
}
