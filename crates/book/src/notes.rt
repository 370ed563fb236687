ghost use Rattle.std.specs.Prelude.{◌≡◌, OnOk, OnErr};
ghost use Rattle.book.specs.Indexes.{AreNoted, AreSame, HasExt};

use crate::exts::Exts;
use crate::lasts::Lasts;
use journal::Entry;
use sp_base::Memory;
use std::sync::Arc;
use task::Ext;

/// Notes what an entry says of its caller's last call, or of its tenant's extensions. Without memory
/// nothing changes.
pub fn note(
    exts: &mut Exts,
    lasts: &mut Lasts,
    entry: &Entry,
    ext: Option<Arc<Ext>>,
) -> Result<(), Memory>
    requires { HasExt entry.now ext }
    ensures ok { OnOk result (AreNoted exts.old lasts.old entry.now exts.new lasts.new) }
    ensures err { OnErr result (AreSame exts.old lasts.old exts.new lasts.new) }
{
    match entry {
        Entry::Invoke { call, .. } => lasts.set(call.caller, call.number.0),
        Entry::Put { .. } => Ok(()),
        Entry::Install { tenant, .. } => match ext {
            Some(ext) => exts.add(*tenant, ext),
            None => unreachable!(),
        },
    }
}
