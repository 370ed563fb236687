//! The text of a whole journal.

ghost use Rattle.std.specs.Prelude.{◌≡◌, ◌+◌, ◌++◌, ◌∷◌, [], ◌<◌, ◌^◌, length, IfOk, OnOk};
ghost use Rattle.report.specs.Entries.{entry_text, ext_after, journal_text};
ghost use Rattle.report.specs.Numbering.{ChangesOnly, CountsTexts, count_of};

use crate::entries::add_entry;
use crate::text::Text;
use journal::Entry;
use sp_base::{Blob, ExtNo, Memory, TenantId};
use std::alloc::Global;
use std::collections::HashMap;

/// How many extensions each tenant has installed.
type Installed = HashMap<u32, u32>;

/// All lines of a journal.
pub fn journal_lines(alloc: Global, entries: &[Entry]) -> Result<Blob, Memory>
    requires { length entries.now < 2 ^ 32 }
    ensures { IfOk result (λ text. text ≡ journal_text entries.now) }
{
    let mut text = Text::new(alloc);
    let mut installed = HashMap::new(alloc);
    for (n, entry) in entries.iter().enumerate() {
        add_next(&mut text, &mut installed, &entries[..n], entry)?;
    }
    Ok(text.into_blob())
}

/// Adds the lines of the entry behind these, whose extensions have been counted.
fn add_next(
    text: &mut Text,
    installed: &mut Installed,
    before: &[Entry],
    entry: &Entry,
) -> Result<(), Memory>
    requires few { length before.now + 1 < 2 ^ 32 }
    requires counted { CountsTexts installed.old before.now }
    ensures text { OnOk result (text.new ≡ text.old
        ++ entry_text (length before.now) (ext_after before.now entry.now) entry.now) }
    ensures counted { OnOk result (CountsTexts installed.new (before.now ++ entry.now ∷ [])) }
{
    let ext = match entry {
        Entry::Install { tenant, .. } => count_one(installed, *tenant)?,
        _ => ExtNo(0),
    };
    add_entry(text, before.len() as u64, ext, entry)
}

/// Counts one extension more of a tenant, and gives its number.
fn count_one(installed: &mut Installed, tenant: TenantId) -> Result<ExtNo, Memory>
    requires { count_of installed.old tenant.0 + 1 < 2 ^ 32 }
    ensures number { IfOk result (λ ext. ext.0 ≡ count_of installed.old tenant.0) }
    ensures counted { OnOk result (ChangesOnly installed.old installed.new tenant.0
        (count_of installed.old tenant.0 + 1)) }
{
    let count = installed.entry(tenant.0)?.or_insert(0);
    let ext = ExtNo(*count);
    *count += 1;
    Ok(ext)
}
