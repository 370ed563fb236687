ghost use Rattle.std.specs.Prelude.{◌≡◌, ◌∷◌, ◌++◌, [], length, slice_get, OnOk, OnErr, if◌then◌else◌, ◌==◌};
ghost use Rattle.sp_base.specs.Limits.{IsText};
ghost use Rattle.sp_base.specs.declared.numbers.TenantId.{TenantId};
ghost use Rattle.std.specs.Arc.{arc_value};
ghost use Rattle.std.specs.Option.{option_copied, option_map};
ghost use Rattle.book.specs.Indexes.{text_of, texts_in};

use sp_base::{ExtNo, Memory, TenantId};
use std::alloc::Global;
use std::collections::HashMap;
use std::sync::Arc;
use task::Ext;

/// The extensions of each tenant, in the order in which they were installed.
#[derive(Drop)]
pub struct Exts {
    alloc: Global,
    tenants: HashMap<u32, Vec<Arc<Ext>>>,
}

impl Exts {
    /// No extensions.
    pub fn new(alloc: Global) -> Exts
        ensures { (tenant : TenantId) → texts_in result tenant ≡ [] }
    {
        Exts {
            alloc,
            tenants: HashMap::new(alloc),
        }
    }

    /// How many extensions a tenant has.
    pub fn count(&self, tenant: TenantId) -> usize
        ensures { result ≡ length (texts_in self.now tenant) }
    {
        match self.tenants.get(&tenant.0) {
            Some(exts) => exts.len(),
            None => 0,
        }
    }

    /// The extension of a tenant with this number.
    pub fn get(&self, tenant: TenantId, ext: ExtNo) -> Option<&Arc<Ext>>
        ensures { option_map text_of (option_copied result) ≡ slice_get (texts_in self.now tenant) ext.0 }
    {
        match self.tenants.get(&tenant.0) {
            Some(exts) => exts.get(ext.0 as usize),
            None => None,
        }
    }

    /// Adds a tenant's next extension. Without memory nothing changes.
    pub fn add(&mut self, tenant: TenantId, ext: Arc<Ext>) -> Result<(), Memory>
        ensures ok { OnOk result ((other : TenantId) → texts_in self.new other
            ≡ (if tenant.0 == other.0 then texts_in self.old other ++ (arc_value ext).text ∷ [] else texts_in self.old other)) }
        ensures err { OnErr result ((other : TenantId) → texts_in self.new other ≡ texts_in self.old other) }
    {
        match self.tenants.get_mut(&tenant.0) {
            Some(exts) => exts.push(ext)?,
            None => {
                let mut exts = Vec::new(self.alloc);
                exts.push(ext)?;
                self.tenants.insert(tenant.0, exts)?;
            }
        }
        Ok(())
    }
}

/// The text of an extension, which is within the limit of texts.
pub fn sized_text(ext: &Ext) -> &[u8]
    ensures text { result.now ≡ ext.now.text }
    ensures sized { IsText result.now }
{
    let _ = ext.program();
    ext.text()
}
