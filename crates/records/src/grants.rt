ghost use Rattle.std.specs.Prelude.{◌≡◌, IfOk, [], unwrap_or};
ghost use Rattle.std.specs.List.{AllByRecursion};
ghost use Rattle.std.specs.Option.{option_copied};
ghost use Rattle.sp_base.specs.RightsList.{AreRights, level_of};
ghost use Rattle.records.specs.GrantsList.{AreGrants, TenantsRise, rights_of};

use sp_base::{Level, Memory, Rights, TableId, TenantId};
use std::alloc::Global;
use std::marker::Model;

/// The rights of each tenant. Contracts see the list.
#[derive(Debug, Drop)]
pub struct Grants {
    list: Vec<(TenantId, Rights)>,
}

impl Model for Grants {
    ghost use Rattle.std.specs.Prelude.{List};
    ghost use Rattle.sp_base.specs.declared.numbers.TableId.{TableId};
    ghost use Rattle.sp_base.specs.declared.numbers.TenantId.{TenantId};
    ghost use Rattle.sp_base.specs.declared.rights.Level.{Level};
    ghost use Rattle.records.specs.GrantsList.{AreGrants};

    ghost Value = { List (TenantId × List (TableId × Level)) };

    ghost view = { λ g. g.list.items };

    ghost invariant = { λ g. AreGrants g.list.items };
}

impl Grants {
    /// The rights of these tenants.
    pub fn of(list: Vec<(TenantId, Rights)>) -> Grants
        requires { TenantsRise 0 list.items }
        ensures { result ≡ list.items }
    {
        all_are_rights(list.as_slice());
        Grants { list }
    }

    /// That the tenants strictly increase, and that each is granted rights.
    pub fn are_grants(&self)
        ensures { AreGrants self.now }
    {
        let _ = &self.list;
    }

    /// The level of a tenant at a table: `Nothing` for an unknown tenant.
    pub fn level(&self, tenant: TenantId, table: TableId) -> Level
        ensures { result ≡ level_of (rights_of self.now tenant) table.0 }
    {
        match self.granted(tenant) {
            Some(rights) => rights.level(u64::from(table.0)),
            None => Level::Nothing,
        }
    }

    /// A tenant's rights: none for an unknown tenant.
    pub fn rights(&self, alloc: Global, tenant: TenantId) -> Result<Rights, Memory>
        ensures { IfOk result (λ rights. rights ≡ rights_of self.now tenant) }
    {
        match self.granted(tenant) {
            Some(rights) => rights.share(alloc),
            None => Ok(Rights::of(Vec::new(alloc))),
        }
    }

    /// The rights of a known tenant.
    fn granted(&self, tenant: TenantId) -> Option<&Rights>
        ensures { unwrap_or (option_copied result) [] ≡ rights_of self.now tenant }
    {
        for (number, rights) in &self.list {
            if *number == tenant {
                return Some(rights);
            }
        }
        None
    }
}

/// That each tenant's list is one of rights, as its type has it.
fn all_are_rights(list: &[(TenantId, Rights)])
    ensures { AllByRecursion (λ grant. AreRights grant.1) list.now }
{
    for (_, rights) in list {
        let _ = rights.as_slice();
    }
}
