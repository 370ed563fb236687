//! Lists by increasing tenant, and rights by increasing table.

ghost use Rattle.std.specs.Prelude.{◌≡◌, ◌≢◌, ◌≤◌, ◌<◌, false, [], ◌∷◌, ◌++◌, length, take, drop, unwrap_or, IfOk, OnOk};
ghost use Rattle.std.specs.Option.{option_copied};
ghost use Rattle.sched_text.specs.Reading.{tenants_before, tables_before};
ghost use Rattle.records.specs.GrantsList.{rights_of};
ghost use Rattle.sched_text.specs.Tenants.{inserted, has_tenant, has_table, with_right, granted};

use crate::rows::Rows;
use sp_base::{Level, Memory, Rights, TableId, TenantId};
use std::alloc::Global;

/// Whether a row names the tenant.
pub fn has_tenant(rows: &[(TenantId, Rights)], tenant: TenantId) -> bool
    ensures { result ≡ has_tenant rows.now tenant }
{
    for (number, _) in rows {
        if *number == tenant {
            return true;
        }
    }
    false
}

/// The rights of a tenant that a row names.
fn found(rows: &[(TenantId, Rights)], tenant: TenantId) -> Option<&Rights>
    ensures { unwrap_or (option_copied result) [] ≡ rights_of rows.now tenant }
{
    for (number, rights) in rows {
        if *number == tenant {
            return Some(rights);
        }
    }
    None
}

/// The levels of a tenant: none where no row names it.
pub fn rights_of(rows: &[(TenantId, Rights)], tenant: TenantId) -> &[(TableId, Level)]
    ensures { result.now ≡ rights_of rows.now tenant }
{
    match found(rows, tenant) {
        Some(rights) => rights.as_slice(),
        None => &[],
    }
}

/// Whether a level is given for the table.
pub fn has_table(rights: &[(TableId, Level)], table: TableId) -> bool
    ensures { result ≡ has_table rights.now table }
{
    for (number, _) in rights {
        if *number == table {
            return true;
        }
    }
    false
}

/// Where a row of the tenant goes: before the first greater tenant.
fn place_of_tenant<T>(rows: &[(TenantId, T)], tenant: TenantId) -> usize
    ensures within { result ≤ length rows.now }
    ensures place { result ≡ tenants_before tenant rows.now }
{
    for (at, (number, _)) in rows.iter().enumerate() {
        if tenant.0 < number.0 {
            return at;
        }
    }
    rows.len()
}

/// Puts a row of the tenant before the first greater tenant.
#[tactic(auto, using(crate::proofs::Tables::inserted_there))]
pub fn insert<T: Drop>(
    rows: &mut Rows<(TenantId, T)>,
    tenant: TenantId,
    value: T,
) -> Result<(), Memory>
    ensures { OnOk result (rows.new ≡ inserted tenant value rows.old) }
{
    let at = place_of_tenant(rows.as_slice(), tenant);
    rows.insert(at, (tenant, value))
}

/// Where a level for the table goes: before the first greater table.
fn place_of_table(rights: &[(TableId, Level)], table: TableId) -> usize
    ensures within { result ≤ length rights.now }
    ensures place { result ≡ tables_before table rights.now }
{
    for (at, (number, _)) in rights.iter().enumerate() {
        if table.0 < number.0 {
            return at;
        }
    }
    rights.len()
}

/// Rights with a level for one more table.
#[tactic(auto, using(crate::proofs::Tables::with_right_there, crate::proofs::Tables::with_right_fits))]
fn with_right(
    alloc: Global,
    rights: &Rights,
    table: TableId,
    level: Level,
) -> Result<Rights, Memory>
    requires absent { has_table rights.now table ≡ false }
    requires room { length rights.now < 64 }
    requires some { level ≢ Level.Nothing }
    ensures { IfOk result (λ more. more ≡ with_right table level rights.now) }
{
    let mut list = Vec::from_slice(alloc, rights.as_slice())?;
    let at = place_of_table(list.as_slice(), table);
    list.insert(at, (table, level))?;
    Ok(Rights::of(list))
}

/// Gives a tenant a level for one more table.
pub fn grant(
    alloc: Global,
    rows: &mut Rows<(TenantId, Rights)>,
    tenant: TenantId,
    table: TableId,
    level: Level,
) -> Result<(), Memory>
    requires absent { has_table (rights_of rows.old tenant) table ≡ false }
    requires room { length (rights_of rows.old tenant) < 64 }
    requires some { level ≢ Level.Nothing }
    ensures { OnOk result (rows.new ≡ granted tenant table level rows.old) }
{
    for at in 0..rows.len() {
        let (number, rights) = &rows.as_slice()[at];
        if *number == tenant {
            let more = with_right(alloc, rights, table, level)?;
            rows.set(at, (tenant, more));
            return Ok(());
        }
    }
    Ok(())
}
