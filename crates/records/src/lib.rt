//! What stands in the store, and who may use it: tables of records with versions, and the rights of
//! each tenant.
#![tactic(auto)]

mod grants;
mod stored;
mod tables;

pub use grants::Grants;
pub use stored::Stored;
pub use tables::Tables;
