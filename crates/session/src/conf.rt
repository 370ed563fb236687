ghost use Rattle.std.specs.Prelude.{◌≡◌};
ghost use Rattle.session.specs.States.{knows};

use sp_base::{Policy, TenantId};

/// How sessions are configured.
#[derive(Drop)]
pub struct SessionConf {
    /// The tenants with their keys.
    pub tenants: Vec<(TenantId, u64)>,
    /// When calls are pushed back to their clients.
    pub policy: Policy,
    /// Whether what clients send as the end of a call is audited.
    pub audit: bool,
}

impl SessionConf {
    ghost use Rattle.std.specs.Prelude.{◌≡◌};

    /// Whether a tenant is configured with this key.
    pub fn knows(&self, tenant: TenantId, key: u64) -> bool
        ensures { result ≡ knows self.now tenant key }
    {
        self.tenants
            .iter()
            .any(|known| known.0.0 == tenant.0 && known.1 == key)
    }
}
