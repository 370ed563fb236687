use ext_mean::{Origin, Variable};

/// Where an item stands.
#[derive(Debug, Drop)]
pub struct Scene {
    /// The variables in scope.
    pub scope: Vec<Variable>,
    /// The origins of the keys of each `multiget` whose arms the item is in.
    pub held: Vec<Origin>,
}
