use ext_mean::{Function, Kind};

/// Where an item stands.
#[derive(Clone, Copy)]
pub struct Place<'a> {
    /// All functions of the program.
    pub functions: &'a [Function],
    /// Those declared before the item's own.
    pub before: &'a [Function],
    /// The result that the item's function has.
    pub result: Kind,
}
