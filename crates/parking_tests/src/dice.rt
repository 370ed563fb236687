//! Numbers that follow from a seed.

ghost use Rattle.std.specs.Prelude.{◌<◌};

/// A generator, at its last number.
#[derive(Clone, Copy)]
pub struct Dice {
    pub seed: u64,
}

impl Dice {
    /// A number below a bound, from the upper bits of the next number.
    pub fn below(&mut self, bound: u64) -> u64
        requires { 0 < bound }
        ensures { result < bound }
    {
        self.seed = self
            .seed
            .wrapping_mul(6_364_136_223_846_793_005)
            .wrapping_add(1_442_695_040_888_963_407);
        (self.seed >> 33) % bound
    }
}
