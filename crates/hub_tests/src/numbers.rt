//! A list of numbers, which is its own history.
use sp_base::Keeps;

/// The numbers, from the first that was appended on.
#[derive(Drop)]
pub struct Numbers {
    pub items: Vec<u64>,
}

impl Keeps for Numbers {
    ghost use Rattle.std.specs.Prelude.{◌≡◌};

    type Entry = u64;

    type Fixed = ();

    ghost stands_for = { λ numbers h. h ≡ numbers.items.items };

    ghost fixed = { λ _. tt };

    fn length(&self) -> u64 {
        self.items.len() as u64
    }
}
