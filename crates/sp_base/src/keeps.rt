ghost use Rattle.std.specs.Prelude.{◌≡◌, ◌<◌, ◌^◌, List, length};

/// A value that stands for the list of entries that it was made of, counted from number 0.
pub trait Keeps {
    /// One entry of the list.
    type Entry;

    /// The part of the value that never changes, as plain data.
    type Fixed;

    /// Whether the value stands for this list.
    ghost stands_for: { Self → List Self.Entry → Type 0 };

    /// What of the value never changes.
    ghost fixed: { Self → Self.Fixed };

    /// How many entries the list has, which takes no memory.
    fn length(&self) -> u64
        ensures { (entries : List Self.Entry) → stands_for self.now entries →
            length entries < 2 ^ 64 → result ≡ length entries };
}
