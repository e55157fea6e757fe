//! What a value has to say of itself to lie behind a lock.
ghost use Rattle.std.specs.Prelude.{ℕ, List};

/// A value that stands for a list of entries. The trait has no call: it exists for the contracts.
pub trait Chronicle {
    /// What the list is made of.
    type Entry;

    // The list that the value stands for, the oldest entry first.
    ghost entries: { Self → List Self.Entry };

    // The number of the pass that made the entry, which the entry holds.
    ghost by: { Self.Entry → ℕ };
}
