//! What a lock has to know of the value in it.
ghost use Rattle.std.specs.Prelude.{◌≡◌, ℕ, ◌^◌, ◌<◌, List, length};

/// A value that holds a list of items, each by a number, and that has a name.
pub trait Grows {
    /// What stands in the list.
    type Item;
    /// Plain data that tells the value from others.
    type Name;

    /// The items that the value holds, in order.
    ghost items: { Self → List Self.Item };

    /// The number that an item is by.
    ghost by: { Self.Item → ℕ };

    /// The value's name.
    ghost name: { Self → Self.Name };

    /// The number of items, where they are fewer than 2^63.
    fn count(&self) -> u64
        ensures { length (items self.now) < 2 ^ 63 → result ≡ length (items self.now) };
}
