//! What an item of a list is, and how it is read.
ghost use Rattle.std.specs.Prelude.{◌≡◌, ℕ, ◌≤◌, length, IsSome, List, Option, Some};

/// How each item of a list is read, from the bytes at which it begins.
pub trait Row: Copy {
    /// An item, borrowed.
    type Item;
    /// An item of the definitions.
    type Shown;

    ghost row_len: { Self → ℕ };

    ghost item_of: { Self → List ℕ → Option Self.Shown };

    ghost seen: { Self.Item → Self.Shown };

    /// The length of each row.
    fn len(&self) -> usize
        ensures { result ≡ row_len self.now };

    /// The item at the front of some bytes.
    fn first(&self, bytes: &[u8]) -> Self::Item
        requires inside { row_len self.now ≤ length bytes.now }
        requires good { IsSome (item_of self.now bytes.now) }
        ensures { item_of self.now bytes.now ≡ Some (seen result) };
}
