//! What a table asks of its nodes.

ghost use Rattle.std.specs.Prelude.{◌≡◌, ◌↔◌, IsTrue};

/// A node that a table keeps: words that are hashed and compared.
pub trait Interned: Copy {
    ghost use Rattle.std.specs.Prelude.{ℕ};

    /// The hash of a node.
    ghost hash_of: { Self → ℕ };

    /// The node's hash.
    fn hash(self) -> u64
        ensures { result ≡ hash_of self };

    /// Whether the two are one.
    fn is(self, other: Self) -> bool
        ensures { IsTrue result ↔ (self ≡ other) };
}
