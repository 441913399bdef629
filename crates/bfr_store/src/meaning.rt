//! What contracts see of a store of bit functions.

/// What the edges of a store stand for, and its counts.
pub trait Meaning {
    ghost use Rattle.std.specs.Prelude.{ℕ, Bool};
    ghost use Rattle.bfr_store.specs.declared.edge.Edge.{Edge};

    /// Whether the edge names a function of this store.
    ghost live: { Self → Edge → Type 0 };

    /// The truth of an edge under an assignment.
    ghost truth_of: { Self → Edge → (ℕ → Bool) → Bool };

    /// The edge of the function that is always so.
    ghost constant_edge: { Bool → Edge };

    /// Whether the last decision was given up. It is false in a new store.
    ghost spent: { Self → Bool };

    /// How much the decisions of the store may spend, all together, where that is bounded.
    ghost budget_of: { Self → ℕ };

    /// How many nodes there may be.
    ghost limit_of: { Self → ℕ };

    /// How many nodes there are, without the constant's.
    ghost count_of: { Self → ℕ };

    /// One more than the greatest variable that was made, or 0 where there is none.
    ghost width_of: { Self → ℕ };
}
