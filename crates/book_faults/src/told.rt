//! How many faults are told.

ghost use Rattle.std.specs.Prelude.{◌≡◌, take};

/// How many faults are told at most.
pub const MOST_TOLD: usize = 50;

/// The faults that are told: the first ones of those that were found.
pub fn told_of<T>(found: &[T]) -> &[T]
    ensures { result.now ≡ take 50 found.now }
{
    if found.len() <= MOST_TOLD {
        found
    } else {
        &found[..MOST_TOLD]
    }
}
