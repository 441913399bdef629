//! A piece of a log: consecutive entries, which one worker checks.

ghost use Rattle.std.specs.Prelude.{◌≤◌};

/// A run of consecutive numbers.
#[derive(Clone, Copy, Debug, PartialEq, Eq)]
pub(crate) struct Piece {
    pub first: u32,
    pub end: u32,
    pub ghost has_numbers: { first ≤ end },
}
