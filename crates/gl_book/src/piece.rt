//! A run of consecutive jobs.

ghost use Rattle.std.specs.Prelude.{◌<◌};

/// The jobs of a phase from the first up to but not including the end, by their numbers from 0.
#[derive(Clone, Copy, Debug, PartialEq, Eq)]
pub struct Piece {
    pub first: u64,
    pub end: u64,
    pub ghost has_jobs: { first < end },
}
