//! A piece of a scan: consecutive numbers of inputs, which one worker tries.

ghost use Rattle.std.specs.Prelude.{◌<◌};

/// The numbers from the first up to but not including the end.
#[derive(Clone, Copy, Debug, PartialEq, Eq)]
pub struct Piece {
    /// Which piece it is, from 0.
    pub number: u32,
    pub first: u32,
    pub end: u32,
    pub ghost has_numbers: { first < end },
}
