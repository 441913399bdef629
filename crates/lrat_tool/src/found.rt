//! What a check finds of some entries of a log: that each is shown, or the first that is not.

/// What is found of some entries.
#[derive(Clone, Copy, Debug, PartialEq, Eq)]
pub(crate) enum Found {
    /// Each is shown.
    None,
    /// The first that is not.
    At(u32),
    /// Memory was refused.
    Memory,
}
