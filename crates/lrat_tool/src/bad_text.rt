//! Why a text was not read.

/// Why a text was not read.
#[derive(Clone, Copy, Debug, PartialEq, Eq)]
pub(crate) enum BadText {
    /// It has not its form, first on this line.
    At(u32),
    /// Memory was refused.
    Memory,
}
