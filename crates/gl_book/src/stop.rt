//! Why a run ends before its last line.

/// Why a run ends before its last line.
#[derive(Clone, Copy, Debug, PartialEq, Eq)]
pub enum Stop {
    /// A write or the flush failed.
    Write,
    /// Memory was refused outside an answer.
    Memory,
}
