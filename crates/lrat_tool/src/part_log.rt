//! What is read of a part of a log.

use super::log::Log;

/// The log of a part of a text, and how many lines this has.
#[derive(Drop)]
pub(crate) struct PartLog {
    pub log: Log,
    pub lines: u32,
}
