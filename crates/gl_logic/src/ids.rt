//! Numbers of names and of definitions, and the one refusal that is free.

use std::alloc::{AllocError, AllocFailed};

/// The number of a text in a table of texts, which is the number of each symbol and string with that
/// text.
#[derive(Clone, Copy, Debug, PartialEq, Eq)]
pub struct TextId {
    pub number: u64,
}

/// The number of a definition in a world, from 0.
#[derive(Clone, Copy, Debug, PartialEq, Eq)]
pub struct FnId {
    pub number: u64,
}

/// Memory was refused, and nothing else.
#[derive(Clone, Copy, Debug, PartialEq, Eq)]
pub struct NoMemory;

impl From<AllocError> for NoMemory {
    fn from(_error: AllocError) -> NoMemory {
        NoMemory
    }
}

impl<T: Drop> From<AllocFailed<T>> for NoMemory {
    fn from(_error: AllocFailed<T>) -> NoMemory {
        NoMemory
    }
}
