//! The answer where an integer leaves 128 bits.

/// The logic's integer is outside -2^127 to 2^127 - 1.
#[derive(Clone, Copy, Debug, PartialEq, Eq)]
pub struct Wide;
