//! What a shift answers.

use bfr_store::{Bitvec, Edge};

/// A shifted integer of at most 128 bits, and the function that is true where the result leaves 128 bits. Where it is
/// true, the bits say nothing.
#[derive(Drop)]
pub struct Shifted {
    pub bits: Bitvec,
    pub over: Edge,
}
