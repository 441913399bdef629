//! The crates at the base, with ample memory.

mod integers;
mod printed;
mod shelves;
mod worlds;

use std::process::Abort;

/// Stops where a comparison of this name, or of a row of a table, fails.
fn check(rt: &impl Abort, holds: bool, row: &str) {
    assert!(rt; holds, "{row}");
}

/// Stops where the comparison of a row with this number fails.
fn check_at(rt: &impl Abort, holds: bool, row: u64) {
    assert!(rt; holds, "at {row}");
}
