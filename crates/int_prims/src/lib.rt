//! The integer primitives of the logic on integers of 128 bits.
//!
//! The logic's integers are unbounded. Where a result leaves 128 bits the answer is [`Wide`], and no
//! result is ever wrapped. Nothing here takes memory, and no loop counts up to an argument's value.
//!
//! Tests: the crate `base_tests`.
#![tactic(auto)]

mod apply;
mod arithmetic;
mod bits;
mod bitwise;
mod bytes;
mod quotients;
mod shifts;
mod wide;

pub use apply::{apply_int, is_operation, is_test, test_int};
pub use wide::Wide;
