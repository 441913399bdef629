//! What stands below everything: how the outside is reached, the limits of a run and its status.
//!
//! Tests: the crate `base_tests`.
#![tactic(auto)]

mod calls;
pub mod failed;
pub mod limits;
pub mod memory_shelf;
pub mod memory_sink;
mod named_texts;
pub mod shelf;
pub mod sink;
pub mod status;
pub mod sure_shelf;
pub mod sure_sink;
