//! Memo tables: the values of finished calls, by function and arguments.
//!
//! Tests: the crate `arena_tests`.
#![tactic(auto)]

mod call;
mod tables;

pub use call::MemoCall;
pub use tables::MemoTables;
