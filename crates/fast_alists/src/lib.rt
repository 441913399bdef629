//! Association lists with hash tables beside them, after ACL2's fast alists: a list stays a list, and a table that
//! belongs to it finds the first pair with a key in constant time.
//!
//! Tests: the crate `arena_tests`.
#![tactic(auto)]

mod alists;
mod extend;
mod fault;
mod fork;
pub mod laws;
mod table;
mod tables;
mod walk;

pub use alists::FastAlists;
pub use fault::AlistFault;
