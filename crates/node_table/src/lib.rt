//! Nodes that are found again by what they are: the ground of the stores of diagrams and of graphs.
//!
//! A [`NodeTable`] numbers nodes in the order of their making. Room for as many as there may be is reserved at making; the
//! buckets by which a node is found start few and double inside their room, so that a new table costs nothing in proportion
//! to its limit. What a node's hash is, its type says ([`Interned`]).
//!
//! Tests: the crate `store_tests`.
#![tactic(auto)]

mod chains;
pub mod interned;
pub mod table;
mod words;

pub use interned::Interned;
pub use table::NodeTable;
pub use words::{hash, spread};
