//! Functions of truth values: what a store of them owes, and the names of such functions.
//!
//! A store, as one of ordered binary decision diagrams or one of and-inverter graphs, is a list of nodes that only
//! grows. An [`Edge`] names a node or its complement, and stands for a function from assignments to truth values. What
//! contracts see of a store is its [`Meaning`]. The trait [`Bits`] says what each call answers in terms of these functions
//! alone, so that code over any store is proved from the trait, as the gates are: [`both`], [`either`], [`choose`] and [`differ`] work
//! out constants, equal edges and complements, and call the store for the rest alone. What an operation does to a store, and
//! what it answers, is one fact, `Makes` of `specs/Keeps`.
//!
//! Tests: the crate `store_tests`.
#![tactic(auto)]

pub mod bits;
pub mod bitvec;
pub mod edge;
pub mod gates;
pub mod meaning;

pub use bits::Bits;
pub use bitvec::Bitvec;
pub use edge::{Decision, Edge, Full};
pub use gates::{both, choose, differ, either, is_constant};
pub use meaning::Meaning;
