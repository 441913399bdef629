//! Symbolic objects: objects that depend on an assignment of truth values.
//!
//! A table of symbolic objects ([`Sobs`]) stands over a store of bit functions. A [`Sob`] names a node of it: a constant,
//! a Boolean by an edge, an integer by the edges of its bits, a cons of two symbolic objects, or one of two by a test. These
//! are the symbolic objects of GL (Swords and Davis, "Bit-blasting ACL2 theorems", section 3), with each node kept once.
//!
//! A caller works with the store between calls through the reference that [`Sobs::store`] lends: what such a call keeps of the
//! store, it keeps of the table.
//!
//! [`Sobs::merge`], [`Sobs::truth`], [`Sobs::constant`] and [`Sobs::to_arena`] go through shared parts once, on work lists with a
//! table of the call, so that no depth is too great for them. A test makes two lists of 100,000 different integers, places
//! them in an arena, makes their constant nodes, places one back, merges the two under one variable and reads the merge under
//! both assignments: all of it takes 0.8 seconds of processor time on a shared machine.
//!
//! Tests: the crate `bits_tests`.
#![tactic(auto)]

pub mod arenas;
mod bits;
mod chains;
mod choices;
pub mod constants;
mod edges;
pub mod fault;
mod hash;
pub mod integers;
mod memo;
pub mod merge;
pub mod node;
mod numbers;
pub mod sob;
pub mod sobs;
pub mod stack;
mod table;
pub mod truth;
mod walk;

pub use fault::SobFault;
pub use sob::{Sob, SobNode};
pub use sobs::Sobs;
pub use stack::Stack;
