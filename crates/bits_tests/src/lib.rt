//! Integers as lists of edges, and symbolic objects.
//!
//! This crate has no code but its tests, of `sym_bits` and `sym_objects`: over stores of a few edges, and of `sym_bits` over
//! diagrams, beside the primitives on integers and beside textbook circuits, with their nodes.
#![tactic(auto)]

#[cfg(test)]
mod tests;
