//! Shelves and sinks, the logic's trees and worlds, integers, and printed objects.
//!
//! This crate has no code but its tests, of `gl_base`, `gl_logic`, `int_prims` and `sexp_print`.
#![tactic(auto)]

#[cfg(test)]
mod tests;
