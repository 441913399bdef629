//! Terms that are evaluated with few visits and cells.
//!
//! This crate has no code but its tests, of `lisp_eval`.
#![tactic(auto)]

#[cfg(test)]
mod tests;
