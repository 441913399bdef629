//! Refutations as texts, and how they are judged.
//!
//! This crate has no code but its tests, of `lrat_tool`.
#![tactic(auto)]

#[cfg(test)]
mod tests;
