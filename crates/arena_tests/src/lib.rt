//! Interned objects, kept calls and fast alists.
//!
//! This crate has no code but its tests, of `hons_arena`, `memo_tables` and `fast_alists`.
#![tactic(auto)]

#[cfg(test)]
mod tests;
