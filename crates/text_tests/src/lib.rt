//! Texts and how they are read.
//!
//! This crate has no code but its tests, of `sexp_reader` and `book_shelf`.
#![tactic(auto)]

#[cfg(test)]
mod tests;
