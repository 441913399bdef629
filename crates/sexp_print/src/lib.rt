//! Printing of objects, as ACL2 prints them in upper case.
//!
//! Tests: the crate `base_tests`.
#![tactic(auto)]

mod atoms;
mod lists;

pub use lists::print;
