//! Stores of bit functions, clauses and searches.
//!
//! This crate has no code but its tests, of `bfr_store`, `bdd_store`, `bdd_param`, `aig_store`, `cnf_rup` and `sat_core`.
#![tactic(auto)]

#[cfg(test)]
mod tests;
