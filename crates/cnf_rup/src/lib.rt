//! Clauses of graphs, and a book of clauses in which each learned one is checked.
//!
//! [`cnf_of`] gives the clauses of an edge's cone by Tseitin's translation. A [`ClauseBook`] holds them and takes further
//! clauses, each with a list of hints that shows it by unit propagation: the rule of RUP proofs with the hints of LRAT. So
//! each clause of a book follows from its first ones, and where the empty clause is in the book no assignment satisfies
//! them. Who proposes clauses and hints need not be trusted. [`trimmed`] leaves out what the empty clause does not need.
//!
//! Tests: the crate `store_tests`.
#![tactic(auto)]

mod book;
pub mod check;
pub mod clause;
pub mod clause_status;
mod cnf;
mod cone;
pub mod laws;
mod needed;
pub mod trail;

pub use book::{ClauseBook, Learn};
pub use clause::{Clause, Entry, Hints};
pub use cnf::cnf_of;
pub use needed::trimmed;
