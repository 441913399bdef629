//! Judges refutations that others found: a formula in DIMACS, and behind it a log of clauses with hints in LRAT.
//!
//! [`judge`] reads both texts, the log by parts, and checks each entry of the log by unit propagation in the order of its hints,
//! side by side by several workers. Where it answers [`Judgement::Verified`], no assignment satisfies the formula. Nothing is
//! taken on trust from who wrote the log. [`cnf_text`] and [`log_text`] write such texts of a refutation that a book of clauses
//! holds, and the judgement on them is [`Judgement::Verified`].
//!
//! Tests: the crate `lrat_tests`.
#![tactic(auto)]

mod bad_text;
mod checking;
mod flat;
mod formula;
mod found;
mod hint_lists;
mod joining;
mod judgement;
pub mod laws;
mod lines;
mod log;
mod number;
mod part_log;
mod parts;
mod piece;
mod pieces;
mod places;
mod ranks;
mod read;
mod written;

pub use checking::judge;
pub use judgement::Judgement;
pub use read::{MOST_TEXT, TextEnd, read_text};
pub use written::{cnf_text, log_text};
