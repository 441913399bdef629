//! The words of the command `gl`, and what they ask for: a transcript, a text of a proof, or a judgement on two texts. And
//! what is written where they ask for nothing.
//!
//! Tests: those of the crate `gl`.
#![tactic(auto)]

mod orders;
mod proof_part;
mod usage;
mod words;

pub use orders::{Order, Pair, Proof, order_named};
pub use proof_part::ProofPart;
pub use usage::{refuse_end, refuse_words};
pub use words::{Command, Source};
