//! Verdicts on theorems.
//!
//! [`decide_theorem`] gives a verdict: by cover, then by a symbolic run, and where that runs out of nodes or clauses by
//! [`scan`], which tries every input of a theorem of few indices on any number of workers at once, or by runs in other modes.
//!
//! - `decide`, by `verdict_of` a symbolic decision and by `otherwise`, the runs in other modes; `verdict`, what it answers, and
//!   `stall`, the record of a decision that ran out;
//! - `scanning`: the inputs, in `pieces`, each tried by `trial` and `trial_input`, with `gate` at its beginning; the answers
//!   (`scanned`) are put together by `join`;
//! - `certify`: the book of clauses that shows a theorem;
//! - `laws`: what proper verdicts and scans agree on.
//!
//! Tests: those of the crate `gl`.
#![tactic(auto)]

mod certify;
mod decide;
mod gate;
mod join;
pub mod laws;
mod otherwise;
mod piece;
mod pieces;
mod scanned;
mod scanning;
mod stall;
mod trial;
mod trial_input;
mod verdict;
mod verdict_of;

pub use certify::certificate;
pub use decide::decide_theorem;
pub use gate::{Gate, OpenGate};
pub use gl_symbolic::Room;
pub use scanned::Scan;
pub use scanning::scan;
pub use stall::{Stall, StallCause, Stalls};
pub use verdict::Verdict;
