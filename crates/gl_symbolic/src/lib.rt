//! The decision of a theorem by one symbolic run.
//!
//! [`decide_symbolically`] runs the hypothesis on the theorem's symbolic input, asks the bit store whether some assignment
//! meets it, runs the conclusion under it, and asks whether some assignment meets the hypothesis and makes the conclusion
//! NIL. So each of its answers speaks of all assignments of the theorem's indices at once, after GL (Swords and Davis,
//! "Bit-blasting ACL2 theorems").
//!
//! [`hypothesis`] and [`refutation`] are the two runs, each up to the edge that is decided, for a caller that has a store's
//! own decision.
//!
//! - `decide`, by `runs` of the two parts, each up to its `condition`, and `narrow`, which makes constants of the indices that the
//!   hypothesis fixes; `decision`, what it answers;
//! - `parametrised`: the same with the hypothesis as parameters;
//! - `room`: a decision in a theorem's mode, with stores of its own; `certifying_store` and `stores`, what a store shows then.
//!
//! Tests: those of the crate `gl`.
#![tactic(auto)]

pub mod certifying_store;
mod condition;
pub mod decide;
pub mod decision;
mod narrow;
mod parametrised;
pub mod room;
pub mod runs;
mod stores;

pub use certifying_store::CertifyingStore;
pub use decide::decide_symbolically;
pub use decision::Decision;
pub use room::{Room, decide_in_mode, run_in_mode};
pub use runs::{hypothesis, refutation};
