//! Whether recursive definitions are admitted: each recursive call is a step of a measure.
//!
//! The tests around a call say what is known of the variables there. A call is a step where they show that the
//! callee's measure of the actuals is below the caller's measure of the formals, by a table of forms: parts of a
//! cons, a positive integer less a literal, halved or shifted, a gap that closes. Two natural measures may stand
//! together, of which the first decides. ACL2 asks the same question of its prover; here a table answers it.
//!
//! Tests: `tests/tables`, through the built program.
#![tactic(auto)]

mod actuals;
mod caller;
mod calls;
mod clique;
mod facts;
mod fault;
mod ground;
mod known;
mod member;
mod part;
mod rows;
mod single_definition;
mod variables;

pub use clique::admit_clique;
pub use fault::AdmitFault;
pub use single_definition::admit;
