//! Proof by cases: the theorems that a theorem by cases is made of, and what their answers come to.
//!
//! Tests: the crate `world_tests`.
#![tactic(auto)]

mod case_list;
mod functions;
mod given;
pub mod laws;
mod outcome;
mod param;
mod settling;
mod substitute;
mod thms;

pub use case_list::{Case, CaseList};
pub use functions::copied_functions;
pub use outcome::{Outcome, Outcomes};
pub use param::{ParamThm, param_of};
pub use settling::{Settled, settle};
pub use thms::Thms;
