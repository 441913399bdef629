//! Functions as parameters.
//!
//! [`parametrise`] makes, of a function that some assignment makes true, a vector of edges, one for each variable: at every
//! assignment the vector is one that makes the function true, and at one that makes it true the vector is that assignment
//! itself. So the assignments that make the function true are exactly those that the vector makes of all assignments: a
//! parametric representation, after Aagaard, Jones and Seger ("Formal verification using parametric representations of
//! Boolean constraints"), by the vector that Coudert and Madre make of a constraint, which is also the identity on it.
//!
//! The walk down a function calls itself three calls deep for each variable that the function depends on, so 3,072 deep at
//! most. What it has made of an edge is kept, so each test is walked once.
//!
//! Tests: the crate `store_tests`.
#![tactic(auto)]

mod edges;
mod fault;
mod kept;
mod merge;
mod parameters;
mod walk;

pub use edges::Edges;
pub use fault::ParamFault;
pub use parameters::parametrise;
