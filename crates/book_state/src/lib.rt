//! What stands behind the events of a book's front, and what the next form means there.
//!
//! A [`State`] has a world, the mode of later theorems, and the functions whose calls are kept. It gives the event that a form
//! means, takes an event in, and notes a theorem whose answer may come later. [`copy_of`] copies its functions.
//!
//! Tests: those of the crate `gl`.
#![tactic(auto)]

mod functions;
mod members;
mod state;

pub use functions::copy_of;
pub use state::State;
