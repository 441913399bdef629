//! The primitives of the logic on symbolic objects.
//!
//! [`apply`] gives the value of a primitive on symbolic objects under a path, an edge: the answer stands for the logic's value
//! under each assignment that makes the path true. `Applies` of `specs/Applying` says so, and what a fault says: `Wide` comes
//! with an assignment of the path under which the logic's integer leaves 128 bits, `Spent` where the bit store gave up its last
//! decision, `Full` where a count stands at its limit.
//!
//! - Choices and the equality of conses go by a work list (`applying`), on which an application waits with its part of the
//!   path. Its invariant is in `specs/Frames`: whatever comes of the focus, the frames make the answer of it.
//! - Where no object is a choice, its kind is known (`simple`): integers go to the operations of `sym_bits` at full width
//!   (`operations`, `tests_of_integers`), and T and NIL are a Boolean's edges (`predicates`).
//!
//! Tests: those of the crate `gl`.
#![tactic(auto)]

mod answers;
pub mod applying;
mod characters;
mod constants;
pub mod fault;
mod frames;
mod kinds;
mod memo;
mod nodes;
mod numbers;
mod operations;
mod parts;
mod predicates;
mod simple;
pub mod store_calls;
mod tests_of_integers;

pub use applying::apply;
pub use fault::SymFault;
