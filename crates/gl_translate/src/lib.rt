//! Forms to terms.
//!
//! What a form of a book means is a definition, `translation` in `specs/`: a term of the logic, or the
//! code of the form's first fault. [`term`] gives it. It takes a form apart one step of the table at a
//! time, into a term without parts or into parts that are forms themselves, whose meanings together are
//! the form's. No expansion of a macro is built.
//!
//! The work is in proportion to the term: names are looked up in constant time, and the first part of an
//! `or`, which stands in the term twice, is copied. The stack holds at most 2,000 forms inside one another.
//!
//! Tests: the crate `world_tests`.
#![tactic(auto)]

mod arithmetic;
mod choices;
mod context;
mod descent;
mod fault;
mod form;
mod form_steps;
mod lets;
mod macros;
mod own_definitions;
mod scope;
mod steps;
mod translate;
pub mod words;

pub use fault::TermFault;
pub use macros::Macro;
pub use own_definitions::Owns;
pub use scope::Scope;
pub use translate::term;
