//! Theorems, the shapes of their variables, and the inputs on which they are tried.
//!
//! A theorem binds each of its variables to a [`Shape`]. A truth value for each index of the shapes then
//! gives each variable an object. Index values are numbered by the indices in order: the value of number k
//! goes to the k-th smallest index, from 0.
//!
//! Tests: `tests/tables`, through the built program.
#![tactic(auto)]

mod binding_form;
mod binding_list;
mod fault;
mod fn_set;
mod index_form;
pub mod input_laws;
mod inputs;
mod item_form;
mod numbers;
mod objects;
mod order;
mod shape;
mod shape_form;
mod theorem;
mod trees;
mod words;

pub use binding_form::bindings;
pub use binding_list::{Bindings, bit_count, input_of};
pub use fault::BindFault;
pub use fn_set::FnSet;
pub use inputs::Inputs;
pub use numbers::{input_numbered, set_number};
pub use shape::Shape;
pub use theorem::{Mode, Part, Thm};
