//! Objects of the ACL2 logic, names, and what stands on them.
//!
//! The universe of objects is made of unbounded integers, characters of code 0 to 255, symbols,
//! strings and conses. Symbols and strings are numbered by their text in one table, [`Texts`].
//!
//! Tests: the crate `base_tests`.
#![tactic(auto)]

mod assignment;
mod def;
mod defs;
pub mod extension_laws;
pub mod ground_laws;
mod ids;
pub mod integer_laws;
pub mod laws;
mod name_index;
pub mod name_set;
mod named_trees;
mod names;
pub mod object_laws;
pub mod part_laws;
mod prim;
pub mod same_terms;
mod term;
mod terms;
mod texts;
pub mod total_laws;
mod tree;
pub mod wording;
pub mod worked;
mod world;

pub use assignment::Assignment;
pub use def::{Def, Measure, Natural};
pub use defs::{Defs, Measures};
pub use ids::{FnId, NoMemory, TextId};
pub use names::Names;
pub use prim::Primitive as Prim;
pub use term::Term;
pub use terms::Terms;
pub use texts::Texts;
pub use tree::{Tree, TreeKind};
pub use world::{Extent, World};
