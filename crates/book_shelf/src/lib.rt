//! Books that include books: their texts, read once each, as one list of forms.
//!
//! Tests: the crate `text_tests`.
#![tactic(auto)]

mod finish;
mod included;
mod item;
pub mod laws;
mod library;
mod load_end;
mod loader;
mod paths;

pub use finish::{Finish, ShelfCode};
pub use item::{Item, ItemList, Mark};
pub use library::Library;
pub use load_end::LoadEnd;
pub use loader::load;
