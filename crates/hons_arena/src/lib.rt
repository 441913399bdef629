//! Interned objects: one cell for each different integer, character and cons, so that equal ids are equal objects.
//!
//! # Speed
//!
//! Figures of one machine that was shared with other work, the least of several runs, in nanoseconds. Before, the
//! slot table was made whole at once, and a cell took 48 bytes and a slot 8, where they now take 32 and 4.
//!
//! | | before | now |
//! |---|---|---|
//! | making an arena of limit 1,000 | 1,400 | 120 |
//! | making an arena of limit 1,000,000 | 3,360,000 | 140 |
//! | making an arena of limit 4,000,000 | 41,000,000 | 8,100 |
//! | a new integer, of a million | 234 | 104 |
//! | an integer found again | 226 | 120 |
//! | a cons with one part that is new, of a million | 235 | 159 |
//! | a step of a list of a million integers: the integer found, its cons made | 524 | 490 |
//! | the same list found again, a step | 524 | 495 |
//! | releasing a cell, of two million | 142 | 59 |
//!
//! On another machine, by the time of the whole process: 120 for a new integer of a million, 310 for a step of the list,
//! 220 for one that is found again. All of these are of before cells that are made in a row had their slots in one block, and
//! before a slot had a byte beside it.
//!
//! Tests: the crate `arena_tests`.
#![tactic(auto)]

mod arena;
mod cell;
mod hash;
mod hashed_id;
mod id;
pub mod laws;
mod place;
mod probe;
mod slots;
mod tree_of;

pub use arena::HonsArena;
pub use hashed_id::{HashedId, kind_number};
pub use id::{Full, Id, IdKind, Kind, Mark};
pub use tree_of::TreeFault;
