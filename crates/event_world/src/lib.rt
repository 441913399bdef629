//! The world that every book begins with, and the events of a book.
//!
//! What a form means is a definition, `event_meant` in `specs/`: an event of the table, or the code of the
//! first check that fails. [`event_of`] gives it. The state after an accepted event is `next_state`. [`prelude`] is
//! the world of a book's first form.
//!
//! Tests: the crate `world_tests`, and `tests/tables`, through the built program.
#![tactic(auto)]

mod bound;
mod calls;
mod cases;
mod cases_form;
mod clique;
mod clique_form;
mod declares;
mod defun;
mod defun_form;
mod event;
mod fault;
mod ground_reader;
mod ground_texts;
mod ground_world;
mod keyword_table;
mod keywords;
mod measure;
mod names;
mod one_event;
mod parameters;
mod parts;
mod plain;
mod redundant;
mod texts;
mod theorem;
mod theorem_form;
mod translated;
mod word;

pub use event::Event;
pub use fault::EventFault;
pub use ground_world::prelude;
pub use one_event::event_of;
