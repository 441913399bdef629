//! A book run, with each line of its transcript at its event's place, and what is refused explained in words.
//!
//! The verdicts are those of the run. What is said beside them is found by asking the same library once more: the events in
//! front of a refused form are taken in again, and `book_faults` finds the part of the form that is at fault, and all faults behind
//! it.
//!
//! - what is shown: `shown`, the observer of the run, whose `screen` puts `places` in front of lines, and names the event that is
//!   `running`, by `folding` included books; `progress`, how far it is, for a thread beside it; `explain`, a run with its explanation; `told`, what is told behind a run, with `sources`; `naming`, the
//!   shelf, which knows the texts that it was asked for: no others are opened once more;
//! - what is said: `refusal`, by `message`, `codes`, `expected`, `known`, `missing`, `governing`, `counts`, `earlier` and `excerpt`, into a `report`;
//!   `further`, the faults behind it, with definitions `below` a use, and `telling`, which of them are told.
//!
//! Tests: tests/explain, through the built program, and `tests`, the places of lines.
#![tactic(auto)]

mod below;
mod codes;
mod counts;
mod earlier;
mod excerpt;
mod expected;
mod explain;
mod folding;
mod further;
mod governing;
mod known;
mod manner;
mod message;
mod missing;
mod naming;
mod places;
mod progress;
mod refusal;
mod running;
mod screen;
mod shown;
mod sources;
mod telling;
#[cfg(test)]
mod tests;
mod told;
mod trying;

pub use explain::{Explained, explain_book};
pub use manner::{Format, Manner, Outlet};
pub use naming::NamingShelf;
pub use progress::{Doing, Progress};
