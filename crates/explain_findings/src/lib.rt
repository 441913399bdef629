//! What is found out of an event that asks for a look, by asking the library more: the verdicts are those of the run, and what is
//! said beside them is what the same library answers to forms that are made here.
//!
//! - `found`, what came of an event by its answer, the run's or that to a question;
//! - `replay`: the events of a book taken in once more, up to a place; `asker`, forms asked in the state there, to `values` and
//!   what is `found`, by their `events`; `making` forms, and `forms`, what they are made of; `reading` texts;
//! - of a refutation, and of an input on which a part has no value: `evaluation`;
//! - of what is vacuous: `vacuity`, the first conjunct under which nothing is left;
//! - of what is uncovered: `cover`, by `shapes` in words;
//! - of what is undecided: `attempts` at `trials`, by the `theorem` changed and `reordered` bindings, with a `stopwatch` and at a `pace`; `modes`, how
//!   its time was spent;
//! - `advice`, what a verdict means and what to try; `findings`, all that is said of an event.
//!
//! Tests: tests/explain, through the built program.
#![tactic(auto)]

mod advice;
mod asker;
mod attempts;
mod cover;
mod evaluation;
mod events;
mod findings;
mod forms;
mod found;
mod making;
mod modes;
mod opening;
mod pace;
mod reading;
mod reordered;
mod replay;
mod shapes;
mod stopwatch;
mod theorem;
mod trials;
mod vacuity;
mod values;

pub use asker::Asker;
pub use attempts::Attempts;
pub use evaluation::widths_of;
pub use findings::put_finding;
pub use forms::{head_of, is_among, name_in, word_of};
pub use found::found_of;
pub use modes::put_modes;
pub use opening::Before;
pub use reading::{bindings_of_text, is_bound};
pub use replay::{FormFault, Refused, Replay, take_form};
pub use stopwatch::Stopwatch;
