//! A book's events, from its bytes, or from the list of it and of the books that it includes, to its transcript.
//!
//! - events to answers: `answer`, `evaluated`, `decided`, and `cases`, what the parts of a theorem by cases come to;
//! - a large book made from a number: `generator`;
//! - jobs, whose answers may come later: `waiting`, a list of `job`; their answers by any number of workers, `phase`, by
//!   `task`, `piece` and `pieces`, and `gather`, from tasks back to jobs;
//! - answers to an `observer`, to whom a walk tells each as it decides it, and then its lines, with what each is of, its `origin`:
//!   `walk` over all forms and the marks of included books, by `one_run`, `progress`, `put_event`, `marks`, and `ending`, where a
//!   phase ends; `lines`, `measure_words`, `refusal`, `counts`, `line_list`, `put_lines`, `stop`; `run`, by `opening`, what each
//!   run begins with;
//! - the observer that writes a `transcript` and keeps its stalls, by `settle`, what is left of an answer then;
//! - the last theorem of a text, without deciding one: `last`, by `last_step` and `untried`, and the lines of a verdict on it,
//!   `verdict_text`; `cause_text`, what leaves an event undecided, in words.
//!
//! Tests: those of the crate `gl`.
#![tactic(auto)]

mod answer;
mod cases;
mod cause_text;
mod counts;
mod decided;
mod ending;
mod evaluated;
mod gather;
mod generator;
mod job;
mod last;
mod last_step;
pub mod laws;
mod line_list;
mod lines;
mod marks;
mod measure_words;
mod observer;
mod one_run;
mod opening;
mod origin;
mod phase;
mod piece;
mod pieces;
mod progress;
mod put_event;
mod put_lines;
mod refusal;
mod run;
mod settle;
mod stop;
mod task;
mod transcript;
mod untried;
mod verdict_text;
mod waiting;
mod walk;

pub use answer::{Answer, Cause, answer_of};
pub use cases::CasesVerdict;
pub use cause_text::undecided_words;
pub use generator::generate;
pub use last::{Last, last_theorem};
pub use line_list::Lines;
pub use observer::{Answered, Observer};
pub use one_run::Run;
pub use origin::{LineOf, Origin, Spot};
pub use put_lines::put_told;
pub use refusal::{Refusal, RefusalCode, cause_word, code_words};
pub use run::{every_text_has_a_transcript, run_book, run_library, run_text, run_text_gated};
pub use settle::{keep_stall, settle_answer};
pub use transcript::Transcript;
pub use verdict_text::{lines_of_verdict, verdict_lines};
pub use walk::every_walk_goes_on;
