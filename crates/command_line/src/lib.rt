//! What the programs `gl` and `explain` meet of their process: its words, the numbers that stand with options, files, and
//! standard output.
//!
//! Tests: in `gl`.
#![tactic(auto)]

mod adapters;
mod options;
mod words;

pub use adapters::{FileShelf, WriterSink, read_some};
pub use options::{limits_of, number_in, number_of, text_of};
pub use words::{WordsEnd, words_of};
