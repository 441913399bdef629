//! Forms with their terms, theorems by cases, and the world that every book begins with.
//!
//! This crate has no code but its tests, of `gl_translate`, `gl_cases` and `event_world`. What they do in a book, `tests/tables`
//! shows through the built program.
#![tactic(auto)]

#[cfg(test)]
mod tests;
