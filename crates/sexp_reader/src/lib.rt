//! A book's bytes, and the forms that they spell.
//!
//! One loop takes the pieces of a text in turn, with a stack of its own for what is open: time and memory are linear
//! in the text, and nothing goes deeper with it. Figures of one machine that was shared with other work: processor
//! time and memory of the whole program on books of four megabytes that hold no event, the least of five runs.
//!
//! | book | ms | MB |
//! |---|---|---|
//! | one comment | 10 | 14 |
//! | one string | 39 | 14 |
//! | white space | 49 | 14 |
//! | 2,097,152 forms of one digit | 191 | 133 |
//! | one list of 1,000,000 elements, in two megabytes | 156 | 95 |
//! | one list of 2,097,151 elements | 324 | 197 |
//! | different symbols of 255 bytes | 39 | 14 |
//! | different symbols of 7 bytes | 203 | 73 |
//! | `'a`, 1,398,101 times | 630 | 453 |
//! | lists in one another, 998 deep | 865 | 549 |
//!
//! Tests: the crate `text_tests`.
#![tactic(auto)]

mod atom;
mod book;
mod byte;
mod comment;
mod ends;
mod flaw;
mod lexeme;
mod list;
mod number;
mod piece;
mod place;
mod sharp_sign;
mod stack;
mod string;
mod symbol;
mod text;
mod token;

pub use book::{MOST_BYTES, ReadEnd, read_book, too_long};
pub use ends::{End, Forms, ReadCode};
pub use list::{Form, FormList};
pub use text::{forms, has_a_table, has_one_reading};
