//! What is told of a run: the lines of its transcript with what is known of each, as lines of JSON, as a page of HTML, and
//! summed up.
//!
//! - `shown`: a line between what stands in front of it and behind, as it is, in a string of JSON or in HTML, from which it
//!   can be read back;
//! - `record`: a line, and what is known of it; `fault`: what is at fault in a text; `report`: what is said, as bytes that grow;
//! - `json`, `html` with `bases`, and `summary`: the formats.
//!
//! Tests: tests/explain, through the built program.
#![tactic(auto)]

mod bases;
mod fault;
mod html;
mod json;
mod record;
mod report;
mod shown;
mod summary;

pub use bases::{integer_bits, put_difference, put_in_bases};
pub use fault::{At, Fault};
pub use html::put_page;
pub use json::{put_object, put_status};
pub use record::{Cause, Found, Input, Record, Verdict, front_of};
pub use report::Report;
pub use shown::{PutEnd, Style, append_shown, put_line};
pub use summary::put_summary;
