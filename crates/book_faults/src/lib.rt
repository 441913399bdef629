//! Every fault of a book that can be found without its refused events.
//!
//! A book is refused at its first fault. Here the rest of it is looked at as far as it can be judged: each fault of its texts that
//! the reader can pass, and each fault of its forms.
//!
//! - `past`: a text read past its faults, with the bytes at fault overwritten; `edited`, the text of a form with parts replaced;
//! - where a fault stands: `span`, `form_elements`, `terms`, `blame`, `items`, `fault_parts`;
//! - `judging`, all faults of one form: at each it is mended, so that the next one is found, `mending`, by `binders` of ACL2's `b*` and `mv-let`, and `defines` of its `define`;
//! - what a refused event leaves behind: `stubs`, and `hanging`, what uses one of them; `includes`, the books that are included;
//! - `survey`, the walk over all texts, whose `frames` are those that are open, and which tells what it has `found`, one form after
//!   the other; `told`, how many of them are told.
//!
//! Tests: tests/explain, through the built program.
#![tactic(auto)]

mod binders;
mod blame;
mod defines;
mod edited;
mod fault_parts;
mod form_elements;
mod found;
mod frames;
mod hanging;
mod includes;
mod items;
mod judging;
mod mending;
mod past;
mod span;
mod stubs;
mod survey;
mod terms;
mod told;

pub use blame::Judge;
pub use fault_parts::{AtFault, at_fault, bindings_of, element_of, theorem_bindings};
pub use form_elements::{behind_forms, elements, form_alone, offset_of, without_blanks};
pub use found::{Cause, Found, Step, Unjudged};
pub use items::unbound;
pub use span::{
    Span, byte_at, column_of, cut, is_word, line_end, line_of, line_start, token, whole,
    without_package, word_around,
};
pub use survey::{Start, Survey};
pub use terms::{head_of, terms_of_event};
pub use told::{MOST_TOLD, told_of};
