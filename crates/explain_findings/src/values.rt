//! Values of terms.

use crate::forms::printed;
use explain_report::Report;
use gl_book::{Answer, Cause, cause_word};
use gl_logic::{NoMemory, Texts};
use std::alloc::Global;

/// The value of a term as it is printed, or why it has none; unknown where the term was not taken.
#[derive(Drop)]
pub(crate) enum Value {
    Is(Vec<u8>),
    Lacks(Cause),
    Unknown,
}

/// What a cause means.
fn meaning_of(cause: Cause) -> &'static str {
    match cause {
        Cause::Width => "some integer on the way is outside 128 bits",
        Cause::Steps => "its evaluation visits more subterms than `--steps` says",
        Cause::Cells => "its evaluation makes more objects than `--cells` says",
        Cause::Size => "it is too large to print",
        Cause::Memory => "the system refused it",
    }
}

/// Puts why a value lacks: the word of the cause, and what it means.
pub(crate) fn put_lack(report: &mut Report, cause: Cause) {
    report.say(cause_word(cause));
    report.say(": ");
    report.say(meaning_of(cause));
}

/// The value that is answered.
pub(crate) fn value_of(alloc: Global, texts: &Texts, answer: Answer) -> Result<Value, NoMemory> {
    match answer {
        Answer::Value(value) => Ok(Value::Is(printed(alloc, &value, texts)?)),
        Answer::Undecided(cause) => Ok(Value::Lacks(cause)),
        _ => Ok(Value::Unknown),
    }
}
