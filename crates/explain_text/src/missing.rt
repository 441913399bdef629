//! What an event lacks that has not its parts.

use crate::expected::put_memoize_options;
use crate::known::{book_in, entry_of, instead_of_book, string_in};
use book_faults::{Span, byte_at, elements, head_of, is_word, token, whole};
use explain_report::Report;
use gl_logic::NoMemory;
use std::alloc::Global;

/// The forms of events.
const FORMS: &str = "in-package: (in-package \"ACL2\")
include-book: (include-book \"name\")
defun: (defun name (formal ..) body), with `declare` forms and one string in front of the body
mutual-recursion: (mutual-recursion (defun ..) ..), with 1 to 16 of them
defconst: (defconst *name* term)
value-triple: (value-triple term)
assert-event: (assert-event term)
memoize: (memoize 'name)
unmemoize: (unmemoize 'name)
gl-bdd-mode gl-param-mode gl-satlink-mode: the word alone in parentheses
def-gl-thm: (def-gl-thm name :hyp term :concl term :g-bindings bindings)
def-gl-param-thm: (def-gl-param-thm name :hyp term :concl term :param-hyp term :param-bindings cases :cov-bindings bindings)";

/// The options that an event has to have.
const REQUIRED: &str = "def-gl-thm: :concl :g-bindings
def-gl-param-thm: :concl :param-hyp :param-bindings :cov-bindings";

/// Whether a keyword stands among these.
fn has_word(text: &[u8], parts: &[Span], word: &[u8]) -> bool {
    for part in parts {
        if is_word(token(text, *part), word) {
            return true;
        }
    }
    false
}

/// Puts a keyword and what is wrong with it.
fn put_keyword(report: &mut Report, keyword: &[u8], words: &str) {
    report.say("   = note: `");
    report.text(keyword);
    report.say("` ");
    report.say(words);
    report.say("\n");
}

/// Puts the required options that are left out.
fn put_left_out(report: &mut Report, text: &[u8], parts: &[Span], required: &str) {
    for keyword in required.split_whitespace() {
        if !has_word(text, parts, keyword.as_bytes()) {
            put_keyword(report, keyword.as_bytes(), "is left out");
        }
    }
}

/// Puts the first place for a keyword where none stands, or the last keyword where it has no value.
fn put_odd_keyword(report: &mut Report, text: &[u8], parts: &[Span]) {
    let mut is_value = false;
    let mut last: &[u8] = b"";
    for (i, part) in parts.iter().enumerate() {
        if 2 <= i {
            if !is_value && byte_at(text, part.start) != b':' {
                return put_keyword(
                    report,
                    token(text, *part),
                    "stands where a keyword is to stand",
                );
            }
            last = token(text, *part);
            is_value = !is_value;
        }
    }
    if is_value {
        put_keyword(report, last, "has no value behind it");
    }
}

/// Puts what stands here for a book of ACL2 that is included.
fn put_foreign_book(report: &mut Report, event: &[u8]) {
    let name = string_in(event);
    let instead = match instead_of_book(name) {
        Some(instead) => instead,
        None =>
            "leave out what stands behind the name where it is a book of yours, which is named by its path from the current folder; else leave the form out",
    };
    report.say("   = help: `");
    report.text(name);
    report.say("` is a book of ACL2's; here: ");
    match book_in(instead) {
        Some(book) => {
            report.say(book);
            report.say(" in its place");
        }
        None => report.say(instead),
    }
    report.say("; `port/gl_port` writes a whole book of ACL2's in the words of this language\n");
}

/// Puts what an event lacks, and its form.
pub(crate) fn put_missing(
    alloc: Global,
    report: &mut Report,
    event: &[u8],
) -> Result<(), NoMemory> {
    let all = whole(event);
    let parts = elements(alloc, event, all)?;
    let head = head_of(event, &parts);
    put_memoize_options(alloc, report, event)?;
    if is_word(head, b"include-book") {
        put_foreign_book(report, event);
        return Ok(());
    }
    if let Some(required) = entry_of(REQUIRED, head) {
        put_odd_keyword(report, event, &parts);
        put_left_out(report, event, &parts, required);
    }
    if let Some(form) = entry_of(FORMS, head) {
        report.say("   = note: its form is ");
        report.say(form);
        report.say("\n");
    }
    Ok(())
}
