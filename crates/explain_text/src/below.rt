//! Definitions that stand below a use.

use book_faults::{Span, cut, is_word, line_of, token};
use explain_report::Report;

/// With what the definitions of functions and of constants begin.
const DEFUN: &[u8] = b"(defun ";

const DEFCONST: &[u8] = b"(defconst ";

/// Where a definition of a word of a text that begins so stands behind that.
fn definition_below(text: &[u8], word: Span, begins: &[u8]) -> Option<usize> {
    let name = cut(text, word);
    let end = text.len();
    for start in word.end..end {
        let front = Span::new(start, start.saturating_add(begins.len()));
        let behind = Span::new(front.end, end);
        if is_word(cut(text, front), begins) && is_word(token(text, behind), name) {
            return Some(start);
        }
    }
    None
}

/// Puts where the definition of a function stands, where that is below its use.
pub(crate) fn put_below(report: &mut Report, text: &[u8], word: Span) {
    if let Some(place) = definition_below(text, word, DEFUN) {
        report.say("   = note: it is defined below, in line ");
        report.number(line_of(text, place));
        report.say(
            ": put that in front, or both into one `mutual-recursion` where they call each other\n",
        );
    }
}

/// Puts where the definition of a constant stands, where that is below its use. Whether it is.
pub(crate) fn put_constant_below(report: &mut Report, text: &[u8], word: Span) -> bool {
    let Some(place) = definition_below(text, word, DEFCONST) else {
        return false;
    };
    report.say("   = note: it is defined below, in line ");
    report.number(line_of(text, place));
    report.say(": put that in front\n");
    true
}
