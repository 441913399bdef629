//! What is expected at the place of a fault: the forms of clauses, bindings and shapes, and the options that are taken.

use crate::excerpt::put_part;
use crate::message::MOST_NAMED;
use book_faults::{Span, cut, element_of, elements, head_of, is_word, token, whole};
use explain_findings::is_among;
use explain_report::Report;
use gl_logic::NoMemory;
use std::alloc::Global;

/// Puts a note.
fn put_note(report: &mut Report, note: &str) {
    report.say("   = note: ");
    report.say(note);
    report.say("\n");
}

/// What a form may be malformed in, by its head.
fn form_of_head(head: &[u8]) -> &'static str {
    if is_word(head, b"cond") {
        "a clause of `cond` is `(test)` or `(test value)`"
    } else if is_word(head, b"case") {
        "a clause of `case` is `(key value)` or `((key ..) value)`, and the last one alone may be `(t value)`"
    } else if is_among(head, "let let*") {
        "a `let` is `(let ((name form) ..) body)` with one body"
    } else if is_word(head, b"defun") {
        "formals are a list of different names, none of them a constant or `t`, without `&optional` or `&key`"
    } else if is_word(head, b"the") {
        "it is `(the type form)`"
    } else if is_word(head, b"mbe") {
        "it is `(mbe :logic form :exec form)`"
    } else if head.is_empty() {
        "a call begins with the name of a function: `(f x)`; there are no `lambda`s"
    } else {
        ""
    }
}

/// Puts what form is expected of one that is malformed, or of a part of it.
pub(crate) fn put_expected(
    alloc: Global,
    report: &mut Report,
    event: &[u8],
    around: Span,
) -> Result<(), NoMemory> {
    if has_bytes(event, around, b"g-int ") || has_bytes(event, around, b"g-boolean ") {
        put_note(
            report,
            "bindings are no value: write them out behind each `:g-bindings`, in the place of this definition",
        );
        return Ok(());
    }
    let first = cut(
        event,
        Span::new(around.start, around.start.saturating_add(1)),
    );
    if first == b"`".as_slice() || first == b",".as_slice() {
        put_note(
            report,
            "a backquote is for `:g-bindings` alone: write `(list ..)` and `(cons a b)`",
        );
        return Ok(());
    }
    let parts = elements(alloc, event, around)?;
    let note = form_of_head(head_of(event, &parts));
    if !note.is_empty() {
        put_note(report, note);
    }
    Ok(())
}

/// Whether some bytes stand in a part of a text.
fn has_bytes(text: &[u8], part: Span, wanted: &[u8]) -> bool {
    let mut rest = cut(text, part);
    for _ in part.start..part.end {
        match rest {
            [_, behind @ ..] => {
                let front = cut(rest, Span::new(0, wanted.len()));
                if is_word(front, wanted) {
                    return true;
                }
                rest = behind;
            }
            [] => return false,
        }
    }
    false
}

/// Puts what form a binding has, where one is at fault.
pub(crate) fn put_expected_shape(
    alloc: Global,
    report: &mut Report,
    event: &[u8],
    part: Span,
    around: Span,
) -> Result<(), NoMemory> {
    if is_word(
        head_of(event, &elements(alloc, event, around)?),
        b"auto-bindings",
    ) {
        put_note(
            report,
            "an item is `(:nat x n)`, `(:int x n)` with a number n written out, `(:boolean x)`, or `(:seq item ..)` or `(:mix item ..)` of such; the items of one `:mix` have equally many bits, where `(:nat x n)` has n + 1; for a list or a choice all bindings are written out behind a backquote, as `((i ,(g-int 0 1 3)) (l (,(g-int 3 1 8) ,(g-int 11 1 8))))`",
        );
        return Ok(());
    }
    if has_bytes(event, part, b"auto-bindings") {
        put_note(
            report,
            "the bindings of a case are written out, as `((req ,(g-int 0 1 9)) (b (:g-boolean . 9)))`: `(:nat x n)` of `auto-bindings` is a `g-int` of n + 1 bits, and no index stands twice",
        );
        return Ok(());
    }
    if has_bytes(event, part, b"g-ite") || has_bytes(event, part, b"enum") {
        put_note(
            report,
            "a choice is written out, as `(k (:g-ite (:g-boolean . 17) :a . (:g-ite (:g-boolean . 18) :b . :c)))`, where indices 17 and 18 choose, and no index stands twice",
        );
        return Ok(());
    }
    if has_bytes(event, part, b",(gl-int") || has_bytes(event, part, b",(g-bool ") {
        put_note(
            report,
            "the words are `g-int`, as in `,(g-int start by n)`, and `g-boolean`, as in `,(g-boolean i)`",
        );
    } else if has_bytes(event, part, b",(list") || has_bytes(event, part, b",(cons") {
        put_note(
            report,
            "behind a comma stands one `(g-int start by n)` or `(g-boolean i)`; a list of shapes is `(x (,(g-int 0 1 8) ,(g-int 8 1 8)))`",
        );
    } else if has_bytes(event, part, b",(") && has_bytes(event, around, b"'(") {
        put_note(
            report,
            "a comma needs a backquote in front of the bindings in place of the quote",
        );
    } else if has_bytes(event, part, b",(") {
        put_note(
            report,
            "behind a comma stands `(g-int start by n)` or `(g-boolean i)` alone, with numbers written out; no index stands twice",
        );
    }
    put_note(
        report,
        "a binding is `(x (:g-integer 0 1 2))` or `(x (:g-boolean . 3))`; a list has its shapes in one more pair of parentheses: `(x ((:g-boolean . 0) (:g-boolean . 1)))`",
    );
    Ok(())
}

/// Options of `xargs` that are taken.
const OPTIONS: &str = ":measure :guard :verify-guards :guard-hints :hints :normalize";

/// Whether a word may be a formal.
fn may_be_name(word: &[u8]) -> bool {
    match word {
        [] => false,
        [first, ..] => !(b'0' <= *first && *first <= b'9') && *first != b'*' && *first != b':',
    }
}

/// Whether a form may be a measure: of one name, or of the difference of two.
fn may_be_measure(alloc: Global, event: &[u8], measure: Span) -> Result<bool, NoMemory> {
    let parts = elements(alloc, event, measure)?;
    let head = head_of(event, &parts);
    if is_word(head, b"make-ord") {
        return Ok(true);
    }
    if parts.len() != 2 || !is_among(head, "acl2-count len nfix") {
        return Ok(false);
    }
    let inner = elements(alloc, event, parts[1])?;
    if inner.is_empty() {
        return Ok(may_be_name(token(event, parts[1])));
    }
    if inner.len() != 3 {
        return Ok(false);
    }
    let is_difference = is_word(token(event, inner[0]), b"-");
    Ok(is_difference && may_be_name(token(event, inner[1])) && may_be_name(token(event, inner[2])))
}

/// Puts what is to be written in place of a measure that is none.
fn put_measure_form(report: &mut Report, event: &[u8], measure: Span) {
    report.say("   = note: ");
    put_part(report, event, measure, MOST_NAMED);
    report.say(
        " is no measure: it is of one formal, `(acl2-count v)`, `(len v)`, `(nfix v)`, or `(nfix (- b a))` of two; where b is a constant, make it a formal, end by `(zp (- b a))`, and step by `(+ 1 a)`\n",
    );
}

/// Puts that an option is not taken.
fn put_no_option(report: &mut Report, word: &[u8]) {
    report.say("   = note: `");
    report.text(word);
    report.say("` is no option here: leave it out with what stands behind it\n");
}

/// Puts which options of one `xargs` are not taken, and which measure.
fn put_odd_xargs(
    alloc: Global,
    report: &mut Report,
    event: &[u8],
    list: Span,
) -> Result<(), NoMemory> {
    let parts = elements(alloc, event, list)?;
    for (i, part) in parts.iter().enumerate() {
        let word = token(event, *part);
        if i % 2 == 1 && !is_among(word, OPTIONS) {
            put_no_option(report, word);
        } else if i % 2 == 1 && is_word(word, b":measure") {
            let measure = element_of(alloc, event, list, i.saturating_add(1))?;
            if !may_be_measure(alloc, event, measure)? {
                put_measure_form(report, event, measure);
            }
        }
    }
    Ok(())
}

/// Puts which options are not taken of a part of a definition, where that is a `declare`.
fn put_odd_declaration(
    alloc: Global,
    report: &mut Report,
    event: &[u8],
    part: Span,
) -> Result<(), NoMemory> {
    for list in &elements(alloc, event, part)? {
        if is_word(head_of(event, &elements(alloc, event, *list)?), b"xargs") {
            put_odd_xargs(alloc, report, event, *list)?;
        }
    }
    Ok(())
}

/// Puts which options are not taken of a `declare`, or of those of a clique.
pub(crate) fn put_odd_options(
    alloc: Global,
    report: &mut Report,
    event: &[u8],
    part: Span,
) -> Result<(), NoMemory> {
    if cut(event, part).starts_with(b":") {
        put_no_option(report, token(event, part));
    }
    for list in &elements(alloc, event, part)? {
        let inner = elements(alloc, event, *list)?;
        if is_word(head_of(event, &inner), b"xargs") {
            put_odd_xargs(alloc, report, event, *list)?;
        } else if is_word(head_of(event, &inner), b"defun") {
            for member in &inner {
                put_odd_declaration(alloc, report, event, *member)?;
            }
        }
    }
    Ok(())
}

/// Puts what is to be left out of a `memoize` with options.
pub(crate) fn put_memoize_options(
    alloc: Global,
    report: &mut Report,
    event: &[u8],
) -> Result<(), NoMemory> {
    let parts = elements(alloc, event, whole(event))?;
    if is_word(head_of(event, &parts), b"memoize") && 2 < parts.len() {
        put_note(
            report,
            "`:condition` and the other options of ACL2's `memoize` are not taken: leaving them out changes no value",
        );
    }
    Ok(())
}
