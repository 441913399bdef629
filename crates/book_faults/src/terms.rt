//! Where the terms of a form stand: of an event, and of a term.

ghost use Rattle.std.specs.Prelude.{◌≡◌, drop, IfOk};
ghost use Rattle.book_faults.specs.Parts.{head_word};

use crate::form_elements::elements;
use crate::span::{Span, is_word, token, without_package};
use explain_findings::is_among;
use gl_logic::NoMemory;
use std::alloc::Global;

/// Spans in the order of the text.
type Spans = Vec<Span>;

/// The spans from a number on.
pub fn all_from(alloc: Global, spans: &[Span], first: usize) -> Result<Spans, NoMemory>
    ensures { IfOk result (λ found. found.items ≡ drop first spans.now) }
{
    let mut found = Vec::new(alloc);
    for (i, span) in spans.iter().enumerate() {
        if first <= i {
            found.push(*span)?;
        }
    }
    Ok(found)
}

/// The span of one number, where there is one.
fn only(alloc: Global, spans: &[Span], number: usize) -> Result<Spans, NoMemory> {
    let mut found = Vec::new(alloc);
    if let Some(span) = spans.get(number) {
        found.push(*span)?;
    }
    Ok(found)
}

/// The last of some parts, where there are more than `first`.
fn only_last(alloc: Global, spans: &[Span], first: usize) -> Result<Spans, NoMemory> {
    if spans.len() <= first {
        return Ok(Vec::new(alloc));
    }
    only(alloc, spans, spans.len() - 1)
}

/// The values behind the keywords among these.
fn values_of(
    alloc: Global,
    text: &[u8],
    parts: &[Span],
    keywords: &str,
) -> Result<Spans, NoMemory> {
    let mut found = Vec::new(alloc);
    let mut is_next = false;
    for part in parts {
        if is_next {
            found.push(*part)?;
            is_next = false;
        } else {
            is_next = is_among(token(text, *part), keywords);
        }
    }
    Ok(found)
}

/// What a part of a form holds.
#[derive(Clone, Copy, Debug, PartialEq, Eq)]
enum Held {
    /// All elements.
    All,
    /// The element behind the first.
    Second,
    /// The last one of three or more.
    Last,
}

/// Elements of a list.
fn inside(alloc: Global, text: &[u8], list: Span, held: Held) -> Result<Spans, NoMemory> {
    let parts = elements(alloc, text, list)?;
    match held {
        Held::All => Ok(parts),
        Held::Second => only(alloc, &parts, 1),
        Held::Last => only_last(alloc, &parts, 3),
    }
}

/// Elements of each of these lists from a number on.
fn inside_each(
    alloc: Global,
    text: &[u8],
    lists: &[Span],
    first: usize,
    held: Held,
) -> Result<Spans, NoMemory> {
    let mut found = Vec::new(alloc);
    for (i, list) in lists.iter().enumerate() {
        if first <= i {
            found.extend_from_slice(&inside(alloc, text, *list, held)?)?;
        }
    }
    Ok(found)
}

/// The word with which a list of these elements begins, without a package.
pub fn head_of<'a>(text: &'a [u8], parts: &[Span]) -> &'a [u8]
    ensures { result.now ≡ head_word text.now parts.now }
{
    match parts.first() {
        Some(part) => without_package(token(text, *part)),
        None => &[],
    }
}

/// The terms of an event, in the order of the text.
pub fn terms_of_event(alloc: Global, text: &[u8], event: Span) -> Result<Spans, NoMemory> {
    let parts = elements(alloc, text, event)?;
    let head = head_of(text, &parts);
    if is_among(head, "value-triple assert-event") {
        only(alloc, &parts, 1)
    } else if is_word(head, b"defconst") {
        only(alloc, &parts, 2)
    } else if is_word(head, b"defun") {
        only_last(alloc, &parts, 3)
    } else if is_word(head, b"mutual-recursion") {
        inside_each(alloc, text, &parts, 1, Held::Last)
    } else if is_among(head, "def-gl-thm def-gl-param-thm") {
        values_of(alloc, text, &parts, ":hyp :concl :param-hyp")
    } else {
        Ok(Vec::new(alloc))
    }
}

/// The terms of a `let`: those of its bindings, and its body.
fn terms_of_let(alloc: Global, text: &[u8], parts: &[Span]) -> Result<Spans, NoMemory> {
    let Some(bindings) = parts.get(1) else {
        return Ok(Vec::new(alloc));
    };
    let lists = elements(alloc, text, *bindings)?;
    let mut found = inside_each(alloc, text, &lists, 0, Held::Second)?;
    drop(lists);
    found.extend_from_slice(&only_last(alloc, parts, 2)?)?;
    Ok(found)
}

/// The terms of a `case`: what it looks at, and what stands behind each key.
fn terms_of_case(alloc: Global, text: &[u8], parts: &[Span]) -> Result<Spans, NoMemory> {
    let mut found = only(alloc, parts, 1)?;
    found.extend_from_slice(&inside_each(alloc, text, parts, 2, Held::Second)?)?;
    Ok(found)
}

/// The terms that a term is made of, in the order of the text.
pub fn terms_of_term(alloc: Global, text: &[u8], term: Span) -> Result<Spans, NoMemory> {
    let parts = elements(alloc, text, term)?;
    let head = head_of(text, &parts);
    if head.is_empty() || is_word(head, b"quote") {
        Ok(Vec::new(alloc))
    } else if is_word(head, b"cond") {
        inside_each(alloc, text, &parts, 1, Held::All)
    } else if is_word(head, b"case") {
        terms_of_case(alloc, text, &parts)
    } else if is_among(head, "let let*") {
        terms_of_let(alloc, text, &parts)
    } else if is_among(head, "the mbe") {
        only(alloc, &parts, 2)
    } else {
        all_from(alloc, &parts, 1)
    }
}
