//! The item of a list that is at fault: of bindings, of cases, of the clauses of a form.

use crate::blame::{Judge, taken_out};
use crate::form_elements::{elements, form_alone};
use crate::span::{Span, byte_at, cut, is_word, token};
use crate::terms::{all_from, head_of};
use explain_findings::{bindings_of_text, is_bound};
use explain_report::Report;
use gl_logic::{NoMemory, Texts};
use std::alloc::Global;

/// How many items of a list are tried.
const MOST_ITEMS: usize = 64;

/// The elements of the list that stands behind a quote.
fn quoted_elements(alloc: Global, text: &[u8], span: Span) -> Result<Vec<Span>, NoMemory> {
    let first = byte_at(text, span.start);
    if first == b'\'' || first == b'`' {
        let list = Span::new(span.start.saturating_add(1), span.end);
        return elements(alloc, text, list);
    }
    let parts = elements(alloc, text, span)?;
    if !is_word(head_of(text, &parts), b"auto-bindings") {
        return Ok(Vec::new(alloc));
    }
    all_from(alloc, &parts, 1)
}

/// A text without those of a list's items that stand behind one of them.
fn up_to(alloc: Global, text: &[u8], items: &[Span], item: Span) -> Result<Vec<u8>, NoMemory> {
    match items.last() {
        Some(last) => taken_out(alloc, text, Span::new(item.end, last.end)),
        None => Ok(text.to_vec(alloc)?),
    }
}

/// Whether an event keeps its fault without those of a list's items that stand behind one of them.
fn refuses_up_to(
    alloc: Global,
    judge: &Judge,
    texts: &mut Texts,
    event: &[u8],
    items: &[Span],
    item: Span,
) -> Result<bool, NoMemory> {
    let tried = up_to(alloc, event, items, item)?;
    judge.refuses(alloc, texts, &tried)
}

/// The first of some items such that an event keeps its fault with those behind it taken out; the whole where there is none.
pub fn first_odd(
    alloc: Global,
    judge: &Judge,
    texts: &mut Texts,
    event: &[u8],
    items: &[Span],
    whole: Span,
) -> Result<Span, NoMemory> {
    for (i, item) in items.iter().enumerate() {
        if i < MOST_ITEMS {
            if refuses_up_to(alloc, judge, texts, event, items, *item)? {
                return form_alone(alloc, event, *item);
            }
        }
    }
    Ok(whole)
}

/// The case that is at fault among those behind a keyword.
pub fn odd_case(
    alloc: Global,
    judge: &Judge,
    texts: &mut Texts,
    event: &[u8],
    cases: Span,
) -> Result<Span, NoMemory> {
    let items = quoted_elements(alloc, event, cases)?;
    first_odd(alloc, judge, texts, event, &items, cases)
}

/// The parts of a form that may be malformed by themselves: bindings, clauses, formals.
fn parts_of(alloc: Global, text: &[u8], form: Span) -> Result<Vec<Span>, NoMemory> {
    let parts = elements(alloc, text, form)?;
    let head = head_of(text, &parts);
    if is_word(head, b"cond") {
        return all_from(alloc, &parts, 1);
    }
    if is_word(head, b"case") {
        return all_from(alloc, &parts, 2);
    }
    let number = if is_word(head, b"defun") { 2 } else { 1 };
    match parts.get(number) {
        Some(list) => elements(alloc, text, *list),
        None => Ok(Vec::new(alloc)),
    }
}

/// Whether a text keeps its fault without all of some items.
fn refuses_without_all(
    alloc: Global,
    judge: &Judge,
    texts: &mut Texts,
    text: &[u8],
    items: &[Span],
) -> Result<bool, NoMemory> {
    let (Some(first), Some(last)) = (items.first(), items.last()) else {
        return Ok(true);
    };
    let all = Span::new(first.start, last.end);
    let tried = taken_out(alloc, text, all)?;
    judge.refuses(alloc, texts, &tried)
}

/// The part of a malformed form that is at fault; the form where there is none.
pub fn odd_part(
    alloc: Global,
    judge: &Judge,
    texts: &mut Texts,
    text: &[u8],
    form: Span,
) -> Result<Span, NoMemory> {
    let items = parts_of(alloc, text, form)?;
    if refuses_without_all(alloc, judge, texts, text, &items)? {
        return Ok(form);
    }
    first_odd(alloc, judge, texts, text, &items, form)
}

/// Whether bindings without the items that stand behind one of them are bindings.
fn binds_up_to(
    alloc: Global,
    texts: &mut Texts,
    event: &[u8],
    bindings: Span,
    items: &[Span],
    item: Span,
) -> Result<bool, NoMemory> {
    let tried = up_to(alloc, event, items, item)?;
    let taken = tried
        .len()
        .saturating_add(bindings.end)
        .saturating_sub(event.len());
    let part = cut(&tried, Span::new(bindings.start, taken));
    Ok(bindings_of_text(alloc, texts, part)?.is_some())
}

/// The first item of bindings such that those up to it are none; the bindings where there is none.
pub fn odd_binding(
    alloc: Global,
    texts: &mut Texts,
    event: &[u8],
    bindings: Span,
) -> Result<Span, NoMemory> {
    let items = quoted_elements(alloc, event, bindings)?;
    for (i, item) in items.iter().enumerate() {
        if i < MOST_ITEMS && !binds_up_to(alloc, texts, event, bindings, &items, *item)? {
            return form_alone(alloc, event, *item);
        }
    }
    Ok(bindings)
}

/// Whether a word may be a variable.
pub(crate) fn may_be_variable(word: &[u8]) -> bool {
    let is_odd = match word {
        [] => true,
        [first, ..] => {
            [b':', b'*', b'#', b'&', b'-', b'+', b'.'].contains(first)
                || *first >= b'0' && *first <= b'9'
        }
    };
    !is_odd && !is_word(word, b"t") && !is_word(word, b"nil")
}

/// Puts the words of a part of a text that may be variables, each once.
fn add_words(text: &[u8], span: Span, words: &mut Vec<Span>) -> Result<(), NoMemory> {
    let mut end = span.start;
    for offset in span.start..span.end {
        if end <= offset && words.len() < MOST_ITEMS {
            let rest = Span::new(offset, span.end);
            let word = token(text, rest);
            end = offset.saturating_add(word.len()).saturating_add(1);
            if may_be_variable(word) && !contains(text, words, word) {
                words.push(Span::new(offset, offset.saturating_add(word.len())))?;
            }
        }
    }
    Ok(())
}

/// Whether a word is among some words of a text.
fn contains(text: &[u8], words: &[Span], word: &[u8]) -> bool {
    for other in words {
        if is_word(cut(text, *other), word) {
            return true;
        }
    }
    false
}

/// An event with all of some words bound but one, in the place of its bindings.
fn all_bound_but(
    alloc: Global,
    event: &[u8],
    bindings: Span,
    words: &[Span],
    number: usize,
) -> Result<Vec<u8>, NoMemory> {
    let mut text = Report::new(alloc);
    text.text(cut(event, Span::new(0, bindings.start)));
    text.say("'(");
    for (i, word) in words.iter().enumerate() {
        if i != number {
            text.say("(");
            text.text(cut(event, *word));
            text.say(" (:g-boolean . ");
            text.number(i as u64);
            text.say("))");
        }
    }
    text.say(") ");
    text.text(cut(event, Span::new(bindings.end, event.len())));
    text.into_bytes()
}

/// The words of some terms that may be variables, each once.
pub fn words_in(alloc: Global, text: &[u8], terms: &[Span]) -> Result<Vec<Span>, NoMemory> {
    let mut words = Vec::new(alloc);
    for term in terms {
        add_words(text, *term, &mut words)?;
    }
    Ok(words)
}

/// Whether an event keeps its fault with all of some words bound but one, which is a variable of it then.
fn is_unbound(
    alloc: Global,
    judge: &Judge,
    texts: &mut Texts,
    event: &[u8],
    bindings: Span,
    words: &[Span],
    number: usize,
) -> Result<bool, NoMemory> {
    let tried = all_bound_but(alloc, event, bindings, words, number)?;
    judge.refuses(alloc, texts, &tried)
}

/// The words of some terms that are variables of them and not bound.
pub fn unbound(
    alloc: Global,
    judge: &Judge,
    texts: &mut Texts,
    event: &[u8],
    bindings: Span,
    terms: &[Span],
) -> Result<Vec<Span>, NoMemory> {
    let mut found = Vec::new(alloc);
    let words = words_in(alloc, event, terms)?;
    for (i, word) in words.iter().enumerate() {
        if !is_bound(alloc, texts, cut(event, bindings), cut(event, *word))? {
            if is_unbound(alloc, judge, texts, event, bindings, &words, i)? {
                found.push(*word)?;
            }
        }
    }
    Ok(found)
}
