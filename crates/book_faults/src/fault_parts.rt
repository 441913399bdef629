//! The part of an event that is at fault, by its code.

ghost use Rattle.std.specs.Prelude.{◌≡◌, ◌≢◌, get_or, IfOk};

use crate::blame::{Blamed, Judge, blame, odd_option};
use crate::form_elements::{elements, form_alone};
use crate::items::{odd_binding, odd_case, odd_part};
use crate::span::{Span, byte_at, cut, is_word, token, whole};
use crate::terms::head_of;
use event_world::EventFault;
use explain_findings::{bindings_of_text, is_among};
use gl_logic::{NoMemory, Texts};
use gl_translate::TermFault;
use std::alloc::Global;

/// The part of an event that is at fault, and the form around it that is refused for it.
#[derive(Clone, Copy, Debug, PartialEq, Eq)]
pub struct AtFault {
    /// The part.
    pub part: Span,
    /// The form around it: a term, or the event.
    pub around: Span,
}

fn alone(part: Span) -> AtFault {
    AtFault { part, around: part }
}

/// The element of a list of this number, alone; the list where there is none.
pub fn element_of(alloc: Global, text: &[u8], list: Span, number: usize) -> Result<Span, NoMemory>
    ensures { get_or text.now list.start 0 ≢ 40 → IfOk result (λ part. part ≡ list) }
{
    match elements(alloc, text, list)?.get(number) {
        Some(part) => form_alone(alloc, text, *part),
        None => Ok(list),
    }
}

/// The value behind a keyword of an event; the event where there is none.
pub fn bindings_of(alloc: Global, event: &[u8], keyword: &[u8]) -> Result<Span, NoMemory> {
    let parts = elements(alloc, event, whole(event))?;
    let mut is_next = false;
    for part in &parts {
        if is_next {
            return form_alone(alloc, event, *part);
        }
        is_next = is_word(token(event, *part), keyword);
    }
    Ok(whole(event))
}

/// The bindings of a theorem; of one by cases the cases, where its cover has bindings.
pub fn theorem_bindings(alloc: Global, texts: &mut Texts, event: &[u8]) -> Result<Span, NoMemory> {
    let parts = elements(alloc, event, whole(event))?;
    let head = head_of(event, &parts);
    drop(parts);
    if !is_word(head, b"def-gl-param-thm") {
        return bindings_of(alloc, event, b":g-bindings");
    }
    let cover = bindings_of(alloc, event, b":cov-bindings")?;
    if bindings_of_text(alloc, texts, cut(event, cover))?.is_none() {
        return Ok(cover);
    }
    bindings_of(alloc, event, b":param-bindings")
}

/// The name behind the quote of `(memoize 'f)`.
fn quoted_name(alloc: Global, event: &[u8]) -> Result<Span, NoMemory> {
    let part = element_of(alloc, event, whole(event), 1)?;
    if byte_at(event, part.start) == b'\'' {
        let name = Span::new(part.start.saturating_add(1), part.end);
        return form_alone(alloc, event, name);
    }
    Ok(part)
}

/// The head of the term at fault.
fn head_at_fault(
    alloc: Global,
    judge: &Judge,
    texts: &mut Texts,
    event: &[u8],
) -> Result<AtFault, NoMemory> {
    let parts = elements(alloc, event, whole(event))?;
    let is_memoized = is_among(head_of(event, &parts), "memoize unmemoize");
    drop(parts);
    if is_memoized {
        return Ok(AtFault {
            part: quoted_name(alloc, event)?,
            around: whole(event),
        });
    }
    let Blamed { span, text } = blame(alloc, judge, texts, event)?;
    let part = element_of(alloc, &text, span, 0)?;
    Ok(AtFault { part, around: span })
}

/// The term at fault.
fn term_at_fault(
    alloc: Global,
    judge: &Judge,
    texts: &mut Texts,
    event: &[u8],
) -> Result<AtFault, NoMemory> {
    let Blamed { span, text } = blame(alloc, judge, texts, event)?;
    Ok(alone(form_alone(alloc, &text, span)?))
}

/// The part at fault of the form that is malformed.
fn malformed_part(
    alloc: Global,
    judge: &Judge,
    texts: &mut Texts,
    event: &[u8],
) -> Result<AtFault, NoMemory> {
    let Blamed { span, text } = blame(alloc, judge, texts, event)?;
    let around = form_alone(alloc, &text, span)?;
    let part = odd_part(alloc, judge, texts, &text, around)?;
    Ok(AtFault { part, around })
}

/// The part of an event that is at fault, by its code.
pub fn at_fault(
    alloc: Global,
    judge: &Judge,
    texts: &mut Texts,
    event: &[u8],
) -> Result<AtFault, NoMemory> {
    let all = whole(event);
    match judge.fault {
        EventFault::UnknownEvent => Ok(alone(element_of(alloc, event, all, 0)?)),
        EventFault::Redefined => Ok(alone(element_of(alloc, event, all, 1)?)),
        EventFault::BadOption => Ok(alone(odd_option(alloc, judge, texts, event)?)),
        EventFault::Term(TermFault::UnknownFunction) => head_at_fault(alloc, judge, texts, event),
        EventFault::Term(TermFault::TooDeep) | EventFault::BadEvent => Ok(alone(all)),
        EventFault::Term(TermFault::BadUse) => malformed_part(alloc, judge, texts, event),
        EventFault::Term(_) | EventFault::NotAdmitted(_) => {
            term_at_fault(alloc, judge, texts, event)
        }
        EventFault::BadBindings => {
            let around = theorem_bindings(alloc, texts, event)?;
            let part = odd_binding(alloc, texts, event, around)?;
            Ok(AtFault { part, around })
        }
        EventFault::BadCases => {
            let around = bindings_of(alloc, event, b":param-bindings")?;
            let part = odd_case(alloc, judge, texts, event, around)?;
            Ok(AtFault { part, around })
        }
        EventFault::Memory => Ok(alone(all)),
    }
}
