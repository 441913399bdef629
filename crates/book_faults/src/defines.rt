//! ACL2's `define` as a `defun` of the same formals and the same body, and `make-event` of a quoted event as that event, so that what
//! stands in them is judged.

use crate::edited::Edited;
use crate::form_elements::{elements, form_alone};
use crate::span::{Span, byte_at, is_word, token, whole};
use crate::stubs::event_made;
use gl_logic::NoMemory;
use std::alloc::Global;

/// Behind which forms of a `define` stand what is no part of the function.
const REST: &[u8] = b"///";

/// The parts of a `define` behind its formals that no `defun` has: keywords with their values, and what stands behind `///`.
fn beside(alloc: Global, text: &[u8], parts: &[Span]) -> Result<Vec<Span>, NoMemory> {
    let mut found = Vec::new(alloc);
    let mut is_value = false;
    let mut is_rest = false;
    for part in parts.iter().skip(3) {
        let is_keyword = !is_value && byte_at(text, part.start) == b':';
        is_rest = is_rest || !is_value && is_word(token(text, *part), REST);
        if is_rest || is_value || is_keyword {
            found.push(*part)?;
        }
        is_value = is_keyword;
    }
    Ok(found)
}

/// The first element of a list, and what is no list itself.
fn first_of(alloc: Global, text: &[u8], part: Span) -> Result<Span, NoMemory> {
    match elements(alloc, text, part)?.first() {
        Some(first) => Ok(*first),
        None => Ok(part),
    }
}

/// A formal `name`, `(name predicate ..)` or `((name predicate ..) default)` as its name, and `&key` as nothing.
fn open_formal(alloc: Global, edited: &mut Edited, formal: Span) -> Result<(), NoMemory> {
    let inner = first_of(alloc, &edited.text, formal)?;
    let name = first_of(alloc, &edited.text, inner)?;
    let name = token(&edited.text, name).to_vec(alloc)?;
    let formal = form_alone(alloc, &edited.text, formal)?;
    let name: &[u8] = if byte_at(&name, 0) == b'&' {
        b""
    } else {
        &name
    };
    edited.replace(alloc, formal, name)
}

/// An event `(define name (formal ..) .. body ..)` as a `defun`. Whether it has such parts.
pub(crate) fn open_define(alloc: Global, edited: &mut Edited) -> Result<bool, NoMemory> {
    let parts = elements(alloc, &edited.text, whole(&edited.text))?;
    if parts.len() < 4 {
        return Ok(false);
    }
    let formals = elements(alloc, &edited.text, parts[2])?;
    let beside = beside(alloc, &edited.text, &parts)?;
    if parts.len() <= beside.len().saturating_add(3) {
        return Ok(false);
    }
    let word = form_alone(alloc, &edited.text, parts[0])?;
    for part in beside.iter().rev() {
        edited.replace(alloc, *part, b" ")?;
    }
    for formal in formals.iter().rev() {
        open_formal(alloc, edited, *formal)?;
    }
    edited.replace(alloc, word, b"defun")?;
    Ok(true)
}

/// An event `(make-event '(..))` as the event that is quoted. Whether it is one, in which no comma stands.
pub(crate) fn open_made(alloc: Global, edited: &mut Edited) -> Result<bool, NoMemory> {
    let all = whole(&edited.text);
    let made = event_made(alloc, &edited.text, all)?;
    if made == all || edited.text.contains(&b',') {
        return Ok(false);
    }
    let made = form_alone(alloc, &edited.text, made)?;
    let behind = Span::new(made.end, all.end);
    let front = Span::new(0, made.start);
    edited.replace(alloc, behind, b"")?;
    edited.replace(alloc, front, b"")?;
    Ok(true)
}
