//! The places of a list's elements, by the reader of books: what stands behind an open parenthesis is read as a text of its
//! own, which ends at the parenthesis that closes the list.

ghost use Rattle.std.specs.Prelude.{◌≡◌, ◌≢◌, [], get_or, IfOk};

use crate::span::{Span, byte_at, cut, token};
use gl_logic::{NoMemory, Texts};
use sexp_reader::{End, FormList, Forms, forms};
use std::alloc::Global;

/// A line and a column, each from 1.
#[derive(Clone, Copy, Debug, PartialEq, Eq)]
struct Place {
    line: u32,
    column: u32,
}

/// Reads a text's forms, none of one that is too long.
fn forms_of(alloc: Global, text: &[u8]) -> Result<Option<Forms>, NoMemory> {
    if text.len() >= 4_294_967_295 {
        return Ok(None);
    }
    let mut texts = Texts::new(alloc)?;
    Ok(Some(forms(alloc, text, &mut texts)?))
}

/// Where each form of a text begins.
fn places_of(alloc: Global, list: &FormList) -> Result<Vec<Place>, NoMemory> {
    let mut places = Vec::new(alloc);
    for i in 0..list.len() {
        let form = list.at(i);
        places.push(Place {
            line: form.line,
            column: form.column,
        })?;
    }
    Ok(places)
}

/// Whether the element of this number begins at the place.
fn is_at(places: &[Place], number: usize, place: Place) -> bool {
    match places.get(number) {
        Some(other) => *other == place,
        None => false,
    }
}

/// The place behind a byte.
fn behind(place: Place, byte: u8) -> Place {
    if byte == b'\n' {
        Place {
            line: place.line.saturating_add(1),
            column: 1,
        }
    } else {
        Place {
            line: place.line,
            column: place.column.saturating_add(1),
        }
    }
}

/// The offsets of places that stand in order in a text, by one walk over it.
fn offsets_of(alloc: Global, text: &[u8], places: &[Place]) -> Result<Vec<usize>, NoMemory> {
    let mut offsets: Vec<usize> = Vec::new(alloc);
    let mut place = Place { line: 1, column: 1 };
    for (i, byte) in text.iter().enumerate() {
        if is_at(places, offsets.len(), place) {
            offsets.push(i)?;
        }
        place = behind(place, *byte);
    }
    if is_at(places, offsets.len(), place) {
        offsets.push(text.len())?;
    }
    Ok(offsets)
}

/// The offset of a line and a column.
pub fn offset_of(
    alloc: Global,
    text: &[u8],
    line: u32,
    column: u32,
) -> Result<Option<usize>, NoMemory> {
    let mut places = Vec::new(alloc);
    places.push(Place { line, column })?;
    let offsets = offsets_of(alloc, text, &places)?;
    Ok(offsets.first().copied())
}

/// Each part from one offset to the next.
fn spans_between(alloc: Global, base: usize, offsets: &[usize]) -> Result<Vec<Span>, NoMemory> {
    let mut spans = Vec::new(alloc);
    let mut start = None;
    for offset in offsets {
        let end = base.saturating_add(*offset);
        if let Some(start) = start {
            spans.push(Span::new(start, end))?;
        }
        start = Some(end);
    }
    Ok(spans)
}

/// The places of a text's whole forms, and where its reading ends before its end.
fn places_read(alloc: Global, read: &Forms) -> Result<Vec<Place>, NoMemory> {
    let mut places = places_of(alloc, &read.list)?;
    if let End::Bad(line, column, _) = read.end {
        places.push(Place { line, column })?;
    }
    Ok(places)
}

/// The offsets of these places; none of a text that is too long.
fn offsets_read(alloc: Global, text: &[u8]) -> Result<Vec<usize>, NoMemory> {
    let Some(read) = forms_of(alloc, text)? else {
        return Ok(Vec::new(alloc));
    };
    let places = places_read(alloc, &read)?;
    drop(read);
    offsets_of(alloc, text, &places)
}

/// The elements of the list that a part of a text is, each from its first byte to the next element or the list's end, and
/// none where the part is no list.
pub fn elements(alloc: Global, text: &[u8], span: Span) -> Result<Vec<Span>, NoMemory>
    ensures { get_or text.now span.start 0 ≢ 40 → IfOk result (λ parts. parts.items ≡ []) }
{
    if byte_at(text, span.start) != b'(' {
        return Ok(Vec::new(alloc));
    }
    elements_from(alloc, text, span.start.saturating_add(1), span.end)
}

/// The elements from an offset inside a list on.
fn elements_from(
    alloc: Global,
    text: &[u8],
    start: usize,
    end: usize,
) -> Result<Vec<Span>, NoMemory> {
    let offsets = offsets_read(alloc, cut(text, Span::new(start, end)))?;
    spans_between(alloc, start, &offsets)
}

/// Where the parenthesis stands that closes a list, behind its dot where it has one.
fn close_of(alloc: Global, text: &[u8], list: Span) -> Result<usize, NoMemory> {
    let start = list.start.saturating_add(1);
    let close = match elements_from(alloc, text, start, list.end)?.last() {
        Some(part) => part.end,
        None => start,
    };
    if byte_at(text, close) != b'.' {
        return Ok(close);
    }
    let behind = close.saturating_add(1);
    match elements_from(alloc, text, behind, list.end)?.last() {
        Some(part) => Ok(part.end),
        None => Ok(close),
    }
}

/// A part without the blanks at its end.
pub fn without_blanks(text: &[u8], span: Span) -> Span
    ensures { result.start ≡ span.start }
{
    let mut end = span.start;
    for (i, byte) in cut(text, span).iter().enumerate() {
        if *byte > 32 {
            end = span.start.saturating_add(i).saturating_add(1);
        }
    }
    Span::new(span.start, end)
}

/// The form with which a part begins, without what stands behind it.
pub fn form_alone(alloc: Global, text: &[u8], span: Span) -> Result<Span, NoMemory>
    ensures { IfOk result (λ form. form.start ≡ span.start) }
{
    let start = span.start;
    if byte_at(text, start) == b'(' {
        return Ok(Span::new(start, close_of(alloc, text, span)?.saturating_add(1)));
    }
    let count = token(text, span).len();
    if count == 0 {
        return Ok(without_blanks(text, span));
    }
    Ok(Span::new(start, start.saturating_add(count)))
}

/// The offset of the first byte from one on that is neither a blank nor of a comment to the end of its line.
fn behind_gaps(text: &[u8], start: usize) -> usize {
    let mut is_comment = false;
    for (i, byte) in cut(text, Span::new(start, text.len())).iter().enumerate() {
        if *byte == b'\n' {
            is_comment = false;
        } else if *byte == b';' {
            is_comment = true;
        } else if *byte > 32 && !is_comment {
            return start.saturating_add(i);
        }
    }
    text.len()
}

/// The offsets of a text's whole forms; none of one that is too long.
pub fn offsets_of_forms(alloc: Global, text: &[u8]) -> Result<Vec<usize>, NoMemory> {
    let Some(read) = forms_of(alloc, text)? else {
        return Ok(Vec::new(alloc));
    };
    let places = places_of(alloc, &read.list)?;
    drop(read);
    offsets_of(alloc, text, &places)
}

/// The offset of the last of a text's whole forms.
fn last_form(alloc: Global, text: &[u8], forms: &Forms) -> Result<Option<usize>, NoMemory> {
    let places = places_of(alloc, &forms.list)?;
    Ok(offsets_of(alloc, text, &places)?.last().copied())
}

/// Where what stands behind the whole forms of a text begins.
pub fn behind_forms(alloc: Global, text: &[u8]) -> Result<usize, NoMemory> {
    let Some(read) = forms_of(alloc, text)? else {
        return Ok(0);
    };
    let last = last_form(alloc, text, &read)?;
    drop(read);
    match last {
        Some(start) => {
            let end = text.len();
            let last = form_alone(alloc, text, Span::new(start, end))?;
            Ok(behind_gaps(text, last.end))
        }
        None => Ok(behind_gaps(text, 0)),
    }
}
