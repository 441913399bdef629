//! The part of a refused form that is at fault, by asking anew what the form means with parts of it replaced by NIL.
//!
//! From the outside in: where the form keeps its fault with all terms of a part replaced, the part itself is at fault.
//! Else it is the first of these terms such that the form keeps its fault with those behind that one replaced. So it is
//! the translator that judges, and nothing here knows what a fault is.

ghost use Rattle.std.specs.Prelude.{◌≡◌, ◌++◌, length, IfOk};
ghost use Rattle.book_faults.specs.Parts.{part_of};

use crate::form_elements::{elements, form_alone};
use crate::span::{Span, cut, is_word, whole};
use crate::terms::{head_of, terms_of_event, terms_of_term};
use event_world::{EventFault, event_of};
use explain_report::Report;
use gl_logic::{NoMemory, Texts, World};
use sexp_reader::forms;
use shape_spec::{FnSet, Mode};
use std::alloc::Global;

/// How deep terms are looked into.
const MOST_DEEP: usize = 1000;

/// How many options of an event are tried.
const MOST_OPTIONS: usize = 64;

/// What is asked of each text of a form, in a world and for functions whose calls are kept: whether it means no event for the
/// same reason.
#[derive(Clone, Copy)]
pub struct Judge<'a> {
    pub world: &'a World,
    pub memoized: &'a FnSet,
    pub fault: EventFault,
}

/// Whether two faults have one code.
fn is_same(fault: EventFault, other: EventFault) -> bool {
    match (fault, other) {
        (EventFault::NotAdmitted(_), EventFault::NotAdmitted(_)) => true,
        _ => fault == other,
    }
}

/// The fault of a text's first form, where it is one.
pub fn fault_of(
    alloc: Global,
    judge: &Judge,
    texts: &mut Texts,
    text: &[u8],
) -> Result<Option<EventFault>, NoMemory> {
    if text.len() >= 4_294_967_295 {
        return Ok(None);
    }
    let read = forms(alloc, text, texts)?;
    if read.list.len() == 0 {
        return Ok(None);
    }
    let form = read.list.at(0);
    match event_of(
        alloc,
        &form.tree,
        judge.world,
        Mode::Bdd,
        judge.memoized,
        texts,
    ) {
        Ok(event) => {
            drop(event);
            Ok(None)
        }
        Err(EventFault::Memory) => Err(NoMemory),
        Err(fault) => Ok(Some(fault)),
    }
}

impl<'a> Judge<'a> {
    /// Whether a text's first form has the fault.
    pub fn refuses(&self, alloc: Global, texts: &mut Texts, text: &[u8]) -> Result<bool, NoMemory> {
        match fault_of(alloc, self, texts, text)? {
            Some(fault) => Ok(is_same(fault, self.fault)),
            None => Ok(false),
        }
    }
}

/// A text with the parts from a number on replaced by NIL.
fn without(alloc: Global, text: &[u8], parts: &[Span], first: usize) -> Result<Vec<u8>, NoMemory> {
    let mut out = Report::new(alloc);
    let mut start = 0;
    for (i, part) in parts.iter().enumerate() {
        if first <= i {
            out.text(cut(text, Span::new(start, part.start)));
            out.say("nil ");
            start = part.end;
        }
    }
    out.text(cut(text, Span::new(start, text.len())));
    out.into_bytes()
}

/// Whether a text keeps its fault with the parts from a number on replaced.
fn refuses_without(
    alloc: Global,
    judge: &Judge,
    texts: &mut Texts,
    text: &[u8],
    parts: &[Span],
    first: usize,
) -> Result<bool, NoMemory> {
    let tried = without(alloc, text, parts, first)?;
    judge.refuses(alloc, texts, &tried)
}

/// The first of some terms such that the text keeps its fault with those behind it replaced, by halving. With none replaced
/// it has the fault.
fn first_faulty(
    alloc: Global,
    judge: &Judge,
    texts: &mut Texts,
    text: &[u8],
    parts: &[Span],
) -> Result<usize, NoMemory> {
    let mut low = 0;
    let mut high = parts.len().saturating_sub(1);
    for _ in 0..64 {
        if high <= low {
            return Ok(low);
        }
        let middle = low + (high - low) / 2;
        if refuses_without(alloc, judge, texts, text, parts, middle.saturating_add(1))? {
            high = middle;
        } else {
            low = middle.saturating_add(1);
        }
    }
    Ok(low)
}

/// The part that is at fault, and the text in which all terms behind it are replaced.
#[derive(Drop)]
pub struct Blamed {
    pub span: Span,
    pub text: Vec<u8>,
}

/// One step further in: the term of these that is at fault, where it is not the whole of them.
fn further(
    alloc: Global,
    judge: &Judge,
    texts: &mut Texts,
    text: &[u8],
    parts: &[Span],
) -> Result<Option<Blamed>, NoMemory> {
    if parts.is_empty() {
        return Ok(None);
    }
    if refuses_without(alloc, judge, texts, text, parts, 0)? {
        return Ok(None);
    }
    let number = first_faulty(alloc, judge, texts, text, parts)?;
    match parts.get(number) {
        Some(span) => Ok(Some(Blamed {
            span: *span,
            text: without(alloc, text, parts, number.saturating_add(1))?,
        })),
        None => Ok(None),
    }
}

/// One step further in from a part, which is the whole event or a term.
fn further_in(
    alloc: Global,
    judge: &Judge,
    texts: &mut Texts,
    blamed: &Blamed,
    is_event: bool,
) -> Result<Option<Blamed>, NoMemory> {
    let parts = if is_event {
        terms_of_event(alloc, &blamed.text, blamed.span)?
    } else {
        terms_of_term(alloc, &blamed.text, blamed.span)?
    };
    further(alloc, judge, texts, &blamed.text, &parts)
}

/// The part of an event's text that is at fault: a term of it, or the whole.
pub fn blame(
    alloc: Global,
    judge: &Judge,
    texts: &mut Texts,
    event: &[u8],
) -> Result<Blamed, NoMemory> {
    let mut blamed = Blamed {
        span: whole(event),
        text: event.to_vec(alloc)?,
    };
    for depth in 0..MOST_DEEP {
        match further_in(alloc, judge, texts, &blamed, depth == 0)? {
            Some(next) => blamed = next,
            None => break,
        }
    }
    Ok(blamed)
}

/// A text without a part of it.
pub fn taken_out(alloc: Global, text: &[u8], part: Span) -> Result<Vec<u8>, NoMemory>
    ensures { IfOk result (λ rest. rest.items ≡ part_of text.now 0 part.start ++ part_of text.now part.end (length text.now)) }
{
    let mut out = Report::new(alloc);
    out.text(cut(text, Span::new(0, part.start)));
    out.text(cut(text, Span::new(part.end, text.len())));
    out.into_bytes()
}

/// The options among the elements of an event, each with its value; of a definition what stands between its formals and its body.
fn options_among(alloc: Global, parts: &[Span], is_theorem: bool) -> Result<Vec<Span>, NoMemory> {
    let mut options = Vec::new(alloc);
    let mut start = None;
    for (i, part) in parts.iter().enumerate() {
        match start {
            Some(first) => {
                options.push(Span::new(first, part.end))?;
                start = None;
            }
            None if is_theorem && 2 <= i => start = Some(part.start),
            None => {
                if 3 <= i && i.saturating_add(1) < parts.len() && !is_theorem {
                    options.push(*part)?;
                }
            }
        }
    }
    Ok(options)
}

/// The options of an event, each with its value: the declarations of a definition or of the members of a clique, and the keywords
/// of a theorem.
fn options_of(alloc: Global, event: &[u8]) -> Result<Vec<Span>, NoMemory> {
    let parts = elements(alloc, event, whole(event))?;
    if !is_word(head_of(event, &parts), b"mutual-recursion") {
        return options_among(alloc, &parts, begins_theorem(head_of(event, &parts)));
    }
    let mut options = Vec::new(alloc);
    for member in &parts {
        let inner = elements(alloc, event, *member)?;
        options.extend_from_slice(&options_among(alloc, &inner, false)?)?;
    }
    Ok(options)
}

/// Whether a form with this head is a theorem.
fn begins_theorem(head: &[u8]) -> bool {
    is_word(head, b"def-gl-thm") || is_word(head, b"def-gl-param-thm")
}

/// The option of an event that is at fault, the first one of several: from the last on each is taken out as long as the event
/// keeps its fault. The event where there is none. Without a required one it lacks a part.
pub fn odd_option(
    alloc: Global,
    judge: &Judge,
    texts: &mut Texts,
    event: &[u8],
) -> Result<Span, NoMemory> {
    let options = options_of(alloc, event)?;
    let mut text = event.to_vec(alloc)?;
    for (i, option) in options.iter().rev().enumerate() {
        if i < MOST_OPTIONS {
            let tried = taken_out(alloc, &text, *option)?;
            match fault_of(alloc, judge, texts, &tried)? {
                Some(fault) if fault == judge.fault => text = tried,
                Some(EventFault::BadEvent) => {}
                _ => return form_alone(alloc, event, *option),
            }
        }
    }
    Ok(whole(event))
}
