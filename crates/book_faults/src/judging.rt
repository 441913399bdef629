//! All faults of one form, each found with those before it mended.

use crate::blame::{Judge, fault_of};
use crate::edited::Edited;
use crate::fault_parts::{AtFault, at_fault, element_of};
use crate::found::{Cause, Found};
use crate::mending::mend;
use crate::span::{Span, byte_at, cut, is_word, token, whole, without_package};
use book_state::State;
use event_world::EventFault;
use explain_findings::{FormFault, is_among};
use gl_logic::{NoMemory, Texts};
use gl_translate::TermFault;
use std::alloc::Global;

/// How many faults of one form are found.
const MOST_IN_FORM: u64 = 24;

/// A form that is refused: the number of its text, and the offset of its first byte there.
#[derive(Clone, Copy)]
pub(crate) struct Seen {
    pub file: usize,
    pub start: usize,
}

/// What is asked of the faults of a form: where it stands, the state in front of it, names of which nothing is known, those of them that
/// name macros, and whether a function that is not known may be one of a book that is not looked at.
#[derive(Clone, Copy)]
pub(crate) struct Court<'a> {
    pub seen: Seen,
    pub state: &'a State,
    pub unknown: &'a [Vec<u8>],
    pub macros: &'a [Vec<u8>],
    pub is_partial: bool,
}

/// Whether a word is among these, or begins with one that ends with `-`.
fn has_word(words: &[Vec<u8>], word: &[u8]) -> bool {
    for other in words {
        let other = other.as_slice();
        let front = cut(word, Span::new(0, other.len()));
        if is_word(other, word) || other.ends_with(b"-") && is_word(other, front) {
            return true;
        }
    }
    false
}

/// What was mended in a form before: how many parts; whether one of them may be what a recursion ends by; whether bindings; and
/// whether a `b*`, whose variables may be fields of another.
#[derive(Clone, Copy)]
struct Before {
    count: u64,
    is_deep: bool,
    is_bound: bool,
    has_fields: bool,
}

/// Whether a word such as `x.field` stands in a text.
fn has_field(text: &[u8]) -> bool {
    for (i, byte) in text.iter().enumerate() {
        let is_front = may_be_letter(byte_at(text, i.saturating_sub(1)));
        if 0 < i && *byte == b'.' && is_front && may_be_letter(byte_at(text, i.saturating_add(1))) {
            return true;
        }
    }
    false
}

/// Whether a byte may be in a name: a letter, a digit, or one of those that join words.
fn may_be_letter(byte: u8) -> bool {
    byte.is_ascii_alphanumeric() || byte == b'-' || byte == b'>' || byte == b'*'
}

/// Words of ACL2 by which no recursion ends: what stands for them has the same tests and calls.
const SHALLOW: &str = "b* mv-let mv mv-nth";

/// Whether a binding begins with its variable, which stays bound where it is mended.
fn has_name(text: &[u8], binding: Span) -> bool {
    let first = byte_at(text, binding.start.saturating_add(1));
    first != b':' && first != b'('
}

impl Before {
    /// With one part more that was mended.
    fn and(self, text: &[u8], fault: EventFault, at: AtFault) -> Before {
        let is_head = fault == EventFault::Term(TermFault::UnknownFunction);
        let is_shallow = is_head && is_among(without_package(cut(text, at.part)), SHALLOW);
        Before {
            count: self.count.saturating_add(1),
            is_deep: self.is_deep || !is_shallow,
            is_bound: self.is_bound || fault == EventFault::BadBindings && !has_name(text, at.part),
            has_fields: self.has_fields
                || is_head
                    && is_word(without_package(cut(text, at.part)), b"b*")
                    && has_field(text),
        }
    }
}

/// Whether a fault of a form may only follow from one before it, which was mended, or from what is not known.
fn only_follows(court: Court, text: &[u8], fault: EventFault, at: AtFault, before: Before) -> bool {
    match fault {
        EventFault::Term(TermFault::UnknownFunction) => {
            court.is_partial || has_word(court.unknown, without_package(cut(text, at.part)))
        }
        EventFault::UnknownEvent => has_word(court.unknown, without_package(cut(text, at.part))),
        EventFault::Term(TermFault::UnboundVariable) => {
            let word = cut(text, at.part);
            before.has_fields && word.contains(&b'.')
                || has_word(court.unknown, without_package(word))
        }
        EventFault::NotAdmitted(_) => before.is_deep,
        EventFault::BadCases => before.is_bound,
        EventFault::BadBindings => {
            (before.is_bound || before.has_fields) && at.part == at.around
        }
        EventFault::Term(TermFault::WrongCount) => {
            let head = Span::new(at.part.start.saturating_add(1), at.part.end);
            has_word(court.unknown, token(text, head))
        }
        _ => false,
    }
}

/// A fault of a form as it stands now.
fn found_in(
    alloc: Global,
    seen: Seen,
    edited: &Edited,
    at: AtFault,
    fault: FormFault,
) -> Result<Found, NoMemory> {
    Ok(Found {
        file: seen.file,
        span: edited.at_first(at.part).moved(seen.start),
        cause: Cause::Form(fault),
        event: edited.text.to_vec(alloc)?,
        part: at.part,
        around: at.around,
    })
}

/// Whether a fault is the one that was found last: what was mended there is no better.
fn is_last(found: &[Found], one: &Found) -> bool {
    match found.last() {
        Some(last) => last.span == one.span && last.cause == one.cause,
        None => false,
    }
}

/// One fault of a form, put with the others, and the form mended at it. The next fault, where there is one.
fn next_fault(
    alloc: Global,
    texts: &mut Texts,
    court: Court,
    edited: &mut Edited,
    found: &mut Vec<Found>,
    fault: EventFault,
    before: &mut Before,
) -> Result<Option<EventFault>, NoMemory> {
    let judge = Judge {
        world: court.state.world(),
        memoized: court.state.memoized(),
        fault,
    };
    let at = at_fault(alloc, &judge, texts, &edited.text)?;
    if !only_follows(court, &edited.text, fault, at, *before) {
        let one = found_in(alloc, court.seen, edited, at, FormFault::Event(fault))?;
        if is_last(found, &one) {
            return Ok(None);
        }
        found.push(one)?;
    }
    let count = before.count;
    *before = before.and(&edited.text, fault, at);
    let is_macro = has_word(court.macros, without_package(cut(&edited.text, at.part)));
    if !mend(alloc, &judge, edited, at, count, is_macro)? {
        return Ok(None);
    }
    fault_of(alloc, &judge, texts, &edited.text)
}

/// All faults of a form, whose first is this one. The form is mended at each.
pub(crate) fn faults_of(
    alloc: Global,
    texts: &mut Texts,
    court: Court,
    edited: &mut Edited,
    first: FormFault,
) -> Result<Vec<Found>, NoMemory> {
    let mut found = Vec::new(alloc);
    let mut fault = match first {
        FormFault::Event(fault) => fault,
        FormFault::Constant(_) => {
            let part = element_of(alloc, &edited.text, whole(&edited.text), 2)?;
            let at = AtFault { part, around: part };
            found.push(found_in(alloc, court.seen, edited, at, first)?)?;
            return Ok(found);
        }
    };
    let mut before = Before {
        count: 0,
        is_deep: false,
        is_bound: false,
        has_fields: false,
    };
    for _ in 0..MOST_IN_FORM {
        match next_fault(alloc, texts, court, edited, &mut found, fault, &mut before)? {
            Some(next) => fault = next,
            None => return Ok(found),
        }
    }
    Ok(found)
}
