//! What a refused event leaves behind: forms that take its names with as many formals and with no body, for what comes behind it.

use crate::form_elements::{elements, form_alone};
use crate::span::{Span, byte_at, cut, is_word, token};
use crate::terms::head_of;
use explain_findings::is_among;
use explain_report::Report;
use gl_logic::NoMemory;
use std::alloc::Global;

/// Events whose third element is a list of formals.
const DEFINITIONS: &str =
    "defun defund defun-inline defund-inline definline definlined defun-notinline defun-nx defn defnd defabbrev define defun$ defiteration";

/// Events that are named as theorems are.
const THEOREMS: &str = "def-gl-thm def-gl-param-thm def-gl-thmd def-gl-rule def-gl-ruled";

/// Events around other events.
const WRAPPERS: &str =
    "local progn encapsulate defsection with-output must-succeed encapsulate-nil";

/// Events of ACL2 that make functions whose names begin or end with theirs.
const MAKERS: &str =
    "defprod deflist defalist defoption deftagsum defenum defaggregate defbitstruct defflexsum";

/// What a refused event leaves behind.
#[derive(Drop)]
pub(crate) enum Stub {
    /// A form that is taken in its place.
    Form(Vec<u8>),
    /// A name of which nothing more is known.
    Name(Vec<u8>),
    /// The name of a macro.
    Macro(Vec<u8>),
}

/// Whether a part is a list that begins with a word.
fn begins_with_word(text: &[u8], part: Span) -> bool {
    let first = byte_at(text, part.start.saturating_add(1));
    byte_at(text, part.start) == b'(' && first != b'(' && first != b')'
}

/// The events inside a refused one that is around others, the last one first: each list that begins with a word and is no value
/// of a keyword.
pub(crate) fn inner_events(alloc: Global, text: &[u8], event: Span) -> Result<Vec<Span>, NoMemory> {
    let mut found = Vec::new(alloc);
    let parts = elements(alloc, text, event)?;
    if !is_among(head_of(text, &parts), WRAPPERS) {
        return Ok(found);
    }
    let mut is_value = false;
    for part in &parts {
        if !is_value && begins_with_word(text, *part) {
            found.push(form_alone(alloc, text, *part)?)?;
        }
        is_value = !is_value && byte_at(text, part.start) == b':';
    }
    found.reverse();
    Ok(found)
}

/// How many formals a list has; none where one of them is a word such as `&rest` or `&key`.
fn count_of(alloc: Global, text: &[u8], list: Span) -> Result<Option<usize>, NoMemory> {
    let formals = elements(alloc, text, list)?;
    for formal in &formals {
        if byte_at(text, formal.start) == b'&' {
            return Ok(None);
        }
    }
    Ok(Some(formals.len()))
}

/// Whether an event has formals that a call may leave out.
pub(crate) fn has_options(alloc: Global, text: &[u8], event: Span) -> Result<bool, NoMemory> {
    match elements(alloc, text, event)?.get(2) {
        Some(formals) => Ok(count_of(alloc, text, *formals)?.is_none()),
        None => Ok(false),
    }
}

/// A definition of so many formals and no body.
fn definition(alloc: Global, name: &[u8], count: usize) -> Result<Stub, NoMemory> {
    let mut form = Report::new(alloc);
    form.say("(defun ");
    form.text(name);
    form.say(" (");
    for i in 0..count {
        form.say(" v");
        form.number(i as u64);
    }
    form.say(") nil)");
    Ok(Stub::Form(form.into_bytes()?))
}

/// A form of a name between two texts.
fn around(alloc: Global, front: &str, name: &[u8], behind: &str) -> Result<Stub, NoMemory> {
    let mut form = Report::new(alloc);
    form.say(front);
    form.text(name);
    form.say(behind);
    Ok(Stub::Form(form.into_bytes()?))
}

/// The event that is quoted in `(make-event '(..))`, also by a backquote; else the event itself.
pub(crate) fn event_made(alloc: Global, text: &[u8], event: Span) -> Result<Span, NoMemory> {
    let parts = elements(alloc, text, event)?;
    match parts.get(1) {
        Some(made)
            if is_word(head_of(text, &parts), b"make-event")
                && [b'\'', b'`'].contains(&byte_at(text, made.start)) => {
            Ok(Span::new(made.start.saturating_add(1), made.end))
        }
        _ => Ok(event),
    }
}

/// What one refused event leaves behind, where it has a name.
fn stub_of(alloc: Global, text: &[u8], event: Span) -> Result<Option<Stub>, NoMemory> {
    let event = event_made(alloc, text, event)?;
    let parts = elements(alloc, text, event)?;
    let head = head_of(text, &parts);
    let name = match parts.get(1) {
        Some(part) => token(text, *part),
        None => b"",
    };
    if name.is_empty() {
        return Ok(None);
    }
    if is_among(head, DEFINITIONS) {
        if let Some(formals) = parts.get(2) {
            if let Some(count) = count_of(alloc, text, *formals)? {
                return Ok(Some(definition(alloc, name, count)?));
            }
        }
        Ok(Some(Stub::Name(name.to_vec(alloc)?)))
    } else if is_word(head, b"defmacro") {
        Ok(Some(Stub::Macro(name.to_vec(alloc)?)))
    } else if is_word(head, b"defconst") {
        Ok(Some(around(alloc, "(defconst ", name, " nil)")?))
    } else if is_among(head, THEOREMS) {
        Ok(Some(around(alloc, "(def-gl-thm ", name, " :concl t :g-bindings nil)")?))
    } else if is_word(head, b"defthm") || !is_word(cut(head, Span::new(0, 3)), b"def") {
        Ok(None)
    } else {
        Ok(Some(Stub::Name(name.to_vec(alloc)?)))
    }
}

/// A name with words in front of it and behind.
fn name_with(alloc: Global, front: &str, name: &[u8], behind: &str) -> Result<Stub, NoMemory> {
    let mut made = Report::new(alloc);
    made.say(front);
    made.text(name);
    made.say(behind);
    Ok(Stub::Name(made.into_bytes()?))
}

/// The names of what `defstobj` makes of its fields: each field, also as an array, and what updates it.
fn names_of_fields(alloc: Global, text: &[u8], parts: &[Span]) -> Result<Vec<Stub>, NoMemory> {
    let mut names = Vec::new(alloc);
    for part in parts.iter().skip(2) {
        let inner = elements(alloc, text, *part)?;
        let name = match inner.first() {
            Some(name) => token(text, *name),
            None => token(text, *part),
        };
        if !name.is_empty() {
            names.push(name_with(alloc, "", name, "")?)?;
            names.push(name_with(alloc, "", name, "i")?)?;
            names.push(name_with(alloc, "update-", name, "")?)?;
            names.push(name_with(alloc, "update-", name, "i")?)?;
        }
    }
    Ok(names)
}

/// The names of what an event of ACL2 makes: those that begin with its own and `-`, one that makes and one that changes.
fn names_made(alloc: Global, text: &[u8], event: Span) -> Result<Vec<Stub>, NoMemory> {
    let mut names = Vec::new(alloc);
    let parts = elements(alloc, text, event)?;
    if is_word(head_of(text, &parts), b"defstobj") {
        return names_of_fields(alloc, text, &parts);
    }
    let name = match parts.get(1) {
        Some(part) if is_among(head_of(text, &parts), MAKERS) => token(text, *part),
        _ => b"",
    };
    if name.is_empty() {
        return Ok(names);
    }
    names.push(name_with(alloc, "", name, "-")?)?;
    names.push(name_with(alloc, "make-", name, "")?)?;
    names.push(name_with(alloc, "change-", name, "")?)?;
    Ok(names)
}

/// What a refused event leaves behind: of a clique what each of its members does.
pub(crate) fn stubs_of(alloc: Global, text: &[u8], event: Span) -> Result<Vec<Stub>, NoMemory> {
    let mut stubs = names_made(alloc, text, event)?;
    let parts = elements(alloc, text, event)?;
    if !is_word(head_of(text, &parts), b"mutual-recursion") {
        if let Some(stub) = stub_of(alloc, text, event)? {
            stubs.push(stub)?;
        }
        return Ok(stubs);
    }
    for part in &parts {
        if let Some(stub) = stub_of(alloc, text, *part)? {
            stubs.push(stub)?;
        }
    }
    Ok(stubs)
}
