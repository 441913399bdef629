//! A form mended at its fault: the part at fault replaced by one that is none and tells as little as can be, so that the next
//! fault of the form is found, and none that only follows.

use crate::binders::{open_b_star, open_mv_let};
use crate::blame::Judge;
use crate::defines::{open_define, open_made};
use crate::edited::Edited;
use crate::fault_parts::AtFault;
use crate::form_elements::{elements, form_alone};
use crate::items::may_be_variable;
use crate::span::{Span, byte_at, cut, is_word, token, whole, without_package};
use crate::terms::head_of;
use event_world::EventFault;
use explain_findings::is_among;
use explain_report::Report;
use gl_logic::NoMemory;
use gl_translate::TermFault;
use std::alloc::Global;

/// Heads whose operands are no terms.
const BINDERS: &str =
    "case-match loop$ do$ flet macrolet pattern-match er er-let* stobj-let labels lambda declare seq define local auto-bindings";

/// Heads whose operands stand for something else than values.
const SPECIAL: &str = "the quote let let* cond case mbe";

/// The options of theorems.
const OPTIONS: &str = ":hyp :concl :g-bindings :param-hyp :param-bindings :cov-bindings";

/// An index that no shape has, but those that stand in for one at fault.
const FIRST_INDEX: u64 = 990_000;

/// The word with which a list begins, alone.
fn head_word(text: &[u8], term: Span) -> Span {
    let mut start = term.start.saturating_add(1);
    let rest = Span::new(start, term.end);
    for byte in cut(text, rest) {
        if *byte > 32 {
            break;
        }
        start = start.saturating_add(1);
    }
    let count = token(text, Span::new(start, text.len())).len();
    Span::new(start, start.saturating_add(count))
}

/// Lets a call be one of the macro `list`, which takes whatever stands there.
fn call_list(alloc: Global, edited: &mut Edited, term: Span) -> Result<bool, NoMemory> {
    let word = head_word(&edited.text, term);
    if word.start >= word.end {
        return Ok(false);
    }
    edited.replace(alloc, word, b"list")?;
    Ok(true)
}

/// Replaces a part by NIL.
fn put_nil(alloc: Global, edited: &mut Edited, part: Span) -> Result<bool, NoMemory> {
    let part = form_alone(alloc, &edited.text, part)?;
    edited.replace(alloc, part, b"nil ")?;
    Ok(true)
}

/// A call of a head that is no function; of a macro, which is NIL whatever stands in it.
fn mend_head(
    alloc: Global,
    edited: &mut Edited,
    fault: AtFault,
    is_macro: bool,
) -> Result<bool, NoMemory> {
    if fault.around == whole(&edited.text) {
        return Ok(false);
    }
    let term = form_alone(alloc, &edited.text, fault.around)?;
    let word = cut(&edited.text, fault.part).to_vec(alloc)?;
    let word = without_package(&word);
    if is_word(word, b"b*") {
        if open_b_star(alloc, edited, term)? {
            return Ok(true);
        }
        return put_nil(alloc, edited, term);
    }
    if is_word(word, b"mv-let") {
        if open_mv_let(alloc, edited, term)? {
            return Ok(true);
        }
        return put_nil(alloc, edited, term);
    }
    if is_word(word, b"ecase") {
        edited.replace(alloc, fault.part, b"case")?;
        return Ok(true);
    }
    if is_macro || is_among(word, BINDERS) {
        return put_nil(alloc, edited, term);
    }
    call_list(alloc, edited, term)
}

/// A call with another count of operands than its head takes.
fn mend_count(alloc: Global, edited: &mut Edited, term: Span) -> Result<bool, NoMemory> {
    if is_among(cut(&edited.text, head_word(&edited.text, term)), SPECIAL) {
        return put_nil(alloc, edited, term);
    }
    call_list(alloc, edited, term)
}

/// The name of a binding, or the name that stands in its place; empty where there is none.
fn name_of_pair(alloc: Global, text: &[u8], item: Span) -> Result<Vec<u8>, NoMemory> {
    let parts = elements(alloc, text, item)?;
    let name = match parts.first() {
        Some(name) => token(text, *name),
        None => token(text, item),
    };
    if may_be_variable(name) {
        Ok(name.to_vec(alloc)?)
    } else {
        Ok(Vec::new(alloc))
    }
}

/// A binding whose value is NIL, where it has a name; else nothing.
fn mend_pair(alloc: Global, edited: &mut Edited, item: Span) -> Result<bool, NoMemory> {
    let name = name_of_pair(alloc, &edited.text, item)?;
    let mut made = Report::new(alloc);
    if !name.is_empty() {
        made.say("(");
        made.text(&name);
        made.say(" nil)");
    }
    edited.replace(alloc, item, &made.into_bytes()?)?;
    Ok(true)
}

/// A form that is malformed, or a part of it.
fn mend_malformed(alloc: Global, edited: &mut Edited, fault: AtFault) -> Result<bool, NoMemory> {
    if fault.around == form_alone(alloc, &edited.text, whole(&edited.text))? {
        return Ok(false);
    }
    if fault.part == fault.around {
        return put_nil(alloc, edited, fault.around);
    }
    let parts = elements(alloc, &edited.text, fault.around)?;
    let is_let = is_among(head_of(&edited.text, &parts), "let let*");
    drop(parts);
    if is_let {
        return mend_pair(alloc, edited, fault.part);
    }
    edited.replace(alloc, fault.part, b"")?;
    Ok(true)
}

/// A binding of a theorem that is none: its variable has a shape of one index, where it is named.
fn mend_binding(
    alloc: Global,
    edited: &mut Edited,
    fault: AtFault,
    number: u64,
) -> Result<bool, NoMemory> {
    if fault.part == fault.around {
        return Ok(false);
    }
    let parts = elements(alloc, &edited.text, fault.part)?;
    let Some(first) = parts.first().copied() else {
        return Ok(false);
    };
    let second = parts.get(1).copied();
    drop(parts);
    let mut made = Report::new(alloc);
    if byte_at(&edited.text, first.start) != b':' {
        made.say("(");
        made.text(token(&edited.text, first));
        made.say(" (:g-boolean . ");
        made.number(FIRST_INDEX.saturating_add(number));
        made.say("))");
    } else if let Some(name) = second {
        made.say("(:boolean ");
        made.text(token(&edited.text, name));
        made.say(")");
    }
    edited.replace(alloc, fault.part, &made.into_bytes()?)?;
    Ok(true)
}

/// The event that a word of ACL2 stands for, where its form is the same.
fn same_event(word: &[u8]) -> &'static [u8] {
    if is_among(
        word,
        "defund defun-inline defund-inline definline definlined defun-nx defn defnd defun-notinline defabbrev",
    ) {
        b"defun"
    } else if is_among(word, "def-gl-thmd def-gl-rule def-gl-ruled def-fgl-thm") {
        b"def-gl-thm"
    } else if is_among(word, "assert! assert$") {
        b"assert-event"
    } else {
        b""
    }
}

/// An event under another name.
fn mend_event(alloc: Global, edited: &mut Edited, fault: AtFault) -> Result<bool, NoMemory> {
    let word = without_package(cut(&edited.text, fault.part));
    if is_word(word, b"define") {
        return open_define(alloc, edited);
    }
    if is_word(word, b"make-event") {
        return open_made(alloc, edited);
    }
    let word = same_event(word);
    if word.is_empty() {
        return Ok(false);
    }
    edited.replace(alloc, fault.part, word)?;
    Ok(true)
}

/// What stands behind a keyword of an event, alone, where that is no option itself.
fn value_of_option(alloc: Global, text: &[u8], keyword: Span) -> Result<Option<Span>, NoMemory> {
    if byte_at(text, keyword.start) != b':' {
        return Ok(None);
    }
    let mut is_next = false;
    for part in &elements(alloc, text, whole(text))? {
        if is_next && !is_among(token(text, *part), OPTIONS) {
            return Ok(Some(form_alone(alloc, text, *part)?));
        }
        is_next = part.start == keyword.start;
    }
    Ok(None)
}

/// An event without one of its options, a keyword with what stands behind it, or without another part.
fn mend_option(alloc: Global, edited: &mut Edited, part: Span) -> Result<bool, NoMemory> {
    let value = value_of_option(alloc, &edited.text, part)?;
    if let Some(value) = value {
        edited.replace(alloc, value, b" ")?;
    }
    edited.replace(alloc, part, b" ")?;
    Ok(true)
}

/// Mends a form at its fault, which is the one of this number in it, and may be a call of a macro that is not known. Whether the
/// form is to be looked at once more.
pub(crate) fn mend(
    alloc: Global,
    judge: &Judge,
    edited: &mut Edited,
    fault: AtFault,
    number: u64,
    is_macro: bool,
) -> Result<bool, NoMemory> {
    match judge.fault {
        EventFault::Term(TermFault::UnknownFunction) => mend_head(alloc, edited, fault, is_macro),
        EventFault::Term(TermFault::WrongCount) => mend_count(alloc, edited, fault.part),
        EventFault::Term(TermFault::UnboundVariable) => put_nil(alloc, edited, fault.part),
        EventFault::Term(TermFault::BadUse) => mend_malformed(alloc, edited, fault),
        EventFault::BadBindings => mend_binding(alloc, edited, fault, number),
        EventFault::BadOption if fault.part != whole(&edited.text) => {
            mend_option(alloc, edited, fault.part)
        }
        EventFault::UnknownEvent => mend_event(alloc, edited, fault),
        _ => Ok(false),
    }
}
