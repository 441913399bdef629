//! ACL2's `b*` and `mv-let` as a `let*` of the same variables, so that what stands in them is judged.

use crate::edited::Edited;
use crate::form_elements::{elements, form_alone};
use crate::items::words_in;
use crate::span::{Span, byte_at, cut, token};
use crate::terms::{all_from, head_of};
use explain_findings::is_among;
use explain_report::Report;
use gl_logic::NoMemory;
use std::alloc::Global;

/// What stands in for a variable that has no name.
const UNNAMED: &[u8] = b"unnamed";

fn at(offset: usize) -> Span {
    Span::new(offset, offset)
}

/// The words that may be variables of a pattern such as `(mv a b)`, which begins with another word.
fn variables_of(alloc: Global, text: &[u8], binder: Span) -> Result<Vec<Span>, NoMemory> {
    let parts = elements(alloc, text, binder)?;
    let found = all_from(alloc, &parts, 1)?;
    words_in(alloc, text, &found)
}

/// The first of some variables, or a name where there is none.
fn first_name(alloc: Global, text: &[u8], names: &[Span]) -> Result<Vec<u8>, NoMemory> {
    match names.first() {
        Some(name) => Ok(cut(text, *name).to_vec(alloc)?),
        None => Ok(UNNAMED.to_vec(alloc)?),
    }
}

/// Bindings of variables but the first, each to NIL.
fn other_bindings(alloc: Global, text: &[u8], names: &[Span]) -> Result<Vec<u8>, NoMemory> {
    let mut made = Report::new(alloc);
    for name in names.iter().skip(1) {
        made.say(" (");
        made.text(cut(text, *name));
        made.say(" nil)");
    }
    made.into_bytes()
}

/// `((when test) value)` as two bindings of no name.
fn open_test(alloc: Global, edited: &mut Edited, item: Span, binder: Span) -> Result<(), NoMemory> {
    let text = edited.text.to_vec(alloc)?;
    let binder = form_alone(alloc, &text, binder)?;
    let parts = elements(alloc, &text, binder)?;
    let word = match parts.first() {
        Some(part) => form_alone(alloc, &text, *part)?,
        None => at(binder.start),
    };
    edited.replace(alloc, at(item.end.saturating_sub(1)), b")")?;
    edited.replace(alloc, at(binder.end), b" (unnamed (list ")?;
    edited.replace(alloc, word, UNNAMED)?;
    let first = Span::new(item.start, item.start.saturating_add(1));
    edited.replace(alloc, first, b" ")
}

/// `((mv a b) form)` as bindings of its variables.
fn open_pattern(
    alloc: Global,
    edited: &mut Edited,
    item: Span,
    binder: Span,
) -> Result<(), NoMemory> {
    let text = edited.text.to_vec(alloc)?;
    let names = variables_of(alloc, &text, binder)?;
    let others = other_bindings(alloc, &text, &names)?;
    edited.replace(alloc, at(item.end), &others)?;
    let first = first_name(alloc, &text, &names)?;
    edited.replace(alloc, form_alone(alloc, &text, binder)?, &first)
}

/// A name that binds nothing, as `-` or `&`, or one with a question mark in front.
fn open_name(alloc: Global, edited: &mut Edited, binder: Span) -> Result<(), NoMemory> {
    let first = byte_at(&edited.text, binder.start);
    let word = Span::new(
        binder.start,
        binder
            .start
            .saturating_add(token(&edited.text, binder).len()),
    );
    if first == b'-' || first == b'&' {
        return edited.replace(alloc, word, UNNAMED);
    }
    if first == b'?' && 1 < word.end.saturating_sub(word.start) {
        let mark = Span::new(word.start, word.start.saturating_add(1));
        return edited.replace(alloc, mark, b"");
    }
    Ok(())
}

/// One item of the bindings of `b*`.
fn open_item(alloc: Global, edited: &mut Edited, item: Span) -> Result<(), NoMemory> {
    let item = form_alone(alloc, &edited.text, item)?;
    let parts = elements(alloc, &edited.text, item)?;
    let Some(binder) = parts.first().copied() else {
        return Ok(());
    };
    let is_alone = parts.len() == 1;
    drop(parts);
    if byte_at(&edited.text, binder.start) != b'(' {
        return open_name(alloc, edited, binder);
    }
    if is_alone {
        // (such as `((object x))`, which binds fields of x)
        return edited.replace(alloc, item, b"(unnamed nil)");
    }
    let inner = elements(alloc, &edited.text, binder)?;
    let is_test = is_among(
        head_of(&edited.text, &inner),
        "when unless if when! unless! if!",
    );
    drop(inner);
    if is_test {
        open_test(alloc, edited, item, binder)
    } else {
        open_pattern(alloc, edited, item, binder)
    }
}

/// A term `(b* bindings form ..)` as a `let*`. Whether it has such parts.
pub(crate) fn open_b_star(
    alloc: Global,
    edited: &mut Edited,
    term: Span,
) -> Result<bool, NoMemory> {
    let parts = elements(alloc, &edited.text, term)?;
    if parts.len() < 3 {
        return Ok(false);
    }
    let first = parts[2];
    let word = form_alone(alloc, &edited.text, parts[0])?;
    let items = elements(alloc, &edited.text, parts[1])?;
    let is_long = 3 < parts.len();
    let end = form_alone(alloc, &edited.text, term)?.end;
    if is_long {
        edited.replace(alloc, at(end.saturating_sub(1)), b")")?;
        edited.replace(alloc, at(first.start), b"(list ")?;
    }
    for item in items.iter().rev() {
        open_item(alloc, edited, *item)?;
    }
    edited.replace(alloc, word, b"let*")?;
    Ok(true)
}

/// A term `(mv-let (name ..) form body)` as a `let*`. Whether it has such parts.
pub(crate) fn open_mv_let(
    alloc: Global,
    edited: &mut Edited,
    term: Span,
) -> Result<bool, NoMemory> {
    let text = edited.text.to_vec(alloc)?;
    let parts = elements(alloc, &text, term)?;
    if parts.len() < 4 {
        return Ok(false);
    }
    let binder = form_alone(alloc, &text, parts[1])?;
    let names = words_in(alloc, &text, &[binder])?;
    let between = Span::new(
        form_alone(alloc, &text, parts[2])?.end,
        parts[parts.len() - 1].start,
    );
    let word = form_alone(alloc, &text, parts[0])?;
    let mut behind = Report::new(alloc);
    behind.say(")");
    behind.text(&other_bindings(alloc, &text, &names)?);
    behind.say(") ");
    edited.replace(alloc, between, &behind.into_bytes()?)?;
    let mut front = Report::new(alloc);
    front.say("((");
    front.text(&first_name(alloc, &text, &names)?);
    edited.replace(alloc, binder, &front.into_bytes()?)?;
    edited.replace(alloc, word, b"let*")?;
    Ok(true)
}
