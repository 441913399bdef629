//! The tests that govern a call in the text of a definition, its measure, and the row of the table of steps that is nearest.

use crate::excerpt::put_part;
use crate::message::MOST_NAMED;
use book_faults::{Span, element_of, elements, form_alone, head_of, is_word, token, whole};
use explain_findings::is_among;
use explain_report::Report;
use gl_logic::NoMemory;
use std::alloc::Global;

/// How deep a call is looked for.
const MOST_DEEP: usize = 1000;

/// The number of the element in which an offset stands.
fn number_around(parts: &[Span], offset: usize) -> Option<usize> {
    for (i, part) in parts.iter().enumerate() {
        if part.start <= offset && offset < part.end {
            return Some(i);
        }
    }
    None
}

/// The forms around a call inside a form, the outermost first.
fn forms_around(alloc: Global, text: &[u8], form: Span, call: Span) -> Result<Vec<Span>, NoMemory> {
    let mut forms = Vec::new(alloc);
    let mut around = form;
    for _ in 0..MOST_DEEP {
        if call.start <= around.start {
            break;
        }
        forms.push(around)?;
        let parts = elements(alloc, text, around)?;
        match number_around(&parts, call.start) {
            Some(number) if number < parts.len() => around = parts[number],
            _ => break,
        }
    }
    Ok(forms)
}

/// Puts a test, and whether it holds around the call.
fn put_test(
    alloc: Global,
    report: &mut Report,
    text: &[u8],
    test: Span,
    holds: bool,
) -> Result<(), NoMemory> {
    let form = form_alone(alloc, text, test)?;
    if is_word(token(text, form), b"t") {
        return Ok(());
    }
    report.say("   = note: around it ");
    put_part(report, text, form, MOST_NAMED);
    report.say(if holds { " holds\n" } else { " is false\n" });
    Ok(())
}

/// Puts what the tests of the elements up to a number are around it.
fn put_tests(
    alloc: Global,
    report: &mut Report,
    text: &[u8],
    parts: &[Span],
    number: usize,
    holds: bool,
) -> Result<(), NoMemory> {
    for (i, part) in parts.iter().enumerate() {
        if 1 <= i && i < number {
            put_test(alloc, report, text, *part, holds)?;
        }
    }
    Ok(())
}

/// The first element of a list, the test of a clause.
fn test_of(alloc: Global, text: &[u8], clause: Span) -> Result<Option<Span>, NoMemory> {
    Ok(elements(alloc, text, clause)?.first().copied())
}

/// Puts what the tests of a `cond` are around a part of a clause.
fn put_clauses(
    alloc: Global,
    report: &mut Report,
    text: &[u8],
    parts: &[Span],
    number: usize,
    offset: usize,
) -> Result<(), NoMemory> {
    for (i, part) in parts.iter().enumerate() {
        if let Some(test) = test_of(alloc, text, *part)? {
            if 1 <= i && i < number {
                put_test(alloc, report, text, test, false)?;
            } else if i == number && test.end <= offset {
                put_test(alloc, report, text, test, true)?;
            }
        }
    }
    Ok(())
}

/// Puts what one form around a call tells of the tests there.
fn put_around(
    alloc: Global,
    report: &mut Report,
    text: &[u8],
    parts: &[Span],
    number: usize,
    offset: usize,
) -> Result<(), NoMemory> {
    let head = head_of(text, parts);
    if is_word(head, b"if") {
        put_tests(alloc, report, text, parts, number.min(2), number == 2)
    } else if is_word(head, b"and") {
        put_tests(alloc, report, text, parts, number, true)
    } else if is_word(head, b"or") {
        put_tests(alloc, report, text, parts, number, false)
    } else if is_word(head, b"cond") {
        put_clauses(alloc, report, text, parts, number, offset)
    } else {
        Ok(())
    }
}

/// Puts the tests that govern a call inside forms, from the outside in.
fn put_governing(
    alloc: Global,
    report: &mut Report,
    text: &[u8],
    forms: &[Span],
    call: Span,
) -> Result<(), NoMemory> {
    for form in forms {
        let parts = elements(alloc, text, *form)?;
        if let Some(number) = number_around(&parts, call.start) {
            put_around(alloc, report, text, &parts, number, call.start)?;
        }
    }
    Ok(())
}

/// What stands behind the keyword of a measure among these.
fn behind_measure(text: &[u8], words: &[Span]) -> Option<Span> {
    let mut is_next = false;
    for word in words {
        if is_next {
            return Some(*word);
        }
        is_next = is_word(token(text, *word), b":measure");
    }
    None
}

/// What stands behind the keyword of a measure in a list.
fn measure_of(alloc: Global, text: &[u8], list: Span) -> Result<Option<Span>, NoMemory> {
    Ok(behind_measure(text, &elements(alloc, text, list)?))
}

/// The measure that a list of declarations states.
fn measure_in(alloc: Global, text: &[u8], list: Span) -> Result<Option<Span>, NoMemory> {
    for part in &elements(alloc, text, list)? {
        if let Some(measure) = measure_of(alloc, text, *part)? {
            return Ok(Some(form_alone(alloc, text, measure)?));
        }
    }
    Ok(None)
}

/// Whether a part is a list of declarations.
fn is_declaration(alloc: Global, text: &[u8], part: Span) -> Result<bool, NoMemory> {
    Ok(is_word(head_of(text, &elements(alloc, text, part)?), b"declare"))
}

/// Puts the measure of a definition.
fn put_measure(
    alloc: Global,
    report: &mut Report,
    text: &[u8],
    parts: &[Span],
) -> Result<(), NoMemory> {
    for part in parts {
        if is_declaration(alloc, text, *part)? {
            if let Some(measure) = measure_in(alloc, text, *part)? {
                report.say("   = note: the measure that is stated is ");
                put_part(report, text, measure, MOST_NAMED);
                report.say("\n");
                return Ok(());
            }
        }
    }
    report.say("   = note: no measure is stated, so (acl2-count v) is tried of each formal v\n");
    Ok(())
}

/// What the row of the table of steps says that is nearest to an argument, which begins so; none where there is no such row.
fn row_of(head: &[u8], number: &[u8]) -> Option<&'static str> {
    let is_negative = match number {
        [b'-', _, ..] => true,
        _ => false,
    };
    if is_among(head, "- 1-") || is_word(head, b"+") && is_negative {
        Some(
            "`(- v k)` is a step of `(nfix v)`, and with k = 1 of `(acl2-count v)`, where `(zp v)` is false, `(posp v)` holds, or `(integerp v)` and `(< 0 v)` do",
        )
    } else if is_among(head, "cdr car rest cddr cdddr") {
        Some(
            "`(cdr v)` is a step of `(acl2-count v)` and of `(len v)`, where `(consp v)` holds, or `(endp v)` or `(atom v)` is false; `(car v)` of the first alone",
        )
    } else if is_among(head, "floor ash") {
        Some(
            "`(floor v k)` with k >= 2 and `(ash v -k)` with k >= 1 are steps of `(acl2-count v)` and of `(nfix v)`, where `(zp v)` is false or `(posp v)` holds",
        )
    } else if is_among(head, "+ 1+") {
        Some(
            "`(+ v k)` is a step of `(nfix (- b v))`, with b a formal that stays, where `(zp (- b v))` is false, or `(< v b)`, `(natp v)` and `(natp b)` hold; state `(declare (xargs :measure (nfix (- b v))))`",
        )
    } else {
        None
    }
}

/// The row that is nearest to an argument.
fn row_of_argument(
    alloc: Global,
    text: &[u8],
    argument: Span,
) -> Result<Option<&'static str>, NoMemory> {
    let parts = elements(alloc, text, argument)?;
    let number = match parts.last() {
        Some(part) => token(text, *part),
        None => b"",
    };
    let first = match parts.get(1) {
        Some(part) => token(text, *part),
        None => b"",
    };
    let is_first_negative = matches!(first, [b'-', _, ..]);
    Ok(row_of(
        head_of(text, &parts),
        if is_first_negative { first } else { number },
    ))
}

/// Puts the row that is nearest to an argument. Whether there is one.
fn put_row_of(
    alloc: Global,
    report: &mut Report,
    text: &[u8],
    argument: Span,
) -> Result<bool, NoMemory> {
    let Some(row) = row_of_argument(alloc, text, argument)? else {
        return Ok(false);
    };
    let form = form_alone(alloc, text, argument)?;
    report.say("   = note: of ");
    put_part(report, text, form, MOST_NAMED);
    report.say(" the nearest row is: ");
    report.say(row);
    report.say("\n");
    Ok(true)
}

/// The `let`s among forms.
fn lets_among(alloc: Global, text: &[u8], forms: &[Span]) -> Result<Vec<Span>, NoMemory> {
    let mut lets = Vec::new(alloc);
    for form in forms {
        if is_among(head_of(text, &elements(alloc, text, *form)?), "let let*") {
            lets.push(*form)?;
        }
    }
    Ok(lets)
}

/// Whether a word is among the formals of a definition.
fn is_formal(alloc: Global, text: &[u8], definition: Span, word: &[u8]) -> Result<bool, NoMemory> {
    let parts = elements(alloc, text, definition)?;
    let Some(formals) = parts.get(2) else {
        return Ok(false);
    };
    for formal in &elements(alloc, text, *formals)? {
        if is_word(token(text, *formal), word) {
            return Ok(true);
        }
    }
    Ok(false)
}

/// The first formal of a definition that a `let` binds anew.
fn bound_anew<'a>(
    alloc: Global,
    text: &'a [u8],
    definition: Span,
    binder: Span,
) -> Result<&'a [u8], NoMemory> {
    let bindings = element_of(alloc, text, binder, 1)?;
    for binding in &elements(alloc, text, bindings)? {
        if let Some(name) = elements(alloc, text, *binding)?.first() {
            let name = token(text, *name);
            if is_formal(alloc, text, definition, name)? {
                return Ok(name);
            }
        }
    }
    Ok(b"")
}

/// Puts which formal is bound anew around a call by a `let`, inside which a row of the table is none for it.
fn put_bound_anew(
    alloc: Global,
    report: &mut Report,
    text: &[u8],
    definition: Span,
    lets: &[Span],
) -> Result<(), NoMemory> {
    for binder in lets {
        let name = bound_anew(alloc, text, definition, *binder)?;
        if !name.is_empty() {
            report.say("   = note: `");
            report.text(name);
            report.say(
                "` is what a `let` around the call binds, and not the formal: let that bind another name, or leave the binding out\n",
            );
            return Ok(());
        }
    }
    Ok(())
}

/// Puts the row of the table of steps that is nearest to a call, inside a `let` or not.
fn put_row(
    alloc: Global,
    report: &mut Report,
    text: &[u8],
    call: Span,
    is_in_let: bool,
) -> Result<(), NoMemory> {
    for (i, part) in elements(alloc, text, call)?.iter().enumerate() {
        if 1 <= i && put_row_of(alloc, report, text, *part)? {
            return Ok(());
        }
    }
    report.say("   = note: no argument is made smaller as a row of the table has it");
    if is_in_let {
        report.say(
            "; what `let` binds is not looked up: write the term that it binds itself in the call, and let it bind no name of a formal",
        );
    }
    report.say("\n");
    Ok(())
}

/// The definition of an event in which an offset stands.
fn definition_around(alloc: Global, event: &[u8], offset: usize) -> Result<Span, NoMemory> {
    let all = whole(event);
    let parts = elements(alloc, event, all)?;
    if is_word(head_of(event, &parts), b"mutual-recursion") {
        if let Some(number) = number_around(&parts, offset) {
            if let Some(part) = parts.get(number) {
                return Ok(*part);
            }
        }
    }
    Ok(all)
}

/// Puts what a recursive call stands under: the measure, the tests that govern it, and the row that is nearest.
pub(crate) fn put_call(
    alloc: Global,
    report: &mut Report,
    event: &[u8],
    call: Span,
) -> Result<(), NoMemory> {
    let definition = definition_around(alloc, event, call.start)?;
    put_measure(alloc, report, event, &elements(alloc, event, definition)?)?;
    let forms = forms_around(alloc, event, definition, call)?;
    put_governing(alloc, report, event, &forms, call)?;
    let lets = lets_among(alloc, event, &forms)?;
    put_bound_anew(alloc, report, event, definition, &lets)?;
    put_row(alloc, report, event, call, !lets.is_empty())
}
