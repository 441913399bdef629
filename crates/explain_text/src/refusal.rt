//! A refusal in words: its place, what is wrong there, the line with marks under the part at fault, and help.

use crate::below::{put_below, put_constant_below};
use crate::codes::{Fault, words_of};
use crate::counts::put_counts;
use crate::excerpt::{put_excerpt, put_part, put_place};
use crate::expected::{put_expected, put_expected_shape, put_odd_options};
use crate::governing::put_call;
use crate::known::{
    Nearest, has_granted, includes_book, instead_of_book, instead_of_event, instead_of_shape,
    instead_of_term, is_plain, nearest_constant, nearest_event, nearest_function, string_in,
};
use crate::message::{MOST_NAMED, Marked, Refusal, put_help, put_message};
use crate::missing::put_missing;
use book_faults::{
    AtFault, Judge, Span, at_fault, behind_forms, byte_at, cut, element_of, elements, form_alone,
    head_of, is_word, offset_of, terms_of_event, theorem_bindings, token, unbound, whole,
    without_package,
};
use book_shelf::ShelfCode;
use event_world::EventFault;
use explain_findings::{FormFault, bindings_of_text};
use explain_report::Report;
use gl_logic::{NoMemory, Texts, World};
use gl_translate::TermFault;
use sexp_reader::ReadCode;
use std::alloc::Global;

/// The part of a form that is at fault: where it stands in its text, the form, and where in that it and what is around it stand.
#[derive(Clone, Copy)]
pub(crate) struct Mark<'a> {
    pub span: Span,
    pub event: &'a [u8],
    pub part: Span,
    pub around: Span,
}

/// What is wrong with a part of a form.
pub(crate) fn title_of_part(fault: Fault, event: &[u8], part: Span, around: Span) -> &'static str {
    match fault {
        Fault::Form(FormFault::Event(EventFault::BadEvent))
            if includes_book(event) && instead_of_book(string_in(event)).is_some() => {
            "includes a book of ACL2's"
        }
        Fault::Form(FormFault::Event(EventFault::BadBindings)) if part != around => "is no binding",
        _ => words_of(fault).title,
    }
}

/// What is wrong with a part: of all bindings which of the two things it may be.
fn title_of(
    alloc: Global,
    texts: &mut Texts,
    refusal: &Refusal,
    mark: Mark,
) -> Result<&'static str, NoMemory> {
    let is_bindings = refusal.fault == Fault::Form(FormFault::Event(EventFault::BadBindings));
    if !is_bindings || mark.part != mark.around {
        return Ok(title_of_part(refusal.fault, mark.event, mark.part, mark.around));
    }
    if bindings_of_text(alloc, texts, cut(mark.event, mark.around))?.is_some() {
        Ok("are bindings that lack a variable of the theorem")
    } else {
        Ok("are no bindings")
    }
}

/// Where the form of a refusal begins: at the end where the text has no such place.
fn start_of(alloc: Global, refusal: &Refusal) -> Result<usize, NoMemory> {
    match offset_of(alloc, refusal.text, refusal.line, refusal.column)? {
        Some(offset) => Ok(offset),
        None => Ok(refusal.text.len()),
    }
}

/// The form of a refusal.
pub(crate) fn form_of(alloc: Global, refusal: &Refusal) -> Result<Span, NoMemory> {
    let start = start_of(alloc, refusal)?;
    form_alone(alloc, refusal.text, Span::new(start, refusal.text.len()))
}

/// Explains a fault of a text, or of the list of texts: the byte, or the form that includes a text.
pub(crate) fn explain_text_fault(
    alloc: Global,
    report: &mut Report,
    refusal: &Refusal,
    is_form: bool,
) -> Result<(), NoMemory> {
    let start = start_of(alloc, refusal)?;
    let span = if is_form {
        form_of(alloc, refusal)?
    } else {
        Span::new(start, start.saturating_add(1))
    };
    explain_span(alloc, report, refusal, span, &[]);
    if refusal.fault == Fault::Shelf(ShelfCode::Text(ReadCode::EndInside)) {
        put_open_form(alloc, report, refusal)?;
    }
    put_help(report, words_of(refusal.fault).help);
    Ok(())
}

/// Explains a fault of a text at a part of it, where it is told already that these books are to be included.
pub(crate) fn explain_span(
    alloc: Global,
    report: &mut Report,
    refusal: &Refusal,
    span: Span,
    granted: &[&'static str],
) {
    let title = words_of(refusal.fault).title;
    let marked = Marked {
        span,
        is_named: false,
        title,
    };
    put_message(alloc, report, refusal, marked);
    if refusal.fault == Fault::Shelf(ShelfCode::Text(ReadCode::BadByte)) {
        put_byte(report, byte_at(refusal.text, span.start));
        put_behind_package(report, word_behind(refusal.text, span.start), granted);
    }
}

/// The word behind the name of a package, of which the first colon stands at an offset; empty where that is none.
pub(crate) fn word_behind(text: &[u8], at: usize) -> &[u8] {
    let start = at.saturating_add(2);
    if cut(text, Span::new(at, start)) == b"::".as_slice() {
        token(text, Span::new(start, text.len()))
    } else {
        b""
    }
}

/// Puts what stands here for a word of ACL2 that stands behind the name of a package: a book that is to be included once alone.
fn put_behind_package(report: &mut Report, word: &[u8], granted: &[&'static str]) {
    if let Some(instead) = instead_of_event(word) {
        put_instead(report, "event", instead);
    } else if let Some(instead) = instead_of_term(word) {
        if !has_granted(granted, instead) {
            put_instead(report, "word", instead);
        }
    }
}

/// Puts what a byte that cannot stand there is for in ACL2, and what stands here for it.
fn put_byte(report: &mut Report, byte: u8) {
    let note = match byte {
        b':' => "for a name of another package, as `bitops::f`, write `f`",
        b'@' =>
            "`,@` is not in the language: behind a comma stands one shape, as `,(g-int 0 1 9)`; else write the elements out",
        b',' => "a comma stands behind a backquote alone",
        b'|' => "a name between bars is written without them, in the letters that names have",
        b'\\' => "a backslash stands in a string or a character alone",
        _ => return,
    };
    report.say("   = note: ");
    report.say(note);
    report.say("\n");
}

/// Explains a constant without a value, at a part of a text.
pub(crate) fn put_constant_fault(
    alloc: Global,
    report: &mut Report,
    refusal: &Refusal,
    span: Span,
) {
    let title = words_of(refusal.fault).title;
    let marked = Marked {
        span,
        is_named: true,
        title,
    };
    put_message(alloc, report, refusal, marked);
}

/// Puts where the form begins that is not closed.
fn put_open_form(alloc: Global, report: &mut Report, refusal: &Refusal) -> Result<(), NoMemory> {
    let start = behind_forms(alloc, refusal.text)?;
    put_open(report, refusal, start);
    Ok(())
}

/// Puts where what is open begins.
pub(crate) fn put_open(report: &mut Report, refusal: &Refusal, start: usize) {
    put_place(report, refusal.file, refusal.text, start);
    report.say("what is open begins here\n");
    put_excerpt(
        report,
        refusal.text,
        Span::new(start, start.saturating_add(1)),
    );
}

/// The name of the function that an event defines; empty where it defines none.
fn own_name(alloc: Global, event: &[u8]) -> Result<&[u8], NoMemory> {
    let parts = elements(alloc, event, whole(event))?;
    match parts.get(1) {
        Some(name) if is_word(head_of(event, &parts), b"defun") => Ok(token(event, *name)),
        _ => Ok(&[]),
    }
}

/// Puts what may be meant by a name that is no function.
fn put_function_help(
    alloc: Global,
    report: &mut Report,
    word: &[u8],
    own: &[u8],
    world: &World,
    texts: &Texts,
) -> Result<(), NoMemory> {
    let word = without_package(word);
    if let Some(instead) = instead_of_term(word) {
        put_instead(report, "word", instead);
        return Ok(());
    }
    put_near(
        report,
        "a function",
        &nearest_function(alloc, word, own, world, texts)?,
    );
    Ok(())
}

/// Puts the nearest name, where there is one.
fn put_near(report: &mut Report, what: &str, nearest: &Nearest) {
    if nearest.name.is_empty() {
        return;
    }
    report.say("   = help: ");
    report.say(what);
    report.say(" of a near name is `");
    report.text(&nearest.name);
    report.say("`\n");
}

/// Puts what may be meant by a constant that there is not: the one that is defined below, or one of a near name.
fn put_constant_help(
    alloc: Global,
    report: &mut Report,
    text: &[u8],
    span: Span,
) -> Result<(), NoMemory> {
    if !put_constant_below(report, text, span) {
        put_near(
            report,
            "a constant",
            &nearest_constant(alloc, cut(text, span), text)?,
        );
    }
    Ok(())
}

/// Puts what stands here for what ACL2 has.
fn put_instead(report: &mut Report, what: &str, instead: &str) {
    report.say("   = help: ACL2's ");
    report.say(what);
    report.say("; here: ");
    report.say(instead);
    report.say("\n");
}

/// Puts what stands here for an event of ACL2, or an event of a near name.
fn put_event_help(alloc: Global, report: &mut Report, word: &[u8]) -> Result<(), NoMemory> {
    let word = without_package(word);
    match instead_of_event(word) {
        Some(instead) => put_instead(report, "event", instead),
        None => put_near(report, "an event", &nearest_event(alloc, word)?),
    }
    Ok(())
}

/// Puts the formals of a definition.
fn put_formals(alloc: Global, report: &mut Report, event: &[u8]) -> Result<(), NoMemory> {
    let all = whole(event);
    let parts = elements(alloc, event, all)?;
    if is_word(head_of(event, &parts), b"defun") {
        if let Some(part) = parts.get(2) {
            let formals = form_alone(alloc, event, *part)?;
            report.say("   = help: the formals are ");
            put_part(report, event, formals, MOST_NAMED);
            report.say("\n");
        }
    }
    Ok(())
}

/// What stands here for the first word of GL's bindings in a part of an event.
pub(crate) fn shape_help(event: &[u8], part: Span) -> Option<&'static str> {
    for (i, byte) in cut(event, part).iter().enumerate() {
        if *byte == b':' {
            let start = part.start.saturating_add(i);
            let instead = instead_of_shape(token(event, Span::new(start, part.end)));
            if instead.is_some() {
                return instead;
            }
        }
    }
    None
}

/// Puts what stands here for the first word of GL's bindings in a part of an event.
fn put_shape_help(report: &mut Report, event: &[u8], part: Span) {
    if let Some(instead) = shape_help(event, part) {
        report.say("   = help: GL's word; here: ");
        report.say(instead);
        report.say("\n");
    }
}

/// Puts the variable of a theorem that its bindings lack, where they are bindings.
fn put_unbound(
    alloc: Global,
    report: &mut Report,
    judge: &Judge,
    texts: &mut Texts,
    event: &[u8],
) -> Result<(), NoMemory> {
    let bindings = theorem_bindings(alloc, texts, event)?;
    if bindings_of_text(alloc, texts, cut(event, bindings))?.is_none() {
        return Ok(());
    }
    let all = whole(event);
    let terms = terms_of_event(alloc, event, all)?;
    for word in &unbound(alloc, judge, texts, event, bindings, &terms)? {
        report.say("   = note: `");
        report.text(cut(event, *word));
        report.say("` is a variable of the theorem and has no shape\n");
    }
    Ok(())
}

/// Puts what bindings lack that begin with a parenthesis and this head.
fn put_unquoted(report: &mut Report, head: &[u8]) {
    if is_word(head, b"auto-bindings") {
        return;
    }
    report.say(if head.is_empty() {
        "   = note: a quote or a backquote is missing in front: `'((x (:g-integer 0 1 2)))`\n"
    } else {
        "   = note: bindings are `'((x (:g-integer 0 1 2)))`, `((x ,(g-int 0 1 3)))` behind a backquote, or `(auto-bindings (:nat x 8) ..)`\n"
    });
}

/// Puts the help that looks at the part at fault.
fn put_help_of_part(
    alloc: Global,
    report: &mut Report,
    judge: &Judge,
    texts: &mut Texts,
    mark: Mark,
) -> Result<(), NoMemory> {
    let Mark {
        event,
        part,
        around,
        ..
    } = mark;
    match judge.fault {
        EventFault::UnknownEvent => { put_event_help(alloc, report, token(event, part)) }
        EventFault::Term(TermFault::UnknownFunction) => {
            let own = own_name(alloc, event)?;
            put_function_help(alloc, report, token(event, part), own, judge.world, texts)
        }
        EventFault::Term(TermFault::UnboundVariable) if byte_at(event, part.start) != b'*' => {
            put_formals(alloc, report, event)
        }
        EventFault::Term(TermFault::WrongCount) => {
            put_counts(alloc, report, judge, texts, event, part)
        }
        EventFault::BadEvent => put_missing(alloc, report, event),
        EventFault::NotAdmitted(_) => put_call(alloc, report, event, part),
        EventFault::Term(TermFault::BadUse) => put_expected(alloc, report, event, around),
        EventFault::BadOption => put_odd_options(alloc, report, event, part),
        EventFault::BadBindings => {
            put_shape_help(report, event, part);
            if part != around {
                put_expected_shape(alloc, report, event, part, around)?;
            } else if byte_at(event, part.start) == b'*' {
                report.say(
                    "   = note: a constant stands for no bindings: write them out behind `:g-bindings`\n",
                );
            } else if byte_at(event, part.start) == b'(' {
                put_unquoted(report, head_of(event, &elements(alloc, event, part)?));
            }
            put_unbound(alloc, report, judge, texts, event)
        }
        _ => Ok(()),
    }
}

/// Explains a form that means no event, in the state in front of it.
pub(crate) fn explain_event_fault(
    alloc: Global,
    report: &mut Report,
    refusal: &Refusal,
    judge: &Judge,
    texts: &mut Texts,
) -> Result<(), NoMemory> {
    let form = form_of(alloc, refusal)?;
    let event = cut(refusal.text, form);
    let AtFault { part, around } = at_fault(alloc, judge, texts, event)?;
    let mark = Mark {
        span: part.moved(form.start),
        event,
        part,
        around,
    };
    put_form_fault(alloc, report, refusal, judge, texts, mark)?;
    if judge.fault != EventFault::BadEvent || !is_plain(event) {
        put_help(report, words_of(refusal.fault).help);
    }
    Ok(())
}

/// Explains the fault of a form whose part is known.
pub(crate) fn put_form_fault(
    alloc: Global,
    report: &mut Report,
    refusal: &Refusal,
    judge: &Judge,
    texts: &mut Texts,
    mark: Mark,
) -> Result<(), NoMemory> {
    let title = title_of(alloc, texts, refusal, mark)?;
    let marked = Marked {
        span: mark.span,
        is_named: true,
        title,
    };
    put_message(alloc, report, refusal, marked);
    put_help_of_part(alloc, report, judge, texts, mark)?;
    match judge.fault {
        EventFault::Term(TermFault::UnknownFunction) => {
            put_below(report, refusal.text, mark.span);
            Ok(())
        }
        EventFault::Term(TermFault::UnboundVariable)
            if byte_at(refusal.text, mark.span.start) == b'*' => {
            put_constant_help(alloc, report, refusal.text, mark.span)
        }
        _ => Ok(()),
    }
}

/// Explains a constant without a value.
pub(crate) fn explain_constant(
    alloc: Global,
    report: &mut Report,
    refusal: &Refusal,
) -> Result<(), NoMemory> {
    let form = form_of(alloc, refusal)?;
    let span = element_of(alloc, refusal.text, form, 2)?;
    put_constant_fault(alloc, report, refusal, span);
    put_help(report, words_of(refusal.fault).help);
    Ok(())
}
