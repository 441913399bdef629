//! The message of a fault, in words and for programs.

use crate::codes::{Fault, words_of};
use crate::excerpt::{put_excerpt, put_part, put_place};
use book_faults::{Span, column_of, line_of};
use explain_report::{At, Fault as Told, Report};
use gl_logic::NoMemory;
use std::alloc::Global;

/// How many bytes of a form are named in words.
pub(crate) const MOST_NAMED: usize = 60;

/// The text that a refusal is of, and where.
#[derive(Clone, Copy)]
pub(crate) struct Refusal<'a> {
    pub file: &'a [u8],
    pub text: &'a [u8],
    pub line: u32,
    pub column: u32,
    pub fault: Fault,
}

/// What a message says: the part of the text that is marked, whether it is named in front of the words, and these.
#[derive(Clone, Copy)]
pub(crate) struct Marked {
    pub span: Span,
    pub is_named: bool,
    pub title: &'static str,
}

/// What is said of faults: in words, and for programs.
#[derive(Drop)]
pub(crate) struct Said {
    pub message: Vec<u8>,
    pub faults: Vec<Told>,
}

impl Said {
    /// What a report says.
    pub(crate) fn of(report: Report) -> Result<Said, NoMemory> {
        let mut report = report;
        let faults = report.take_faults();
        let message = report.into_bytes()?;
        Ok(Said { message, faults })
    }
}

/// Puts what helps, on a line of its own.
pub(crate) fn put_help(report: &mut Report, help: &str) {
    if help.is_empty() {
        return;
    }
    report.say("   = help: ");
    report.say(help);
    report.say("\n");
}

/// Puts what is wrong, behind the name of the part that is at fault, where that is named.
fn put_title(report: &mut Report, refusal: &Refusal, marked: Marked) {
    if marked.is_named {
        report.say("`");
        put_part(report, refusal.text, marked.span, MOST_NAMED);
        report.say("` ");
    }
    report.say(marked.title);
}

/// The place of an offset of a text.
fn at(text: &[u8], offset: usize) -> At {
    At {
        line: line_of(text, offset),
        column: column_of(text, offset),
    }
}

/// What is told of a refusal to programs.
pub(crate) fn for_programs(
    alloc: Global,
    refusal: &Refusal,
    marked: Marked,
) -> Result<Told, NoMemory> {
    let mut title = Report::new(alloc);
    put_title(&mut title, refusal, marked);
    Told::new(
        alloc,
        words_of(refusal.fault).code,
        title.into_bytes()?,
        refusal.file,
        at(refusal.text, marked.span.start),
        at(refusal.text, marked.span.end),
    )
}

/// What is told to programs of a fault whose text is not at hand.
pub(crate) fn told_without_text(
    alloc: Global,
    file: &[u8],
    line: u32,
    column: u32,
    fault: Fault,
) -> Result<Told, NoMemory> {
    let words = words_of(fault);
    let at = At {
        line: u64::from(line),
        column: u64::from(column),
    };
    let title = words.title.as_bytes().to_vec(alloc)?;
    Told::new(alloc, words.code, title, file, at, at)
}

/// Puts the first lines of a message: place, code and words, and the excerpt.
pub(crate) fn put_message(alloc: Global, report: &mut Report, refusal: &Refusal, marked: Marked) {
    report.fault(for_programs(alloc, refusal, marked));
    put_place(report, refusal.file, refusal.text, marked.span.start);
    report.say("error[");
    report.say(words_of(refusal.fault).code);
    report.say("]: ");
    put_title(report, refusal, marked);
    report.say("\n");
    put_excerpt(report, refusal.text, marked.span);
}

/// Puts the words of a fault whose text is not at hand.
pub(crate) fn put_words(report: &mut Report, fault: Fault) {
    let words = words_of(fault);
    report.say("error[");
    report.say(words.code);
    report.say("]: ");
    report.say(words.title);
    report.say("\n");
    put_help(report, words.help);
}
