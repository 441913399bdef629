//! How many arguments a call has, and how many its head takes.

use book_faults::{Judge, Span, elements, head_of, is_word, token, whole};
use explain_findings::is_among;
use explain_report::Report;
use gl_logic::{FnId, NoMemory, Texts, World};
use std::alloc::Global;

/// How many counts of arguments are tried.
const MOST_COUNTED: u64 = 9;

/// How many arguments a definition takes.
fn count_taken(head: &[u8], world: &World, texts: &Texts) -> Option<u64> {
    for number in 0..world.count() {
        let def = world.def(FnId { number });
        if is_word(head, texts.text(def.name)) {
            return Some(def.formals.len());
        }
    }
    None
}

/// An event with a call of a head on so many arguments.
fn call_text(alloc: Global, head: &[u8], count: u64) -> Result<Vec<u8>, NoMemory> {
    let mut event = Report::new(alloc);
    event.say("(value-triple (");
    event.text(head);
    for _ in 0..count {
        event.say(" nil");
    }
    event.say("))");
    event.into_bytes()
}

/// Whether a call of a head is none of another number of arguments than so many.
fn takes_count(
    alloc: Global,
    judge: &Judge,
    texts: &mut Texts,
    head: &[u8],
    count: u64,
) -> Result<bool, NoMemory> {
    let event = call_text(alloc, head, count)?;
    Ok(!judge.refuses(alloc, texts, &event)?)
}

/// The counts of arguments, up to so many, with which a call of a head is none of another number.
fn counts_taken(
    alloc: Global,
    judge: &Judge,
    texts: &mut Texts,
    head: &[u8],
) -> Result<Vec<u64>, NoMemory> {
    let mut counts = Vec::new(alloc);
    for count in 0..MOST_COUNTED {
        if takes_count(alloc, judge, texts, head, count)? {
            counts.push(count)?;
        }
    }
    Ok(counts)
}

/// How many arguments a head takes; nothing where it takes any number.
fn put_taken_counts(report: &mut Report, counts: &[u64]) {
    if counts.len() as u64 == MOST_COUNTED {
        return;
    }
    let mut between = ", and it takes ";
    for count in counts {
        report.say(between);
        report.number(*count);
        between = " or ";
    }
}

/// Puts how many arguments a head takes, which may be that of the definition itself; nothing where it takes any number.
fn put_taken(
    alloc: Global,
    report: &mut Report,
    judge: &Judge,
    texts: &mut Texts,
    head: &[u8],
    own: Option<u64>,
) -> Result<(), NoMemory> {
    match own.or(count_taken(head, judge.world, texts)) {
        Some(count) => put_taken_counts(report, &[count]),
        None => put_taken_counts(report, &counts_taken(alloc, judge, texts, head)?),
    }
    Ok(())
}

/// How many formals a definition has, where it is the one of a head.
fn own_count(alloc: Global, event: &[u8], head: &[u8]) -> Result<Option<u64>, NoMemory> {
    let parts = elements(alloc, event, whole(event))?;
    if let (Some(name), Some(formals)) = (parts.get(1), parts.get(2)) {
        if is_word(head_of(event, &parts), b"defun") && is_word(token(event, *name), head) {
            return Ok(Some(elements(alloc, event, *formals)?.len() as u64));
        }
    }
    Ok(None)
}

/// Puts how many arguments stand in a call, and how many its head takes.
pub(crate) fn put_counts(
    alloc: Global,
    report: &mut Report,
    judge: &Judge,
    texts: &mut Texts,
    event: &[u8],
    call: Span,
) -> Result<(), NoMemory> {
    let parts = elements(alloc, event, call)?;
    let count = parts.len().saturating_sub(1);
    let head = head_of(event, &parts);
    drop(parts);
    report.say("   = help: ");
    report.number(count as u64);
    report.say(" stand here");
    let own = own_count(alloc, event, head)?;
    put_taken(alloc, report, judge, texts, head, own)?;
    if is_among(head, "- < <= > >= /=") {
        report.say(": put one call into another");
    }
    report.say("\n");
    Ok(())
}
