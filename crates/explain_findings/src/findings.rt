//! What is found out of an event that asks for a look.

use crate::advice::advice_of;
use crate::asker::Asker;
use crate::cover::put_cover;
use crate::evaluation::{put_on_input, put_parts};
use crate::forms::element;
use crate::vacuity::put_vacuity;
use explain_report::{Cause, Found, Input, Report, Verdict};
use gl_logic::{NoMemory, Texts, Tree};
use std::rt::Clock;
use std::thread::Threads;

/// Puts what an asserted term is made of.
fn put_assert<R: Threads + Sync>(
    asker: &Asker<R>,
    texts: &mut Texts,
    report: &mut Report,
    form: &Tree,
) -> Result<(), NoMemory> {
    match element(form, 1) {
        Some(term) => put_parts(asker, texts, report, term, &[]),
        None => Ok(()),
    }
}

/// Puts what is found out of an event that is undecided.
fn put_undecided<R: Threads + Sync + Clock>(
    asker: &Asker<R>,
    texts: &mut Texts,
    report: &mut Report,
    form: &Tree,
    inputs: &[Input],
    cause: Cause,
) -> Result<(), NoMemory> {
    if let Cause::Uncovered(case, variable) = cause {
        return put_cover(asker, texts, report, form, case, variable);
    }
    if !inputs.is_empty() {
        put_on_input(asker, texts, report, form, inputs)?;
    }
    Ok(())
}

/// Puts what is found out of the event of a form, by what came of it.
fn put_found<R: Threads + Sync + Clock>(
    asker: &Asker<R>,
    texts: &mut Texts,
    report: &mut Report,
    form: &Tree,
    found: &Found,
) -> Result<(), NoMemory> {
    match found.verdict {
        Verdict::Vacuous => put_vacuity(asker, texts, report, form),
        Verdict::Refuted => put_on_input(asker, texts, report, form, &found.inputs),
        Verdict::Failed => put_assert(asker, texts, report, form),
        Verdict::Undecided => match found.cause {
            Some(cause) => put_undecided(asker, texts, report, form, &found.inputs, cause),
            None => Ok(()),
        },
        _ => Ok(()),
    }
}

/// Puts what is said of an event that asks for a look, by what came of it: what that means, what is found out of the event of
/// its form in the state in front of it, and what to try. Of a refusal, and of an event that asks for none, nothing.
pub fn put_finding<R: Threads + Sync + Clock>(
    asker: &Asker<R>,
    texts: &mut Texts,
    report: &mut Report,
    form: &Tree,
    found: &Found,
) -> Result<(), NoMemory> {
    let Some(advice) = advice_of(found) else {
        return Ok(());
    };
    advice.put_meaning(report);
    put_found(asker, texts, report, form, found)?;
    advice.put_help(report);
    Ok(())
}
