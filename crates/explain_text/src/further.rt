//! The faults behind the one at which a run stops.

use crate::codes::{Fault, words_of};
use crate::known::{granted_by, has_granted, instead_of_term, is_plain};
use crate::message::{Refusal, Said};
use crate::naming::NamingShelf;
use crate::refusal::{Mark, explain_span, put_constant_fault, put_form_fault, put_open};
use crate::sources::text_of;
use crate::telling::{Telling, fault_of, key_of};
use book_faults::{Cause, Found, Judge, Start, Step, Survey, token, without_package};
use event_world::EventFault;
use explain_findings::FormFault;
use explain_report::Report;
use gl_base::limits::Limits;
use gl_base::shelf::Shelf;
use gl_logic::{NoMemory, Texts};
use gl_translate::TermFault;
use sexp_reader::ReadCode;
use std::alloc::Global;
use std::thread::Threads;

/// How many steps are made: more than a list of books has forms.
const MOST_STEPS: usize = 300_000_000;

/// How a run is refused: the name of the book that is run, that of the text at fault, why, the form there, and what is said of it.
#[derive(Drop)]
pub(crate) struct First {
    pub book: Vec<u8>,
    pub file: Vec<u8>,
    pub fault: Fault,
    pub event: Vec<u8>,
    pub said: Said,
}

/// What is told of a list of books, beginning with its first fault.
#[derive(Drop)]
struct Rest {
    telling: Telling,
    first: Option<(Vec<u8>, Fault)>,
    granted: Vec<&'static str>,
}

impl Rest {
    /// Whether a fault is the one at which the run stopped, which is told already.
    fn takes_first(
        &mut self,
        alloc: Global,
        survey: &Survey,
        found: &Found,
    ) -> Result<bool, NoMemory> {
        let is_first = match &self.first {
            Some((file, fault)) => {
                file.as_slice() == survey.name(found.file) && *fault == fault_of(found.cause)
            }
            None => false,
        };
        if is_first {
            self.first = None;
            self.telling
                .name_first(key_of(alloc, survey, found)?, found.file)?;
        }
        Ok(is_first)
    }

    /// Whether a function is one of a book that is to be included in place of one of ACL2's.
    fn is_granted(&self, found: &Found) -> bool {
        if found.cause
            != Cause::Form(FormFault::Event(EventFault::Term(TermFault::UnknownFunction)))
        {
            return false;
        }
        match instead_of_term(without_package(token(&found.event, found.part))) {
            Some(instead) => has_granted(&self.granted, instead),
            None => false,
        }
    }

    /// Keeps which words a refused form that includes a book of ACL2 was to bring.
    fn grant(&mut self, fault: Fault, event: &[u8]) -> Result<(), NoMemory> {
        if fault == Fault::Form(FormFault::Event(EventFault::BadEvent)) {
            if let Some(instead) = granted_by(event) {
                self.granted.push(instead)?;
            }
        }
        Ok(())
    }
}

/// What is said of a fault.
fn said_of(
    alloc: Global,
    rest: &mut Rest,
    survey: &Survey,
    found: &Found,
    texts: &mut Texts,
) -> Result<Said, NoMemory> {
    let mut report = Report::new(alloc);
    let fault = fault_of(found.cause);
    let refusal = Refusal {
        file: survey.name(found.file),
        text: survey.text(found.file),
        line: 0,
        column: 0,
        fault,
    };
    let mark = Mark {
        span: found.span,
        event: &found.event,
        part: found.part,
        around: found.around,
    };
    match found.cause {
        Cause::Text(code) => {
            explain_span(alloc, &mut report, &refusal, found.span, &rest.granted);
            if code == ReadCode::EndInside {
                put_open(&mut report, &refusal, found.around.start);
            }
        }
        Cause::Form(FormFault::Constant(_)) => put_constant_fault(
            alloc,
            &mut report,
            &refusal,
            found.span,
        ),
        Cause::Form(FormFault::Event(fault)) => {
            let judge = Judge {
                world: survey.state().world(),
                memoized: survey.state().memoized(),
                fault,
            };
            put_form_fault(alloc, &mut report, &refusal, &judge, texts, mark)?;
        }
    }
    if !has_own_help(found) {
        rest.telling.put_help_once(&mut report, fault)?;
    }
    Said::of(report)
}

/// Whether a fault is that of a form whose help says all.
fn has_own_help(found: &Found) -> bool {
    found.cause == Cause::Form(FormFault::Event(EventFault::BadEvent)) && is_plain(&found.event)
}

/// Tells a fault, or puts its place with the cause that it shares.
fn tell_one(
    alloc: Global,
    rest: &mut Rest,
    survey: &Survey,
    found: &Found,
    texts: &mut Texts,
) -> Result<(), NoMemory> {
    rest.grant(fault_of(found.cause), &found.event)?;
    rest.telling.keep_foreign(alloc, found)?;
    if rest.takes_first(alloc, survey, found)? {
        return Ok(());
    }
    if rest.is_granted(found) || rest.telling.joins(alloc, survey, found)? {
        return Ok(());
    }
    let said = if rest.telling.has_room() {
        said_of(alloc, rest, survey, found, texts)?
    } else {
        Said::of(Report::new(alloc))?
    };
    rest.telling
        .tell(key_of(alloc, survey, found)?, found.file, said)
}

/// Opens a text that the run has read, and goes on with it.
fn open_text<S: Shelf + Drop>(
    alloc: Global,
    survey: &mut Survey,
    shelf: &mut NamingShelf<S>,
    name: &[u8],
) -> Result<Step, NoMemory> {
    match text_of(alloc, shelf, name)? {
        Some(text) => survey.enter(alloc, name, text),
        None => {
            survey.pass();
            Ok(Step::Faults(Vec::new(alloc)))
        }
    }
}

/// Walks the list of books to its end.
fn walk<R: Threads + Sync, S: Shelf + Drop>(
    rt: &R,
    alloc: Global,
    limits: &Limits,
    rest: &mut Rest,
    survey: &mut Survey,
    texts: &mut Texts,
    shelf: &mut NamingShelf<S>,
) -> Result<(), NoMemory> {
    for _ in 0..MOST_STEPS {
        let step = match survey.step(rt, alloc, limits, texts)? {
            Step::Wants(name) => open_text(alloc, survey, shelf, &name)?,
            step => step,
        };
        match step {
            Step::Faults(faults) => {
                for found in &faults {
                    tell_one(alloc, rest, survey, found, texts)?;
                }
            }
            _ => return Ok(()),
        }
    }
    Ok(())
}

/// Puts all faults of a list of books that is refused, from the first on, whose message is given.
pub(crate) fn put_faults<R: Threads + Sync, S: Shelf + Drop>(
    rt: &R,
    alloc: Global,
    limits: &Limits,
    first: First,
    start: Start,
    texts: &mut Texts,
    shelf: &mut NamingShelf<S>,
) -> Result<Said, NoMemory> {
    let mut rest = Rest {
        telling: Telling::new(alloc),
        first: None,
        granted: Vec::new(alloc),
    };
    let First {
        book,
        file,
        fault,
        event,
        said,
    } = first;
    rest.telling.tell(Vec::new(alloc), 0, said)?;
    rest.grant(fault, &event)?;
    let _first = rest.telling.takes_code(words_of(fault).code)?;
    rest.first = Some((file, fault));
    let mut survey = Survey::new(alloc, start);
    if let Step::Faults(faults) = open_text(alloc, &mut survey, shelf, &book)? {
        for found in &faults {
            tell_one(alloc, &mut rest, &survey, found, texts)?;
        }
    }
    walk(rt, alloc, limits, &mut rest, &mut survey, texts, shelf)?;
    rest.telling.into_said(alloc, &survey, texts)
}
