//! The faults of a book that are told: each cause once, with the places of its other uses behind it.

use crate::codes::{Fault, words_of};
use crate::excerpt::put_part;
use crate::known::{
    includes_book, instead_of_book, instead_of_event, instead_of_term, is_shipped, string_in,
};
use crate::message::{MOST_NAMED, Marked, Refusal, Said, for_programs, put_help};
use crate::refusal::{shape_help, title_of_part, word_behind};
use book_faults::{
    Cause, Found, MOST_TOLD, Span, Survey, byte_at, column_of, cut, is_word, line_of, token,
    told_of, without_package, word_around,
};
use event_world::EventFault;
use explain_findings::{FormFault, is_among};
use explain_report::Report;
use gl_logic::{NoMemory, Texts};
use gl_translate::TermFault;
use indexmap::IndexMap;
use sexp_reader::ReadCode;
use std::alloc::Global;

/// How many other places of one cause are told.
const MOST_PLACES: u64 = 12;

/// Words that only ACL2 has, and how many of them make a book one of ACL2's own.
const FOREIGN: &str =
    "define defines defmacro b* mv mv-let mv-list defsection defprod deflist defaggregate defstobj defrec \
    er-let* case-match loop$ defthm defrule";

const MOST_FOREIGN: usize = 3;

/// A fault that is told: its text, what is said of it, and where the other uses of its cause are.
#[derive(Drop)]
struct Told {
    file: usize,
    message: Vec<u8>,
    places: Vec<u8>,
    count: u64,
}

/// The faults that are told, those of them for programs, and the codes that they are of.
#[derive(Drop)]
pub(crate) struct Telling {
    found: Vec<Told>,
    // of each cause its first use, by its number
    causes: IndexMap<Vec<u8>, usize>,
    marked: Vec<explain_report::Fault>,
    codes: Vec<&'static str>,
    // the words that only ACL2 has, each once
    foreign: Vec<Vec<u8>>,
}

/// The fault of a cause.
pub(crate) fn fault_of(cause: Cause) -> Fault {
    match cause {
        Cause::Text(code) => Fault::Shelf(book_shelf::ShelfCode::Text(code)),
        Cause::Form(fault) => Fault::Form(fault),
    }
}

/// Puts what the uses of a term's fault have in common: a word that is missing, or the shipped book that has it; else the text
/// that is at fault.
fn put_term_key(report: &mut Report, found: &Found, fault: TermFault) {
    let word = without_package(token(&found.event, found.part));
    match fault {
        TermFault::UnknownFunction => {
            put_word_key(report, word);
        }
        TermFault::UnboundVariable if byte_at(word, 0) == b'*' => {
            report.say("V6 ");
            report.text(word);
        }
        TermFault::WrongCount => {
            report.say("V5 ");
            report.text(cut(&found.event, found.part));
        }
        TermFault::BadUse => {
            let head = Span::new(found.around.start.saturating_add(1), found.around.end);
            report.say("V7 ");
            report.text(token(&found.event, head));
            report.say(" ");
            report.text(cut(&found.event, found.part));
        }
        _ => {}
    }
}

/// Puts what the uses of an event's fault have in common: a word, a book, or the text that is at fault.
fn put_event_key(report: &mut Report, found: &Found, fault: EventFault) {
    match fault {
        EventFault::UnknownEvent => {
            report.say("V1 ");
            report.text(without_package(token(&found.event, found.part)));
        }
        EventFault::BadEvent if includes_book(&found.event) => {
            report.say("V2 ");
            match instead_of_book(string_in(&found.event)) {
                Some(instead) => report.say(instead),
                None => report.text(&found.event),
            }
        }
        EventFault::BadOption => {
            report.say("V11 ");
            report.text(cut(&found.event, found.part));
        }
        EventFault::BadBindings
            if found.part != found.around || byte_at(&found.event, found.part.start) == b'*' => {
            report.say("V10 ");
            match shape_help(&found.event, found.part) {
                Some(instead) => report.say(instead),
                None => report.text(cut(&found.event, found.part)),
            }
        }
        EventFault::Term(fault) => put_term_key(report, found, fault),
        _ => {}
    }
}

/// Puts the key of a word that is not known.
fn put_word_key(report: &mut Report, word: &[u8]) {
    report.say("V4 ");
    match instead_of_term(word) {
        Some(instead) if is_shipped(instead) => report.say(instead),
        _ => report.text(word),
    }
}

/// Puts what the uses of a byte at fault have in common: the word behind a package, where something stands here for it, as its
/// other uses have it; else the byte.
fn put_byte_key(report: &mut Report, survey: &Survey, found: &Found) {
    let text = survey.text(found.file);
    let word = word_behind(text, found.span.start);
    if instead_of_event(word).is_some() {
        report.say("V1 ");
        report.text(word);
    } else if instead_of_term(word).is_some() {
        put_word_key(report, word);
    } else {
        report.say("S4 ");
        report.text(cut(text, found.span));
    }
}

/// What the uses of one cause have in common, in capital letters; empty where each fault is a cause of its own.
pub(crate) fn key_of(alloc: Global, survey: &Survey, found: &Found) -> Result<Vec<u8>, NoMemory> {
    let mut key = Report::new(alloc);
    match found.cause {
        Cause::Form(FormFault::Event(fault)) => put_event_key(&mut key, found, fault),
        Cause::Text(ReadCode::BadHash) => key.say("S7"),
        Cause::Text(ReadCode::BadByte) => { put_byte_key(&mut key, survey, found) }
        _ => {}
    }
    Ok(key.into_bytes()?.to_ascii_uppercase(alloc)?)
}

/// Whether a word stands behind the name of a package that is not in the language, which is told there.
fn is_behind_package(text: &[u8], word: Span) -> bool {
    let front = cut(text, Span::new(0, word.start));
    front.ends_with(b"::") && !front.ends_with(b"acl2::") && !front.ends_with(b"gl::")
}

/// Puts where another use of a cause is: its form, or the word in which the text is at fault, its text where that is another, its
/// line and its column.
fn put_use(report: &mut Report, survey: &Survey, found: &Found, file: usize) {
    let text = survey.text(found.file);
    let shown = match found.cause {
        Cause::Text(_) => word_around(text, found.span.start),
        Cause::Form(_) => found.span,
    };
    report.say("`");
    put_part(report, text, shown, MOST_NAMED);
    report.say("` ");
    if found.file != file {
        report.text(survey.name(found.file));
        report.say(":");
    }
    report.number(line_of(text, found.span.start));
    report.say(":");
    report.number(column_of(text, found.span.start));
}

/// What is told of another use of a cause to programs.
fn use_for_programs(
    alloc: Global,
    survey: &Survey,
    found: &Found,
) -> Result<explain_report::Fault, NoMemory> {
    let fault = fault_of(found.cause);
    let refusal = Refusal {
        file: survey.name(found.file),
        text: survey.text(found.file),
        line: 0,
        column: 0,
        fault,
    };
    let marked = Marked {
        span: found.span,
        is_named: matches!(found.cause, Cause::Form(_)),
        title: title_of_part(fault, &found.event, found.part, found.around),
    };
    for_programs(alloc, &refusal, marked)
}

impl Told {
    /// Another use of the cause. Whether it is told.
    fn put_place(
        &mut self,
        alloc: Global,
        survey: &Survey,
        found: &Found,
    ) -> Result<bool, NoMemory> {
        self.count = self.count.saturating_add(1);
        if self.count > MOST_PLACES {
            return Ok(false);
        }
        let mut place = Report::new(alloc);
        if self.count > 1 {
            place.say(", ");
        }
        put_use(&mut place, survey, found, self.file);
        self.places.extend_from_slice(&place.into_bytes()?)?;
        Ok(true)
    }

    /// Puts what is said, and behind it the places of the other uses.
    fn put(&self, report: &mut Report) {
        report.text(self.message.as_slice());
        if self.count == 0 {
            return;
        }
        report.say("   = note: also ");
        report.text(self.places.as_slice());
        if self.count > MOST_PLACES {
            report.say(" and ");
            report.number(self.count.saturating_sub(MOST_PLACES));
            report.say(" more");
        }
        report.say("\n");
    }
}

impl Telling {
    /// Nothing is told.
    pub(crate) fn new(alloc: Global) -> Telling {
        Telling {
            found: Vec::new(alloc),
            causes: IndexMap::new(alloc),
            marked: Vec::new(alloc),
            codes: Vec::new(alloc),
            foreign: Vec::new(alloc),
        }
    }

    /// Keeps a word that only ACL2 has.
    pub(crate) fn keep_foreign(&mut self, alloc: Global, found: &Found) -> Result<(), NoMemory> {
        let word = without_package(token(&found.event, found.part));
        if !is_among(word, FOREIGN) {
            return Ok(());
        }
        for other in &self.foreign {
            if is_word(other.as_slice(), word) {
                return Ok(());
            }
        }
        self.foreign.push(word.to_vec(alloc)?)?;
        Ok(())
    }

    /// Puts what writes a book of ACL2's own, where this is one.
    fn put_foreign(&self, report: &mut Report) {
        if self.foreign.len() < MOST_FOREIGN {
            return;
        }
        report.say("this is a book of ACL2's own:");
        let mut between = " `";
        for word in &self.foreign {
            report.say(between);
            report.text(word.as_slice());
            between = "`, `";
        }
        report.say(
            "` are not in the language; `port/gl_port BOOK` writes what ACL2 makes of it as a book\n",
        );
    }

    /// Puts the place of another use with its cause, where that is told. Whether it is.
    pub(crate) fn joins(
        &mut self,
        alloc: Global,
        survey: &Survey,
        found: &Found,
    ) -> Result<bool, NoMemory> {
        let key = key_of(alloc, survey, found)?;
        let number = match self.causes.get(&key) {
            Some(number) => *number,
            None => return Ok(false),
        };
        if number >= self.found.len() {
            return Ok(false);
        }
        if is_behind_package(survey.text(found.file), found.span) {
            return Ok(true);
        }
        if self.found[number].put_place(alloc, survey, found)? && number < MOST_TOLD {
            self.marked.push(use_for_programs(alloc, survey, found)?)?;
        }
        Ok(true)
    }

    /// Whether one more fault is told.
    pub(crate) fn has_room(&self) -> bool {
        self.found.len() < MOST_TOLD
    }

    /// Keeps a fault of a text with what is said of it, which is nothing where it is not told.
    pub(crate) fn tell(&mut self, key: Vec<u8>, file: usize, said: Said) -> Result<(), NoMemory> {
        let alloc = *self.found.allocator();
        let Said { message, faults } = said;
        for fault in faults {
            self.marked.push(fault)?;
        }
        let number = self.found.len();
        self.name(key, number)?;
        self.found.push(Told {
            file,
            message,
            places: Vec::new(alloc),
            count: 0,
        })?;
        Ok(())
    }

    /// Gives a fault by its number its cause, where that has other uses.
    fn name(&mut self, key: Vec<u8>, number: usize) -> Result<(), NoMemory> {
        if !key.is_empty() {
            let _earlier = self.causes.insert(key, number)?;
        }
        Ok(())
    }

    /// Whether a fault of this code is told. One is from now on.
    pub(crate) fn takes_code(&mut self, code: &'static str) -> Result<bool, NoMemory> {
        for other in &self.codes {
            if *other == code {
                return Ok(true);
            }
        }
        self.codes.push(code)?;
        Ok(false)
    }

    /// Puts what can be done at a fault of a code, once for each code.
    pub(crate) fn put_help_once(
        &mut self,
        report: &mut Report,
        fault: Fault,
    ) -> Result<(), NoMemory> {
        let words = words_of(fault);
        if !self.takes_code(words.code)? {
            put_help(report, words.help);
        }
        Ok(())
    }

    /// Gives the first fault its cause, whose message is told already.
    pub(crate) fn name_first(&mut self, key: Vec<u8>, file: usize) -> Result<(), NoMemory> {
        if !self.found.is_empty() {
            self.found[0].file = file;
        }
        self.name(key, 0)
    }

    /// All that is told, how many events are not looked at, and how many faults there are.
    pub(crate) fn into_said(
        self,
        alloc: Global,
        survey: &Survey,
        texts: &Texts,
    ) -> Result<Said, NoMemory> {
        let mut report = Report::new(alloc);
        self.put_all(alloc, &mut report, survey, texts)?;
        let message = report.into_bytes()?;
        let Telling { marked, .. } = self;
        Ok(Said {
            message,
            faults: marked,
        })
    }

    /// Puts all that is told, how many events are not looked at, and how many faults there are.
    fn put_all(
        &self,
        alloc: Global,
        report: &mut Report,
        survey: &Survey,
        texts: &Texts,
    ) -> Result<(), NoMemory> {
        for told in told_of(&self.found) {
            told.put(report);
        }
        for unjudged in survey.unjudged() {
            if unjudged.count > 0 {
                report.number(unjudged.count);
                report.say(if unjudged.count == 1 {
                    " event not looked at, since it uses "
                } else {
                    " events not looked at, since they use "
                });
                report.text(texts.text(unjudged.name));
                report.say("\n");
            }
        }
        self.put_foreign(report);
        let books = self.count_books(alloc)?;
        self.put_count(report, books);
        Ok(())
    }

    /// How many texts the faults are of.
    fn count_books(&self, alloc: Global) -> Result<u64, NoMemory> {
        let mut files: Vec<usize> = Vec::new(alloc);
        for told in &self.found {
            if !files.contains(&told.file) {
                files.push(told.file)?;
            }
        }
        Ok(files.len() as u64)
    }

    /// Puts how many faults there are, and of how many texts.
    fn put_count(&self, report: &mut Report, books: u64) {
        report.say("refused: ");
        let found = self.found.len();
        report.number(found as u64);
        report.say(if found == 1 {
            " fault in "
        } else {
            " faults in "
        });
        report.number(books);
        report.say(if books == 1 { " book" } else { " books" });
        if found > MOST_TOLD {
            report.say(", of which ");
            report.number(MOST_TOLD as u64);
            report.say(" are told");
        }
        report.say("\n");
    }
}
