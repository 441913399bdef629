//! Why a book is refused at a place.

ghost use Rattle.std.specs.Prelude.{◌≡◌, IfOk, string_bytes};
ghost use Rattle.gl_book.specs.Lines.{read_word as word_of, term_word as word_of_term, cause_word as word_of_cause, event_word, code_word, refused_line};

use super::answer::Cause;
use event_world::EventFault;
use gl_logic::NoMemory;
use gl_translate::TermFault;
use sexp_reader::ReadCode;
use std::alloc::Global;

/// What cannot stand at a place of a book.
#[derive(Clone, Copy, Debug, PartialEq, Eq)]
pub enum RefusalCode {
    /// A fault of the text: S1 to S9.
    Text(ReadCode),
    /// A byte more than a text may have: S10.
    TooLong,
    /// A book that is being read is included: V14.
    Cyclic,
    /// The text of an included book would be the 65th different one: V15.
    Many,
    /// A form that means no event: V1 to V8 and V10 to V13. Want of memory refuses no form.
    Event(EventFault),
    /// A constant without a value: V9.
    Constant(Cause),
}

/// The place that ends a book, by its line and its column, each from 1.
#[derive(Clone, Copy, Debug, PartialEq, Eq)]
pub struct Refusal {
    pub line: u32,
    pub column: u32,
    pub code: RefusalCode,
}

/// The code of a fault of a text.
fn read_word(fault: ReadCode) -> &'static str
    ensures { result.now ≡ word_of fault }
{
    match fault {
        ReadCode::EndInside => "S1",
        ReadCode::StrayClose => "S2",
        ReadCode::BadDot => "S3",
        ReadCode::BadByte => "S4",
        ReadCode::WideNumber => "S5",
        ReadCode::NumberForm => "S6",
        ReadCode::BadHash => "S7",
        ReadCode::TooDeep => "S8",
        ReadCode::LongName => "S9",
    }
}

/// The code of a fault of a term.
fn term_word(fault: TermFault) -> &'static str
    ensures { result.now ≡ word_of_term fault }
{
    match fault {
        TermFault::UnknownFunction => "V4",
        TermFault::WrongCount => "V5",
        TermFault::UnboundVariable => "V6",
        TermFault::BadUse => "V7",
        TermFault::TooDeep => "V12",
        TermFault::Memory => "memory",
    }
}

/// The word of a cause.
pub fn cause_word(cause: Cause) -> &'static str
    ensures { result.now ≡ word_of_cause cause }
{
    match cause {
        Cause::Width => "width",
        Cause::Steps => "steps",
        Cause::Cells => "cells",
        Cause::Size => "size",
        Cause::Memory => "memory",
    }
}

/// What a transcript has for a form that means no event.
fn event_words(alloc: Global, fault: EventFault) -> Result<String, NoMemory>
    ensures { IfOk result (λ s. string_bytes s ≡ event_word fault) }
{
    let word = match fault {
        EventFault::UnknownEvent => "V1",
        EventFault::BadEvent => "V2",
        EventFault::Redefined => "V3",
        EventFault::Term(fault) => term_word(fault),
        EventFault::NotAdmitted(call) => return Ok(format!(in alloc; "V8 {call}")?),
        EventFault::BadBindings => "V10",
        EventFault::BadOption => "V11",
        EventFault::BadCases => "V13",
        EventFault::Memory => "memory",
    };
    Ok(word.to_string(alloc)?)
}

/// What a transcript has for a code.
pub fn code_words(alloc: Global, code: RefusalCode) -> Result<String, NoMemory>
    ensures { IfOk result (λ s. string_bytes s ≡ code_word code) }
{
    match code {
        RefusalCode::Text(fault) => Ok(read_word(fault).to_string(alloc)?),
        RefusalCode::TooLong => Ok("S10".to_string(alloc)?),
        RefusalCode::Cyclic => Ok("V14".to_string(alloc)?),
        RefusalCode::Many => Ok("V15".to_string(alloc)?),
        RefusalCode::Event(fault) => event_words(alloc, fault),
        RefusalCode::Constant(cause) => {
            let cause = cause_word(cause);
            Ok(format!(in alloc; "V9 {cause}")?)
        }
    }
}

/// The line of a refusal.
pub fn line_of_refusal(alloc: Global, refusal: Refusal) -> Result<Vec<u8>, NoMemory>
    ensures { IfOk result (λ v. v.items ≡ refused_line refusal) }
{
    let line = refusal.line;
    let column = refusal.column;
    let code = code_words(alloc, refusal.code)?;
    let text = format!(in alloc; "REFUSED {line} {column} {code}\n")?;
    Ok(text.as_bytes().to_vec(alloc)?)
}
