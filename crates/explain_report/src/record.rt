//! What is known of a line of a transcript that is no line of an input.

ghost use Rattle.std.specs.Prelude.{◌≡◌, IfOk, option_map, take};
ghost use Rattle.explain_report.specs.Words.{verdict_word, cause_word, lack_word, asks_for_look, tells_event};

use crate::fault::Fault;
use gl_logic::{NoMemory, TextId, Tree};
use std::alloc::Global;
use std::mem;

/// What became of an event.
#[derive(Clone, Copy, Debug, PartialEq, Eq)]
pub enum Verdict {
    Proved,
    Vacuous,
    Refuted,
    Undecided,
    /// The event refuses the book.
    Refused,
    /// An asserted value is NIL.
    Failed,
    /// An asserted value is not NIL.
    Holds,
    Value,
    /// A definition, a constant or a mode is taken in.
    Taken,
    /// Where an included book begins or ends, or was included before.
    Mark,
    /// The last line.
    Done,
}

/// Why an event is undecided.
#[derive(Clone, Copy, Debug, PartialEq, Eq)]
pub enum Cause {
    /// A variable may have objects beyond its shape: that of a case, from 1, or of the whole.
    Uncovered(Option<u32>, TextId),
    /// An input is of no case.
    Uncased,
    Nodes,
    Clauses,
    Clock,
    Width,
    Steps,
    Cells,
    Size,
    Memory,
}

/// A variable of an input and its object, and both as they are printed.
#[derive(Drop)]
pub struct Input {
    pub variable: TextId,
    pub object: Tree,
    pub name: Vec<u8>,
    pub text: Vec<u8>,
}

/// What came of an event: its verdict; why it is undecided, and in words, or the code that refuses the book, which are empty
/// where there is none; and the input that is shown of it.
#[derive(Drop)]
pub struct Found {
    pub verdict: Verdict,
    pub cause: Option<Cause>,
    pub words: Vec<u8>,
    pub inputs: Vec<Input>,
}

/// A line of a transcript, and what is known of it.
#[derive(Drop)]
pub struct Record {
    /// The number of its item in the list of the book's items.
    pub item: usize,
    /// The file, the line and the column of its event, which are 0 where it has no place.
    pub file: Vec<u8>,
    pub line: u32,
    pub column: u32,
    /// The first word of the event's form, and what it is about.
    pub kind: Vec<u8>,
    pub name: Vec<u8>,
    /// The line, without its end.
    pub text: Vec<u8>,
    /// What came of its event.
    pub found: Found,
    /// How many bits each integer of its input is shown with at least.
    pub widths: Vec<usize>,
    /// Microseconds since the line before.
    pub micros: u64,
    /// The event's form as it is written, where it is to be shown.
    pub source: Vec<u8>,
    /// What is said of it beside the transcript, and the faults that are told there.
    pub message: Vec<u8>,
    pub faults: Vec<Fault>,
}

impl Found {
    /// A verdict, without a cause and an input. Takes no memory.
    pub fn new(alloc: Global, verdict: Verdict) -> Found
        ensures { result.verdict ≡ verdict }
    {
        Found {
            verdict,
            cause: None,
            words: Vec::new(alloc),
            inputs: Vec::new(alloc),
        }
    }

    /// The word for what leaves its event open: the cause, or that the event is refused; none where it is decided.
    pub fn lack(&self) -> Option<&'static str>
        ensures { option_map (λ w. w.now) result ≡ lack_word self.now.verdict self.now.cause }
    {
        match self.verdict {
            Verdict::Undecided => self.cause.map(Cause::word),
            Verdict::Refused => Some("refused"),
            _ => None,
        }
    }

    /// What is found, for one of its event's lines: the input is that of the first line, and is taken from here.
    pub fn for_line(&mut self, alloc: Global) -> Result<Found, NoMemory>
        ensures verdict { IfOk result (λ f. f.verdict ≡ self.old.verdict) }
        ensures inputs { IfOk result (λ f. f.inputs ≡ self.old.inputs) }
    {
        Ok(Found {
            verdict: self.verdict,
            cause: self.cause,
            words: self.words.clone()?,
            inputs: mem::replace(&mut self.inputs, Vec::new(alloc)),
        })
    }
}

impl Record {
    /// The record of a line, of which only what came of its event is known. Takes no memory.
    pub fn new(alloc: Global, text: Vec<u8>, found: Found) -> Record
        ensures text { result.text ≡ text }
        ensures found { result.found ≡ found }
        ensures place { result.line ≡ 0 }
    {
        Record {
            item: 0,
            file: Vec::new(alloc),
            line: 0,
            column: 0,
            kind: Vec::new(alloc),
            name: Vec::new(alloc),
            text,
            found,
            widths: Vec::new(alloc),
            micros: 0,
            source: Vec::new(alloc),
            message: Vec::new(alloc),
            faults: Vec::new(alloc),
        }
    }

    /// What became of its event.
    pub fn verdict(&self) -> Verdict
        ensures { result ≡ self.now.found.verdict }
    {
        self.found.verdict
    }

    /// The input that is shown of its event.
    pub fn inputs(&self) -> &[Input]
        ensures { result.now ≡ self.now.found.inputs.items }
    {
        self.found.inputs.as_slice()
    }
}

impl Cause {
    /// Its word.
    pub fn word(self) -> &'static str
        ensures { result.now ≡ cause_word self }
    {
        match self {
            Cause::Uncovered(_, _) => "uncovered",
            Cause::Uncased => "uncased",
            Cause::Nodes => "nodes",
            Cause::Clauses => "clauses",
            Cause::Clock => "clock",
            Cause::Width => "width",
            Cause::Steps => "steps",
            Cause::Cells => "cells",
            Cause::Size => "size",
            Cause::Memory => "memory",
        }
    }
}

impl Verdict {
    /// Its word.
    pub fn word(self) -> &'static str
        ensures { result.now ≡ verdict_word self }
    {
        match self {
            Verdict::Proved => "proved",
            Verdict::Vacuous => "vacuous",
            Verdict::Refuted => "refuted",
            Verdict::Undecided => "undecided",
            Verdict::Refused => "refused",
            Verdict::Failed => "nil",
            Verdict::Holds => "ok",
            Verdict::Value => "value",
            Verdict::Taken => "taken",
            Verdict::Mark => "book",
            Verdict::Done => "done",
        }
    }

    /// Whether it asks for a look.
    pub fn is_trouble(self) -> bool
        ensures { result ≡ asks_for_look self }
    {
        matches!(
            self,
            Verdict::Vacuous
                | Verdict::Refuted
                | Verdict::Undecided
                | Verdict::Refused
                | Verdict::Failed
        )
    }

    /// Whether it is of an event.
    pub fn is_of_event(self) -> bool
        ensures { result ≡ tells_event self }
    {
        !matches!(self, Verdict::Mark | Verdict::Done)
    }
}

/// The first bytes of a text.
pub fn front_of(text: &[u8], count: usize) -> &[u8]
    ensures { result.now ≡ take count text.now }
{
    &text[..count.min(text.len())]
}
