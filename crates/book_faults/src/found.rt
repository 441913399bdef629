//! What a survey finds.

use crate::span::Span;
use explain_findings::FormFault;
use gl_logic::TextId;
use sexp_reader::ReadCode;

/// Why something is refused.
#[derive(Clone, Copy, Debug, PartialEq, Eq)]
pub enum Cause {
    /// A fault of a text.
    Text(ReadCode),
    /// A fault of a form.
    Form(FormFault),
}

/// A fault: the number of its text, the part that is at fault there, and why it is refused. Of a fault of a form, the form as it was
/// when the fault was found, with the faults before mended, and the part in that, with what is
/// around it.
#[derive(Drop)]
pub struct Found {
    pub file: usize,
    pub span: Span,
    pub cause: Cause,
    pub event: Vec<u8>,
    pub part: Span,
    pub around: Span,
}

/// How many events are not judged, since they use what a refused event was to define.
#[derive(Clone, Copy, Debug, PartialEq, Eq)]
pub struct Unjudged {
    pub name: TextId,
    pub count: u64,
}

/// What a step of a survey comes to.
#[derive(Drop)]
pub enum Step {
    /// The text of an included book with this name is wanted.
    Wants(Vec<u8>),
    /// A form, or a text that is entered, with its faults in their order; in most of them there is none.
    Faults(Vec<Found>),
    /// There is no more.
    End,
}
