//! What a line of a transcript is of.

ghost use Rattle.std.specs.Prelude.{◌≡◌};

use sexp_reader::Form;

/// Where an item of a book stands: its number from 0 among the items of the list, and the line and the column of its form, each
/// from 1.
#[derive(Clone, Copy, Debug, PartialEq, Eq)]
pub struct Spot {
    pub item: u64,
    pub line: u32,
    pub column: u32,
}

impl Spot {
    /// Where a form stands, which is the item of this number.
    pub(crate) fn of(item: u64, form: &Form) -> Spot
        ensures { result ≡ record { item = item; line = form.now.line; column = form.now.column } }
    {
        Spot {
            item,
            line: form.line,
            column: form.column,
        }
    }
}

/// What a line of a transcript is of.
#[derive(Clone, Copy, Debug, PartialEq, Eq)]
pub enum Origin {
    /// An event, by its spot.
    Event(Spot),
    /// The input that is told of an event, behind the event's own line.
    Input(Spot),
    /// Where an included book begins or ends, or was included before, by the number of the item.
    Mark(u64),
    /// The end of the list: its refusal, where it has one, and the counts.
    End,
}

/// What a line of a transcript is of, and the name that it tells, empty where it tells none.
#[derive(Clone, Copy)]
pub struct LineOf<'a> {
    pub origin: Origin,
    pub name: &'a [u8],
}
