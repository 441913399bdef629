//! What reading a text gives.

use crate::list::FormList;

/// Why a text is refused at a place. The codes of a transcript are S1 to S9, in this order.
#[derive(Clone, Copy, Debug, PartialEq, Eq)]
pub enum ReadCode {
    /// The text ends inside a list, a string, a block comment or a prefix, or right after `#` or `#\`.
    EndInside,
    /// A closing parenthesis where no list is open, or right after a prefix.
    StrayClose,
    /// A dot, or what stands beside it, where a dotted pair has none.
    BadDot,
    /// A byte that cannot stand there.
    BadByte,
    /// An integer that 128 bits do not hold.
    WideNumber,
    /// A number that is no integer.
    NumberForm,
    /// A `#` that begins nothing.
    BadHash,
    /// A parenthesis or a prefix inside 1,000 others.
    TooDeep,
    /// A name of more than 255 bytes.
    LongName,
}

/// How a text ends.
#[derive(Clone, Copy, Debug, PartialEq, Eq)]
pub enum End {
    /// The text is forms and what may stand between them, all of it.
    Clean,
    /// The first fault in reading order: its line, its column and what it is.
    Bad(u32, u32, ReadCode),
}

/// The forms of a text before its first fault, and how it ends.
#[derive(Drop)]
pub struct Forms {
    pub list: FormList,
    pub end: End,
}
