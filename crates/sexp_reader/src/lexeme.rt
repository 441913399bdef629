//! The pieces that a text is made of.

ghost use Rattle.std.specs.Prelude.{◌≡◌};

use crate::ends::ReadCode;
use std::marker::Model;

/// The text of a symbol, in upper case, or of a string.
#[derive(Drop)]
pub struct Text {
    bytes: Vec<u8>,
}

impl Model for Text {
    ghost use Rattle.std.specs.Prelude.{List, ℕ};

    ghost Value = { List ℕ };

    ghost view = { λ t. t.bytes.items };
}

impl Text {
    /// The text of these bytes.
    pub fn new(bytes: Vec<u8>) -> Text
        ensures { result ≡ bytes.items }
    {
        Text { bytes }
    }

    /// Its bytes.
    pub fn as_slice(&self) -> &[u8]
        ensures { result.now ≡ self.now }
    {
        self.bytes.as_slice()
    }
}

/// What stands in front of a form: `'`, `` ` `` or `,`.
#[derive(Clone, Copy, Debug, PartialEq, Eq)]
pub enum Mark {
    Quote,
    Backquote,
    Comma,
}

/// What is an object by itself.
#[derive(Drop)]
pub enum Atom {
    Integer(i128),
    Character(u8),
    /// A symbol, or a keyword with its colon.
    Symbol(Text),
    String(Text),
}

/// What a text says, but for the gaps.
#[derive(Drop)]
pub enum Lexeme {
    Open,
    Close,
    Dot,
    Prefix(Mark),
    /// A comma with `@` right after it, which nothing may follow.
    Splice,
    Atom(Atom),
}

/// What a text begins with.
#[derive(Drop)]
pub enum Piece {
    /// Nothing: the text ends here.
    Ended,
    /// A block comment or a bare `#` that the text's end cuts short.
    Torn,
    /// White space or a comment, of so many bytes.
    Gap(usize),
    /// A lexeme, of so many bytes.
    Part(usize, Lexeme),
    /// What is no lexeme, with its fault so many bytes behind its first byte.
    Faulty(usize, ReadCode),
}
