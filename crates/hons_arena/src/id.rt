//! What names an object of an arena, and what an arena answers.

ghost use Rattle.std.specs.Prelude.{◌≡◌, List};
ghost use Rattle.gl_logic.specs.Object.{Object, nil};
ghost use Rattle.hons_arena.specs.Ids.{IsIdOf, kind_in, number_in};

use gl_logic::TextId;

/// What an id's number counts.
#[derive(Clone, Copy, Debug, PartialEq, Eq)]
pub enum IdKind {
    /// The texts: the id names the symbol of that text.
    Symbol,
    /// The texts: the id names the string of that text.
    Text,
    /// The cells of the arena, in the order of their making: the id names the object of that cell.
    Cell,
}

/// The name of an object in an arena. Ids of equal objects are equal, and ids of different objects differ. Each kind has one
/// word, so that ids are copied as words.
#[derive(Clone, Copy, Debug, PartialEq, Eq)]
pub enum Id {
    /// The symbol of this text.
    Symbol(TextId),
    /// The string of this text.
    Text(TextId),
    /// The object of the cell of this number.
    Cell(u64),
}

impl Id {
    /// What the number counts.
    #[inline(always)]
    pub fn kind(self) -> IdKind
        ensures { result ≡ kind_in self }
    {
        match self {
            Id::Symbol(_) => IdKind::Symbol,
            Id::Text(_) => IdKind::Text,
            Id::Cell(_) => IdKind::Cell,
        }
    }

    /// The number of the text or of the cell.
    #[inline(always)]
    pub fn number(self) -> u64
        ensures { result ≡ number_in self }
    {
        match self {
            Id::Symbol(t) | Id::Text(t) => t.number,
            Id::Cell(number) => number,
        }
    }
}

/// NIL, which has the same id in each arena.
impl Default for Id {
    ghost is_default = { λ id. (objects : List Object) → IsIdOf objects nil id };

    fn default() -> Id {
        Id::Symbol(TextId { number: 0 })
    }
}

/// What an object is, with the value of an atom.
#[derive(Clone, Copy, Debug, PartialEq, Eq)]
pub enum Kind {
    /// An integer.
    Int(i128),
    /// A character, by its code.
    Character(u8),
    /// A symbol, by the number of its text.
    Symbol(TextId),
    /// A string, by the number of its text.
    Text(TextId),
    /// A cons.
    Cons,
}

/// A count of cells.
#[derive(Clone, Copy, Debug, PartialEq, Eq)]
pub struct Mark {
    /// How many cells there were.
    pub count: u32,
}

/// The arena has no cell left for a new object.
#[derive(Clone, Copy, Debug, PartialEq, Eq)]
pub struct Full;
