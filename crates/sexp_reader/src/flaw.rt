//! What cannot stand where it stands.

ghost use Rattle.std.specs.Prelude.{◌≡◌, length};
ghost use Rattle.sexp_reader.specs.Places.{Fits};
ghost use Rattle.sexp_reader.specs.Pieces.{Spans};
ghost use Rattle.sexp_reader.specs.Grammar.{unless_deep, form_flaw, closing_flaw, text_end, past};

use crate::ends::ReadCode;
use crate::lexeme::{Lexeme, Piece};
use crate::place::Place;

/// How many parentheses and prefixes may stand inside one another.
const MOST_NESTED: usize = 1000;

/// A fault and its place.
#[derive(Clone, Copy, Debug, PartialEq, Eq)]
pub struct Flaw {
    pub place: Place,
    pub code: ReadCode,
}

// What a parenthesis or a prefix inside so many others is, which has this flaw where it is not too deep.
fn unless_deep(around: usize, place: Place, flaw: Option<Flaw>) -> Option<Flaw>
    ensures { result ≡ unless_deep around place flaw }
{
    if around < MOST_NESTED {
        flaw
    } else {
        Some(Flaw {
            place,
            code: ReadCode::TooDeep,
        })
    }
}

/// The flaw of a piece, of the text that is left and begins at this place, where a form is looked for
/// inside so many parentheses and prefixes.
pub fn form_flaw(around: usize, place: Place, rest: &[u8], piece: &Piece) -> Option<Flaw>
    requires fits { Fits place (length rest.now) }
    requires spans { Spans (length rest.now) piece.now }
    ensures { result ≡ form_flaw around (record { place = place; bytes = rest.now }) piece.now }
{
    let (place, code) = match piece {
        Piece::Ended => (place, ReadCode::EndInside),
        Piece::Torn => (place.behind(rest), ReadCode::EndInside),
        Piece::Gap(_) => return None,
        Piece::Faulty(count, code) => (place.behind(&rest[..*count]), *code),
        Piece::Part(_, Lexeme::Open) => return unless_deep(around, place, None),
        Piece::Part(_, Lexeme::Close) => (place, ReadCode::StrayClose),
        Piece::Part(_, Lexeme::Dot) => (place, ReadCode::BadDot),
        Piece::Part(_, Lexeme::Prefix(_)) => return unless_deep(around, place, None),
        Piece::Part(count, Lexeme::Splice) => {
            let flaw = Flaw {
                place: place.behind(&rest[..*count]),
                code: ReadCode::BadByte,
            };
            return unless_deep(around, place, Some(flaw));
        }
        Piece::Part(_, Lexeme::Atom(_)) => return None,
    };
    Some(Flaw { place, code })
}

/// The same where only a closing parenthesis may stand, behind the form behind a dot.
pub fn closing_flaw(around: usize, place: Place, rest: &[u8], piece: &Piece) -> Option<Flaw>
    requires fits { Fits place (length rest.now) }
    ensures { result ≡ closing_flaw around (record { place = place; bytes = rest.now }) piece.now }
{
    let bad = Flaw {
        place,
        code: ReadCode::BadDot,
    };
    match piece {
        Piece::Ended => Some(Flaw {
            place,
            code: ReadCode::EndInside,
        }),
        Piece::Torn => Some(Flaw {
            place: place.behind(rest),
            code: ReadCode::EndInside,
        }),
        Piece::Gap(_) => None,
        Piece::Faulty(0, code) => Some(Flaw { place, code: *code }),
        Piece::Faulty(_, _) => Some(bad),
        Piece::Part(_, Lexeme::Close) => None,
        Piece::Part(_, Lexeme::Open) => unless_deep(around, place, Some(bad)),
        Piece::Part(_, Lexeme::Prefix(_)) => unless_deep(around, place, Some(bad)),
        Piece::Part(_, Lexeme::Splice) => unless_deep(around, place, Some(bad)),
        Piece::Part(_, Lexeme::Dot) => Some(bad),
        Piece::Part(_, Lexeme::Atom(_)) => Some(bad),
    }
}
