//! The words that name macros and primitives.

ghost use Rattle.std.specs.Prelude.{◌≡◌};
ghost use Rattle.std.specs.Option.{is_some};
ghost use Rattle.gl_translate.specs.Words.{prim_named as named_prim, is_path as path_is};
ghost use Rattle.gl_translate.specs.Macros.{special_named};
ghost use Rattle.gl_translate.specs.Heads.{prim_word as word_of_prim, macro_word as word_of_macro, macro_named as named_macro};

use super::macros::Macro;
use gl_logic::Prim;
use gl_logic::wording::same;

const MACROS: [Macro; 30] = [
    Macro::And,
    Macro::Or,
    Macro::Cond,
    Macro::Case,
    Macro::Let,
    Macro::LetStar,
    Macro::List,
    Macro::ListStar,
    Macro::Plus,
    Macro::Times,
    Macro::Minus,
    Macro::OneMore,
    Macro::OneLess,
    Macro::AtMost,
    Macro::Above,
    Macro::AtLeast,
    Macro::Unequal,
    Macro::Append,
    Macro::Logand,
    Macro::Logior,
    Macro::Logxor,
    Macro::Member,
    Macro::First,
    Macro::Second,
    Macro::Third,
    Macro::Fourth,
    Macro::Fifth,
    Macro::Rest,
    Macro::The,
    Macro::Mbe,
];

const PRIMS: [Prim; 29] = [
    Prim::Consp,
    Prim::Integerp,
    Prim::Symbolp,
    Prim::Stringp,
    Prim::Characterp,
    Prim::Cons,
    Prim::Car,
    Prim::Cdr,
    Prim::Equal,
    Prim::Not,
    Prim::CharCode,
    Prim::CodeChar,
    Prim::BinaryPlus,
    Prim::BinaryTimes,
    Prim::UnaryMinus,
    Prim::Less,
    Prim::Floor,
    Prim::Mod,
    Prim::Truncate,
    Prim::Rem,
    Prim::Ash,
    Prim::BinaryLogand,
    Prim::BinaryLogior,
    Prim::BinaryLogxor,
    Prim::Lognot,
    Prim::Logbitp,
    Prim::IntegerLength,
    Prim::UnsignedByteP,
    Prim::SignedByteP,
];

fn macro_word(named: Macro) -> &'static [u8]
    ensures { result.now ≡ word_of_macro named }
{
    match named {
        Macro::And => b"AND",
        Macro::Or => b"OR",
        Macro::Cond => b"COND",
        Macro::Case => b"CASE",
        Macro::Let => b"LET",
        Macro::LetStar => b"LET*",
        Macro::List => b"LIST",
        Macro::ListStar => b"LIST*",
        Macro::Plus => b"+",
        Macro::Times => b"*",
        Macro::Minus => b"-",
        Macro::OneMore => b"1+",
        Macro::OneLess => b"1-",
        Macro::AtMost => b"<=",
        Macro::Above => b">",
        Macro::AtLeast => b">=",
        Macro::Unequal => b"/=",
        Macro::Append => b"APPEND",
        Macro::Logand => b"LOGAND",
        Macro::Logior => b"LOGIOR",
        Macro::Logxor => b"LOGXOR",
        Macro::Member => b"MEMBER",
        Macro::First => b"FIRST",
        Macro::Second => b"SECOND",
        Macro::Third => b"THIRD",
        Macro::Fourth => b"FOURTH",
        Macro::Fifth => b"FIFTH",
        Macro::Rest => b"REST",
        Macro::The => b"THE",
        Macro::Mbe => b"MBE",
    }
}

pub fn prim_word(named: Prim) -> &'static [u8]
    ensures { result.now ≡ word_of_prim named }
{
    match named {
        Prim::Consp => b"CONSP",
        Prim::Integerp => b"INTEGERP",
        Prim::Symbolp => b"SYMBOLP",
        Prim::Stringp => b"STRINGP",
        Prim::Characterp => b"CHARACTERP",
        Prim::Cons => b"CONS",
        Prim::Car => b"CAR",
        Prim::Cdr => b"CDR",
        Prim::Equal => b"EQUAL",
        Prim::Not => b"NOT",
        Prim::CharCode => b"CHAR-CODE",
        Prim::CodeChar => b"CODE-CHAR",
        Prim::BinaryPlus => b"BINARY-+",
        Prim::BinaryTimes => b"BINARY-*",
        Prim::UnaryMinus => b"UNARY--",
        Prim::Less => b"<",
        Prim::Floor => b"FLOOR",
        Prim::Mod => b"MOD",
        Prim::Truncate => b"TRUNCATE",
        Prim::Rem => b"REM",
        Prim::Ash => b"ASH",
        Prim::BinaryLogand => b"BINARY-LOGAND",
        Prim::BinaryLogior => b"BINARY-LOGIOR",
        Prim::BinaryLogxor => b"BINARY-LOGXOR",
        Prim::Lognot => b"LOGNOT",
        Prim::Logbitp => b"LOGBITP",
        Prim::IntegerLength => b"INTEGER-LENGTH",
        Prim::UnsignedByteP => b"UNSIGNED-BYTE-P",
        Prim::SignedByteP => b"SIGNED-BYTE-P",
    }
}

/// The macro that a word names.
pub(crate) fn macro_named(word: &[u8]) -> Option<Macro>
    ensures { result ≡ named_macro word.now }
{
    for found in &MACROS {
        if word == macro_word(*found) {
            return Some(*found);
        }
    }
    None
}

/// Whether a word is `if`, `quote` or that of a macro.
pub fn is_special(word: &[u8]) -> bool
    ensures { result ≡ is_some (special_named word.now) }
{
    same(word, b"IF") || (same(word, b"QUOTE") || macro_named(word).is_some())
}

/// The primitive that a word names.
pub fn prim_named(word: &[u8]) -> Option<Prim>
    ensures { result ≡ named_prim word.now }
{
    for found in &PRIMS {
        if word == prim_word(*found) {
            return Some(*found);
        }
    }
    None
}

/// Whether a word is one of CAAR to CDDDDR.
pub fn is_path(word: &[u8]) -> bool
    ensures { result ≡ path_is word.now }
{
    if word.len() < 4 || word.len() > 6 || word[0] != b'C' || word[word.len() - 1] != b'R' {
        return false;
    }
    for letter in &word[1..word.len() - 1] {
        if *letter != b'A' && *letter != b'D' {
            return false;
        }
    }
    true
}
