//! Symbols by their texts, the marks inside an object, and the elements of a proper list.

ghost use Rattle.std.specs.Prelude.{◌≡◌, bytes_eq, reverse, MatchOption, IfSome, None, Some};
ghost use Rattle.std.specs.List.{list_any};
ghost use Rattle.gl_logic.specs.Object.{nil};
ghost use Rattle.gl_logic.specs.Lists.{conses};
ghost use Rattle.gl_logic.specs.Wording.{spells as is_spelled, is_keyword as keyword_is, is_legal as legal_is, is_mark as mark_is, has_mark as mark_in, is_starred as starred, first_byte as first_of, last_byte as last_of, elements as elements_in};

use super::ids::TextId;
use super::texts::Texts;
use super::tree::{Tree, TreeKind};

/// Whether two texts are the same.
pub fn same(text: &[u8], other: &[u8]) -> bool
    ensures { result ≡ bytes_eq text.now other.now }
{
    text == other
}

/// The first byte, and 0 where there is none.
pub fn first_byte(bytes: &[u8]) -> u8
    ensures { result ≡ first_of bytes.now }
{
    if bytes.is_empty() { 0 } else { bytes[0] }
}

/// The last byte, and 0 where there is none.
fn last_byte(bytes: &[u8]) -> u8
    ensures { result ≡ last_of bytes.now }
{
    if bytes.is_empty() {
        0
    } else {
        bytes[bytes.len() - 1]
    }
}

/// Whether a text both begins and ends with `*`.
pub fn is_starred(bytes: &[u8]) -> bool
    ensures { result ≡ starred bytes.now }
{
    first_byte(bytes) == b'*' && last_byte(bytes) == b'*'
}

/// Whether a symbol is a keyword.
pub fn is_keyword(texts: &Texts, name: TextId) -> bool
    ensures { result ≡ keyword_is texts.now name.number }
{
    first_byte(texts.text(name)) == b':'
}

/// Whether a symbol may be a variable, or name a definition or a theorem.
pub fn is_legal(texts: &Texts, name: TextId) -> bool
    ensures { result ≡ legal_is texts.now name.number }
{
    name.number >= 4 && !is_keyword(texts, name) && !is_starred(texts.text(name))
}

/// Whether an object is the symbol with this text.
pub fn spells(texts: &Texts, word: &[u8], object: &Tree) -> bool
    ensures { result ≡ is_spelled texts.now word.now object.now }
{
    match object.kind() {
        TreeKind::Symbol(name) => same(texts.text(name), word),
        _ => false,
    }
}

/// Whether a symbol is the mark of backquote or of comma.
pub fn is_mark(name: TextId) -> bool
    ensures { result ≡ mark_is name.number }
{
    name.number == 2 || name.number == 3
}

/// Whether a mark stands anywhere inside an object.
#[cycle(marks)]
pub fn has_mark(object: &Tree) -> bool
    ensures { result ≡ mark_in object.now }
{
    match object.kind() {
        TreeKind::Symbol(name) => is_mark(name),
        TreeKind::List => have_marks(object.elements()) || has_mark(object.tail()),
        _ => false,
    }
}

/// Whether one stands anywhere inside one of these objects.
#[cycle(marks)]
pub fn have_marks(objects: &[Tree]) -> bool
    ensures { result ≡ list_any mark_in objects.now }
{
    for object in objects {
        if has_mark(object) {
            return true;
        }
    }
    false
}

/// The elements of a proper list from the last to the first, and None for anything else.
pub fn parts_of(form: &Tree) -> Option<&[Tree]>
    ensures proper { IfSome result (λ es. form.now ≡ conses es.now nil) }
    ensures elements { MatchOption result (elements_in form.now ≡ None) (λ es. elements_in form.now ≡ Some (reverse es.now)) }
{
    if form.tail().is_nil() {
        Some(form.elements())
    } else {
        None
    }
}
