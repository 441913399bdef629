//! Names of constants, and strings by their texts.

ghost use Rattle.std.specs.Prelude.{◌≡◌};
ghost use Rattle.event_world.specs.NamesMeant.{is_constant_name as constant_name_is};
ghost use Rattle.event_world.specs.PlainMeant.{is_string as string_is};

use gl_logic::wording::{is_starred, same};
use gl_logic::{Texts, Tree, TreeKind};

/// Whether a text may name a constant.
pub(crate) fn is_constant_name(bytes: &[u8]) -> bool
    ensures { result ≡ constant_name_is bytes.now }
{
    is_starred(bytes) && 3 <= bytes.len()
}

/// Whether an object is the string with this text.
pub(crate) fn is_string(texts: &Texts, text: &[u8], object: &Tree) -> bool
    ensures { result ≡ string_is texts.now text.now object.now }
{
    match object.kind() {
        TreeKind::Text(name) => same(texts.text(name), text),
        _ => false,
    }
}
