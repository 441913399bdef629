//! The names that events give, and those that are taken.

ghost use Rattle.std.specs.Prelude.{◌≡◌};
ghost use Rattle.std.specs.Option.{option_map};
ghost use Rattle.event_world.specs.NamesMeant.{plain_name as plain_meant, constant_name as constant_meant, is_word as word_is, is_used as used_is, is_taken as taken_is};

use super::texts::is_constant_name;
use gl_logic::wording::is_legal;
use gl_logic::{TextId, Texts, Tree, TreeKind, World};
use gl_translate::words::{is_path, is_special, prim_named};

/// Whether a text is `if`, `quote`, or the word of a macro or a primitive.
fn is_word(text: &[u8]) -> bool
    ensures { result ≡ word_is text.now }
{
    is_special(text) || (is_path(text) || prim_named(text).is_some())
}

/// Whether a name is that of a definition, a constant or an earlier named event.
fn is_used(world: &World, name: TextId) -> bool
    ensures { result ≡ used_is world.now name.number }
{
    world.find(name).is_some() || (world.constant(name).is_some() || world.noted(name).is_some())
}

/// Whether a new event may not have this name.
pub(crate) fn is_taken(texts: &Texts, world: &World, name: TextId) -> bool
    ensures { result ≡ taken_is texts.now world.now name.number }
{
    is_word(texts.text(name)) || is_used(world, name)
}

/// The name of a definition or a theorem.
pub(crate) fn plain_name(texts: &Texts, object: &Tree) -> Option<TextId>
    ensures { option_map (λ t. t.number) result ≡ plain_meant texts.now object.now }
{
    match object.kind() {
        TreeKind::Symbol(name) => {
            if is_legal(texts, name) {
                Some(name)
            } else {
                None
            }
        }
        _ => None,
    }
}

/// The name of a constant.
pub(crate) fn constant_name(texts: &Texts, object: &Tree) -> Option<TextId>
    ensures { option_map (λ t. t.number) result ≡ constant_meant texts.now object.now }
{
    match object.kind() {
        TreeKind::Symbol(name) => {
            if is_constant_name(texts.text(name)) {
                Some(name)
            } else {
                None
            }
        }
        _ => None,
    }
}
