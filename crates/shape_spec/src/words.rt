//! The words with which shapes and items begin.

ghost use Rattle.std.specs.Prelude.{◌≡◌};
ghost use Rattle.shape_spec.specs.Heads.{head_of as head_in, item_of as item_in, word_head as head_meant, item_word as item_meant};

use gl_logic::wording::same;
use gl_logic::{Texts, Tree, TreeKind};

/// How a cons begins, where it is looked at as a shape.
#[derive(Clone, Copy, Debug, PartialEq, Eq)]
pub(crate) enum Head {
    /// `:g-boolean`
    Boolean,
    /// `:g-integer`
    Integer,
    /// `:g-ite`
    Choice,
    /// `:g-concrete`
    Concrete,
    /// Another keyword whose name begins with `G-`.
    Reserved,
    /// The mark of backquote.
    Backquote,
    /// The mark of comma.
    Comma,
    /// Anything else.
    Plain,
}

/// The words of the items of `auto-bindings`.
#[derive(Clone, Copy, Debug, PartialEq, Eq)]
pub(crate) enum ItemWord {
    /// `:nat`
    Nat,
    /// `:int`
    Int,
    /// `:boolean`
    Boolean,
    /// `:seq`
    Seq,
    /// `:mix`
    Mix,
}

#[tactic(auto, unfolding(crate::specs::Heads::word_head))]
fn word_head(word: &[u8]) -> Head
    ensures { result ≡ head_meant word.now }
{
    if same(word, b":G-BOOLEAN") {
        Head::Boolean
    } else if same(word, b":G-INTEGER") {
        Head::Integer
    } else if same(word, b":G-ITE") {
        Head::Choice
    } else if same(word, b":G-CONCRETE") {
        Head::Concrete
    } else if word.starts_with(b":G-") {
        Head::Reserved
    } else {
        Head::Plain
    }
}

/// How a cons with this head begins.
pub(crate) fn head_of(texts: &Texts, head: &Tree) -> Head
    ensures { result ≡ head_in texts.now head.now }
{
    match head.kind() {
        TreeKind::Symbol(name) => {
            if name.number == 2 {
                Head::Backquote
            } else if name.number == 3 {
                Head::Comma
            } else {
                word_head(texts.text(name))
            }
        }
        _ => Head::Plain,
    }
}

#[tactic(auto, unfolding(crate::specs::Heads::item_word))]
fn item_word(word: &[u8]) -> Option<ItemWord>
    ensures { result ≡ item_meant word.now }
{
    if same(word, b":NAT") {
        Some(ItemWord::Nat)
    } else if same(word, b":INT") {
        Some(ItemWord::Int)
    } else if same(word, b":BOOLEAN") {
        Some(ItemWord::Boolean)
    } else if same(word, b":SEQ") {
        Some(ItemWord::Seq)
    } else if same(word, b":MIX") {
        Some(ItemWord::Mix)
    } else {
        None
    }
}

/// The word of an item with this head.
pub(crate) fn item_of(texts: &Texts, head: &Tree) -> Option<ItemWord>
    ensures { result ≡ item_in texts.now head.now }
{
    match head.kind() {
        TreeKind::Symbol(name) => item_word(texts.text(name)),
        _ => None,
    }
}
