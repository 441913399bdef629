//! The words of the events.

ghost use Rattle.std.specs.Prelude.{◌≡◌};
ghost use Rattle.event_world.specs.EventForms.{event_word as word_meant, word_in};

use gl_logic::wording::same;
use gl_logic::{Texts, Tree, TreeKind};

/// The events of the table, by the word with which a form begins.
#[derive(Clone, Copy, Debug, PartialEq, Eq)]
pub enum EventWord {
    /// `in-package`
    InPackage,
    /// `include-book`
    IncludeBook,
    /// `defun`
    Defun,
    /// `mutual-recursion`
    MutualRecursion,
    /// `defconst`
    Defconst,
    /// `value-triple`
    ValueTriple,
    /// `assert-event`
    AssertEvent,
    /// `memoize`
    Memoize,
    /// `unmemoize`
    Unmemoize,
    /// `gl-bdd-mode`
    BddMode,
    /// `gl-satlink-mode`
    SatMode,
    ParamMode,
    /// `def-gl-thm`
    Theorem,
    /// `def-gl-param-thm`
    ParamTheorem,
}

#[tactic(auto, unfolding(crate::specs::EventForms::event_word))]
fn event_word(text: &[u8]) -> Option<EventWord>
    ensures { result ≡ word_meant text.now }
{
    if same(text, b"IN-PACKAGE") {
        Some(EventWord::InPackage)
    } else if same(text, b"INCLUDE-BOOK") {
        Some(EventWord::IncludeBook)
    } else if same(text, b"DEFUN") {
        Some(EventWord::Defun)
    } else if same(text, b"MUTUAL-RECURSION") {
        Some(EventWord::MutualRecursion)
    } else if same(text, b"DEFCONST") {
        Some(EventWord::Defconst)
    } else if same(text, b"VALUE-TRIPLE") {
        Some(EventWord::ValueTriple)
    } else if same(text, b"ASSERT-EVENT") {
        Some(EventWord::AssertEvent)
    } else if same(text, b"MEMOIZE") {
        Some(EventWord::Memoize)
    } else if same(text, b"UNMEMOIZE") {
        Some(EventWord::Unmemoize)
    } else if same(text, b"GL-BDD-MODE") {
        Some(EventWord::BddMode)
    } else if same(text, b"GL-SATLINK-MODE") {
        Some(EventWord::SatMode)
    } else if same(text, b"GL-PARAM-MODE") {
        Some(EventWord::ParamMode)
    } else if same(text, b"DEF-GL-THM") {
        Some(EventWord::Theorem)
    } else if same(text, b"DEF-GL-PARAM-THM") {
        Some(EventWord::ParamTheorem)
    } else {
        None
    }
}

/// The event of a form: a list whose head is a symbol of the table.
pub(crate) fn word_of(texts: &Texts, form: &Tree) -> Option<EventWord>
    ensures { result ≡ word_in texts.now form.now }
{
    match form.elements() {
        [.., head] => match head.kind() {
            TreeKind::Symbol(name) => event_word(texts.text(name)),
            _ => None,
        },
        [] => None,
    }
}
