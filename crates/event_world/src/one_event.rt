//! The event that one form means.

ghost use Rattle.std.specs.Prelude.{◌≡◌, ◌≢◌, ℕ, List, [], length, IfOk, OnOk, Some, None};
ghost use Rattle.gl_logic.specs.Object.{nil};
ghost use Rattle.gl_logic.specs.Names.{Extends, with_name};
ghost use Rattle.gl_logic.specs.Numbered.{IsNumbered};
ghost use Rattle.gl_translate.specs.Answers.{GainsAtMost};
ghost use Rattle.gl_logic.specs.Wording.{elements};
ghost use Rattle.event_world.specs.Outcomes.{Gives};
ghost use Rattle.event_world.specs.Seen.{event_seen};
ghost use Rattle.event_world.specs.EventWords.{behind_head};
ghost use Rattle.event_world.specs.EventForms.{checked as checked_meant, meant_behind, event_by};
ghost use Rattle.event_world.specs.EventMeant.{event_meant};
ghost use Rattle.event_world.specs.Suits.{Suits};

use super::cases::by_cases;
use super::clique::clique;
use super::defun::defun;
use super::event::Event;
use super::fault::EventFault;
use super::parts::Parts;
use super::plain::{assertion, book, constant, memoize, mode_event, package, unmemoize, value};
use super::redundant::redundant_event;
use super::theorem::theorem;
use super::word::{EventWord, word_of};
use gl_logic::{Texts, Tree, World};
use shape_spec::{FnSet, Mode};
use std::alloc::Global;

/// The event that a form means in a world, a mode and a list of memoized functions, or the code of the first
/// check that fails. The table gains the empty name, which the variable of a `case` has.
///
/// The events are those of ACL2's and GL's manuals under their names. A form is looked at in time in proportion
/// to it and to its terms: a redundant event is compared once with the accepted one, and names are looked up in
/// constant time.
pub fn event_of(
    alloc: Global,
    form: &Tree,
    world: &World,
    mode: Mode,
    memoized: &FnSet,
    texts: &mut Texts,
) -> Result<Event, EventFault>
    // The event, or the first code, in the table after the call.
    ensures meant { Gives event_seen (event_meant texts.new world.now mode memoized.now form.now) result }
    // And in each table that begins with it, where it has the texts of the form.
    ensures later { (names : List (List ℕ)) → Extends texts.new names → IsNumbered (length texts.new) form.now
        → Gives event_seen (event_meant names world.now mode memoized.now form.now) result }
    ensures gains { GainsAtMost [] texts.old texts.new }
    ensures ok { OnOk result (texts.new ≡ with_name texts.old []) }
    // The world takes the event: a name is free, a definition is admitted, terms are of the world.
    ensures suits { IfOk result (λ e. Suits world.now (event_seen e)) }
{
    // the table gains the empty text
    let _unnamed = texts.id_of(b"")?;
    named(alloc, form, world, mode, memoized, texts)
}

/// The same in a table that has the empty name.
fn named(
    alloc: Global,
    form: &Tree,
    world: &World,
    mode: Mode,
    memoized: &FnSet,
    texts: &mut Texts,
) -> Result<Event, EventFault>
    requires { with_name texts.old [] ≡ texts.old }
    ensures meant { Gives event_seen (event_by texts.old world.now mode memoized.now form.now) result }
    ensures texts { texts.new ≡ texts.old }
{
    let Some(word) = word_of(texts, form) else {
        return Err(EventFault::UnknownEvent);
    };
    let parts = behind(form);
    if let Some(event) = redundant_event(alloc, texts, world, word, form, &parts)? {
        return Ok(event);
    }
    match parts {
        Some(parts) => checked(alloc, texts, world, mode, memoized, word, &parts),
        None => Err(EventFault::BadEvent),
    }
}

/// The elements behind the head of a form that is a proper list.
fn behind(form: &Tree) -> Option<Parts<'_>>
    requires { form.now ≢ nil }
    ensures { result ≡ elements (behind_head form.now) }
{
    let (_, rest) = Parts::of(form)?.first()?;
    Some(rest)
}

/// The event of a proper list, by its word and by what stands behind it.
fn checked(
    alloc: Global,
    texts: &mut Texts,
    world: &World,
    mode: Mode,
    memoized: &FnSet,
    word: EventWord,
    parts: &Parts<'_>,
) -> Result<Event, EventFault>
    requires { with_name texts.old [] ≡ texts.old }
    ensures meant { Gives event_seen (checked_meant texts.old world.now mode memoized.now word parts.now) result }
    ensures texts { texts.new ≡ texts.old }
{
    match word {
        EventWord::InPackage => package(texts, parts),
        EventWord::IncludeBook => book(texts, parts),
        EventWord::Defun => defun(alloc, texts, world, parts),
        EventWord::MutualRecursion => clique(alloc, texts, world, parts),
        EventWord::Defconst => constant(alloc, texts, world, parts),
        EventWord::ValueTriple => value(alloc, texts, world, parts),
        EventWord::AssertEvent => assertion(alloc, texts, world, parts),
        EventWord::Memoize => memoize(texts, world, parts),
        EventWord::Unmemoize => unmemoize(texts, world, parts),
        EventWord::BddMode => mode_event(Mode::Bdd, parts),
        EventWord::SatMode => mode_event(Mode::Sat, parts),
        EventWord::ParamMode => mode_event(Mode::Param, parts),
        EventWord::Theorem => theorem(alloc, texts, world, mode, memoized, parts),
        EventWord::ParamTheorem => by_cases(alloc, texts, world, mode, memoized, parts),
    }
}
