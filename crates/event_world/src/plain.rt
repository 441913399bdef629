//! The events that make no name, and constants.

ghost use Rattle.std.specs.Prelude.{◌≡◌, ◌<◌, [], length, Some, None, MatchOption, IfSome};
ghost use Rattle.std.specs.Option.{option_map, option_copied, option_and_then};
ghost use Rattle.gl_logic.specs.Names.{with_name};
ghost use Rattle.event_world.specs.Outcomes.{Gives};
ghost use Rattle.event_world.specs.Seen.{event_seen};
ghost use Rattle.event_world.specs.EventSeen.{Value, Assert, Memoize, Unmemoize};
ghost use Rattle.event_world.specs.PlainForms.{package_by, book_by, quoted_part as quoted_meant, function_in, memo_by, evaluation_by, defconst_by};
ghost use Rattle.event_world.specs.PlainMeant.{mode_meant, function_named as function_meant};

use super::event::Event;
use super::fault::EventFault;
use super::names::{constant_name, is_taken};
use super::parts::Parts;
use super::texts::is_string;
use super::translated::closed_term;
use gl_logic::wording::spells;
use gl_logic::{FnId, Texts, Tree, TreeKind, World};
use gl_translate::TermFault;
use shape_spec::Mode;
use std::alloc::Global;

/// `(in-package "ACL2")`
pub(crate) fn package(texts: &Texts, parts: &Parts<'_>) -> Result<Event, EventFault>
    ensures { Gives event_seen (package_by texts.now parts.now) result }
{
    match parts.one() {
        Some(name) => {
            if is_string(texts, b"ACL2", name) {
                Ok(Event::Nothing)
            } else {
                Err(EventFault::BadEvent)
            }
        }
        None => Err(EventFault::BadEvent),
    }
}

/// `(include-book "centaur/gl/gl" :dir :system)`
pub(crate) fn book(texts: &Texts, parts: &Parts<'_>) -> Result<Event, EventFault>
    ensures { Gives event_seen (book_by texts.now parts.now) result }
{
    match parts.three() {
        Some((name, dir, system)) => {
            if is_string(texts, b"centaur/gl/gl", name)
                && (spells(texts, b":DIR", dir) && spells(texts, b":SYSTEM", system))
            {
                Ok(Event::Nothing)
            } else {
                Err(EventFault::BadEvent)
            }
        }
        None => Err(EventFault::BadEvent),
    }
}

/// `(gl-bdd-mode)`, `(gl-satlink-mode)`
pub(crate) fn mode_event(mode: Mode, parts: &Parts<'_>) -> Result<Event, EventFault>
    ensures { Gives event_seen (mode_meant mode parts.now) result }
{
    if parts.is_empty() {
        Ok(Event::Mode(mode))
    } else {
        Err(EventFault::BadEvent)
    }
}

/// What stands behind the quote of `('f)`.
fn quoted_part<'a>(texts: &Texts, parts: &Parts<'a>) -> Option<&'a Tree>
    ensures { option_copied result ≡ quoted_meant texts.now parts.now }
{
    let (quote, object) = Parts::of(parts.one()?)?.two()?;
    if spells(texts, b"QUOTE", quote) {
        Some(object)
    } else {
        None
    }
}

/// The definition that an object names.
fn function_named(world: &World, object: &Tree) -> Option<FnId>
    ensures { option_map (λ f. f.number) result ≡ function_meant world.now object.now }
{
    match object.kind() {
        TreeKind::Symbol(name) => world.find(name),
        _ => None,
    }
}

/// The function of `(memoize 'f)` or `(unmemoize 'f)`.
fn memoized(texts: &Texts, world: &World, parts: &Parts<'_>) -> Result<FnId, EventFault>
    ensures { Gives (λ f. f.number) (function_in texts.now world.now parts.now) result }
{
    let Some(object) = quoted_part(texts, parts) else {
        return Err(EventFault::BadEvent);
    };
    match function_named(world, object) {
        Some(f) => Ok(f),
        None => Err(EventFault::Term(TermFault::UnknownFunction)),
    }
}

/// `(memoize 'f)`
pub(crate) fn memoize(texts: &Texts, world: &World, parts: &Parts<'_>) -> Result<Event, EventFault>
    ensures { Gives event_seen (memo_by texts.now world.now Memoize parts.now) result }
{
    Ok(Event::Memoize(memoized(texts, world, parts)?))
}

/// `(unmemoize 'f)`
pub(crate) fn unmemoize(
    texts: &Texts,
    world: &World,
    parts: &Parts<'_>,
) -> Result<Event, EventFault>
    ensures { Gives event_seen (memo_by texts.now world.now Unmemoize parts.now) result }
{
    Ok(Event::Unmemoize(memoized(texts, world, parts)?))
}

/// `(value-triple e)`
pub(crate) fn value(
    alloc: Global,
    texts: &mut Texts,
    world: &World,
    parts: &Parts<'_>,
) -> Result<Event, EventFault>
    requires { with_name texts.old [] ≡ texts.old }
    ensures meant { Gives event_seen (evaluation_by texts.old world.now Value parts.now) result }
    ensures texts { texts.new ≡ texts.old }
{
    match parts.one() {
        Some(form) => Ok(Event::Value(closed_term(alloc, form, world, texts)?)),
        None => Err(EventFault::BadEvent),
    }
}

/// `(assert-event e)`
pub(crate) fn assertion(
    alloc: Global,
    texts: &mut Texts,
    world: &World,
    parts: &Parts<'_>,
) -> Result<Event, EventFault>
    requires { with_name texts.old [] ≡ texts.old }
    ensures meant { Gives event_seen (evaluation_by texts.old world.now Assert parts.now) result }
    ensures texts { texts.new ≡ texts.old }
{
    match parts.one() {
        Some(form) => Ok(Event::Assert(closed_term(alloc, form, world, texts)?)),
        None => Err(EventFault::BadEvent),
    }
}

/// `(defconst *c* e)`
pub(crate) fn constant(
    alloc: Global,
    texts: &mut Texts,
    world: &World,
    parts: &Parts<'_>,
) -> Result<Event, EventFault>
    requires { with_name texts.old [] ≡ texts.old }
    ensures meant { Gives event_seen (defconst_by texts.old world.now parts.now) result }
    ensures texts { texts.new ≡ texts.old }
{
    let Some((object, form)) = parts.two() else {
        return Err(EventFault::BadEvent);
    };
    let Some(name) = constant_name(texts, object) else {
        return Err(EventFault::BadEvent);
    };
    if is_taken(texts, world, name) {
        return Err(EventFault::Redefined);
    }
    let term = closed_term(alloc, form, world, texts)?;
    Ok(Event::Defconst(name, term))
}
