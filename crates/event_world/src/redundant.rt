//! Redundant events.

ghost use Rattle.std.specs.Prelude.{◌≡◌, IfOk, Some};
ghost use Rattle.std.specs.Option.{option_copied, option_map};
ghost use Rattle.gl_logic.specs.Named.{object_named};
ghost use Rattle.gl_logic.specs.ObjectEq.{object_eq};
ghost use Rattle.gl_logic.specs.Wording.{all_meant};
ghost use Rattle.event_world.specs.RedundantMeant.{is_same, second_in, repeated_symbol as symbol_meant, repeated_name as repeated_meant, repeated_member as member_meant, are_repeated as repeated_are, redundant, redundant_clique};
ghost use Rattle.event_world.specs.EventForms.{redundant_by};
ghost use Rattle.event_world.specs.Seen.{event_seen};

use super::event::Event;
use super::parts::Parts;
use super::word::EventWord;
use gl_logic::name_set::are_different;
use gl_logic::wording::spells;
use gl_logic::{Names, NoMemory, TextId, Texts, Tree, TreeKind, World};
use std::alloc::Global;

/// Whether two objects are the same.
fn same_object(object: &Tree, other: &Tree) -> bool
    ensures { result ≡ object_eq object.now other.now }
{
    object.same(other)
}

/// What stands right behind the head of a form.
fn second_of(form: &Tree) -> Option<&Tree>
    ensures { option_copied result ≡ second_in form.now }
{
    match form.elements() {
        [.., second, _] => Some(second),
        _ => None,
    }
}

/// Whether the accepted event of a name has this form.
fn is_noted(world: &World, form: &Tree, name: TextId) -> bool
    ensures { result ≡ is_same form.now (object_named world.now.events name.number) }
{
    match world.noted(name) {
        Some(other) => same_object(form, other),
        None => false,
    }
}

/// The name that an object is, where the accepted event of that name has this form.
fn repeated_symbol(world: &World, form: &Tree, object: &Tree) -> Option<TextId>
    ensures { option_map (λ t. t.number) result ≡ symbol_meant world.now form.now object.now }
{
    match object.kind() {
        TreeKind::Symbol(name) => {
            if is_noted(world, form, name) {
                Some(name)
            } else {
                None
            }
        }
        _ => None,
    }
}

/// The name of a named event whose form is that of the accepted event of its name.
fn repeated_name(world: &World, form: &Tree) -> Option<TextId>
    ensures { option_map (λ t. t.number) result ≡ repeated_meant world.now form.now }
{
    repeated_symbol(world, form, second_of(form)?)
}

/// The name of a member whose form is that of the accepted event of its name.
fn repeated_member(texts: &Texts, world: &World, form: &Tree) -> Option<TextId>
    ensures { option_map (λ t. t.number) result ≡ member_meant texts.now world.now form.now }
{
    let [.., head] = form.elements() else {
        return None;
    };
    if spells(texts, b"DEFUN", head) {
        repeated_name(world, form)
    } else {
        None
    }
}

/// The names of the members, where each is repeated.
fn repeated_members(
    alloc: Global,
    texts: &Texts,
    world: &World,
    parts: &Parts<'_>,
) -> Result<Option<Names>, NoMemory>
    ensures { IfOk result (λ o. o ≡ all_meant (member_meant texts.now world.now) parts.now) }
{
    let mut all = Names::new(alloc);
    let mut left = parts.again();
    while let Some((form, rest)) = left.first() {
        let Some(name) = repeated_member(texts, world, form) else {
            return Ok(None);
        };
        all.push(name)?;
        left = rest;
    }
    Ok(Some(all))
}

/// Whether there are 1 to 16 names, none of them twice.
fn are_repeated(alloc: Global, names: &Names) -> Result<bool, NoMemory>
    ensures { IfOk result (λ b. b ≡ repeated_are names.now) }
{
    if names.len() == 0 || names.len() > 16 {
        return Ok(false);
    }
    are_different(alloc, names)
}

/// A clique whose members are repeated.
fn repeated_clique(
    alloc: Global,
    texts: &Texts,
    world: &World,
    parts: &Parts<'_>,
) -> Result<Option<Event>, NoMemory>
    ensures { IfOk result (λ o. option_map event_seen o ≡ redundant_clique texts.now world.now (Some parts.now)) }
{
    let Some(names) = repeated_members(alloc, texts, world, parts)? else {
        return Ok(None);
    };
    if are_repeated(alloc, &names)? {
        Ok(Some(Event::RedundantClique(names)))
    } else {
        Ok(None)
    }
}

/// A named event that is repeated.
fn repeated(world: &World, form: &Tree) -> Option<Event>
    ensures { option_map event_seen result ≡ redundant world.now form.now }
{
    match repeated_name(world, form) {
        Some(name) => Some(Event::Redundant(name)),
        None => None,
    }
}

/// The event, where it is redundant, of a form with this word and with these elements behind it, where it is a
/// proper list.
pub(crate) fn redundant_event(
    alloc: Global,
    texts: &Texts,
    world: &World,
    word: EventWord,
    form: &Tree,
    parts: &Option<Parts<'_>>,
) -> Result<Option<Event>, NoMemory>
    ensures { IfOk result (λ o. option_map event_seen o ≡ redundant_by texts.now world.now word form.now parts.now) }
{
    match word {
        EventWord::Defun => Ok(repeated(world, form)),
        EventWord::Defconst => Ok(repeated(world, form)),
        EventWord::Theorem => Ok(repeated(world, form)),
        EventWord::ParamTheorem => Ok(repeated(world, form)),
        EventWord::MutualRecursion => match parts {
            Some(members) => repeated_clique(alloc, texts, world, members),
            None => Ok(None),
        },
        _ => Ok(None),
    }
}
