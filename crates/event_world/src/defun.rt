//! Definitions.

ghost use Rattle.std.specs.Prelude.{◌≡◌, ◌≤◌, [], ◌∷◌, length, IfOk};
ghost use Rattle.gl_logic.specs.DefinitionOf.{definition_of};
ghost use Rattle.gl_logic.specs.Names.{with_name};
ghost use Rattle.gl_logic.specs.TermOf.{term_of};
ghost use Rattle.event_world.specs.Outcomes.{Gives};
ghost use Rattle.event_world.specs.Seen.{event_seen};
ghost use Rattle.event_world.specs.FormsSeen.{defun_seen};
ghost use Rattle.event_world.specs.DefunMeant.{body_meant, judged as judged_meant, defun_meant};
ghost use Rattle.event_world.specs.DefunForms.{defun_made};

use super::declares::stated_measure;
use super::defun_form::{DefunForm, defun_form, formals_of};
use super::event::Event;
use super::fault::EventFault;
use super::names::is_taken;
use super::parts::Parts;
use super::translated::term_in;
use admission::{AdmitFault, admit};
use gl_logic::{Def, FnId, Measure, Names, NoMemory, Term, TextId, Texts, Tree, World};
use gl_translate::{Owns, Scope, TermFault};
use std::alloc::Global;

/// A definition whose body is known, where each recursive call is a step.
fn judged(world: &World, def: Def, stated: Option<Measure>) -> Result<Event, EventFault>
    ensures { Gives event_seen (judged_meant world.now stated (definition_of def)) result }
{
    let number = FnId {
        number: world.count(),
    };
    match admit(number, &def.formals, &def.body, stated) {
        Ok(measure) => Ok(Event::Defun(Def {
            name: def.name,
            formals: def.formals,
            body: def.body,
            measure,
        })),
        Err(AdmitFault::NotAdmitted(call)) => {
            drop(def);
            Err(EventFault::NotAdmitted(call))
        }
        Err(AdmitFault::Memory) => {
            drop(def);
            Err(EventFault::Memory)
        }
    }
}

/// The one definition that is being made.
fn owns(alloc: Global, name: TextId, formals: &Names) -> Result<Owns, NoMemory>
    requires { length formals.now ≤ 255 }
    ensures { IfOk result (λ o. o ≡ (name.number, length formals.now) ∷ []) }
{
    let mut own = Owns::new(alloc);
    own.push(name, formals.len() as u32)?;
    Ok(own)
}

/// The body of a definition, by its form.
fn body(
    alloc: Global,
    texts: &mut Texts,
    world: &World,
    name: TextId,
    formals: &Names,
    form: &Tree,
) -> Result<Term, EventFault>
    requires name { with_name texts.old [] ≡ texts.old }
    requires few { length formals.now ≤ 255 }
    ensures meant { Gives term_of (body_meant texts.old world.now ((name.number, length formals.now) ∷ []) formals.now form.now) result }
    ensures texts { texts.new ≡ texts.old }
{
    let scope = Scope {
        vars: formals.copy(alloc)?,
        every: false,
        own: owns(alloc, name, formals)?,
    };
    let found = term_in(alloc, form, &scope, world, texts);
    drop(scope);
    found
}

/// The definition of a form that has passed the checks of its options and its name.
fn made(
    alloc: Global,
    texts: &mut Texts,
    world: &World,
    form: &DefunForm<'_>,
    stated: Option<Measure>,
) -> Result<Event, EventFault>
    requires { with_name texts.old [] ≡ texts.old }
    ensures meant { Gives event_seen (defun_made texts.old world.now (defun_seen form.now) stated) result }
    ensures texts { texts.new ≡ texts.old }
{
    let Some(formals) = formals_of(alloc, texts, &form.formals)? else {
        return Err(EventFault::Term(TermFault::BadUse));
    };
    let term = body(alloc, texts, world, form.name, &formals, form.body)?;
    judged(
        world,
        Def {
            name: form.name,
            formals,
            body: term,
            measure: None,
        },
        stated,
    )
}

/// `(defun f (v ..) body)`, by what stands behind `defun`.
pub(crate) fn defun(
    alloc: Global,
    texts: &mut Texts,
    world: &World,
    parts: &Parts<'_>,
) -> Result<Event, EventFault>
    requires { with_name texts.old [] ≡ texts.old }
    ensures meant { Gives event_seen (defun_meant texts.old world.now parts.now) result }
    ensures texts { texts.new ≡ texts.old }
{
    let Some(form) = defun_form(texts, parts) else {
        return Err(EventFault::BadEvent);
    };
    let Some(stated) = stated_measure(alloc, texts, &form.formals, &form.before)? else {
        return Err(EventFault::BadOption);
    };
    if is_taken(texts, world, form.name) {
        return Err(EventFault::Redefined);
    }
    made(alloc, texts, world, &form, stated)
}
