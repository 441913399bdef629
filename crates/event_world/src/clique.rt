//! Definitions that may call one another.

ghost use Rattle.std.specs.Prelude.{◌≡◌, [], ◌∷◌, ◌++◌, map, length, take, not, false, IfOk, OnOk, OnErr};
ghost use Rattle.std.specs.List.{list_any};
ghost use Rattle.gl_logic.specs.DefinitionOf.{definition_of};
ghost use Rattle.gl_logic.specs.Definition.{Definition};
ghost use Rattle.gl_logic.specs.IsAdmissible.{recursive_calls};
ghost use Rattle.gl_logic.specs.Names.{with_name};
ghost use Rattle.admission.specs.Admitted.{settled, settled_measure};
ghost use Rattle.event_world.specs.Outcomes.{Gives};
ghost use Rattle.event_world.specs.PartsOf.{is_empty};
ghost use Rattle.event_world.specs.Seen.{event_seen};
ghost use Rattle.event_world.specs.FormsSeen.{defun_seen, stated_seen, made_seen};
ghost use Rattle.event_world.specs.CliqueMeant.{owns_of, member_meant, members_meant, with_settled as settled_meant, unmeasured, clique_judged};
ghost use Rattle.event_world.specs.CliqueForms.{clique_made, clique_by};

use super::calls::has_call;
use super::clique_form::{MadeForm, all_made, all_stated, are_new, clique_form};
use super::defun_form::DefunForm;
use super::event::Event;
use super::fault::EventFault;
use super::parts::Parts;
use super::translated::term_in;
use admission::{AdmitFault, admit_clique};
use gl_logic::{Def, Defs, FnId, Measure, Measures, Names, NoMemory, Texts, World};
use gl_translate::{Owns, Scope, TermFault};
use std::alloc::Global;

/// The definitions that are being made. Memory is also the answer where a name stands twice or a member has more
/// formals than can be numbered, which no form of a clique has.
fn owns(alloc: Global, members: &[MadeForm<'_>]) -> Result<Owns, NoMemory>
    ensures { IfOk result (λ o. o ≡ owns_of (map made_seen members.now)) }
{
    let mut own = Owns::new(alloc);
    for member in members {
        push_own(&mut own, member)?;
    }
    Ok(own)
}

/// Puts a member last.
fn push_own(own: &mut Owns, member: &MadeForm<'_>) -> Result<(), NoMemory>
    ensures { OnOk result (own.new ≡ own.old ++ (member.now.name.number, length member.now.formals) ∷ []) }
{
    let Ok(formals) = u32::try_from(member.formals.len()) else {
        return Err(NoMemory);
    };
    if own.place(member.name).is_some() {
        return Err(NoMemory);
    }
    own.push(member.name, formals)
}

/// The definition of one member.
fn member(
    alloc: Global,
    texts: &mut Texts,
    world: &World,
    scope: &mut Scope,
    member: &MadeForm<'_>,
) -> Result<Def, EventFault>
    requires name { with_name texts.old [] ≡ texts.old }
    requires narrow { scope.old.every ≡ false }
    ensures meant { Gives definition_of (member_meant texts.old world.now scope.old.own (made_seen member.now)) result }
    ensures texts { texts.new ≡ texts.old }
    ensures own { scope.new.own ≡ scope.old.own }
    ensures every { scope.new.every ≡ false }
{
    scope.vars = member.formals.copy(alloc)?;
    let formals = member.formals.copy(alloc)?;
    match term_in(alloc, member.body, scope, world, texts) {
        Ok(body) => Ok(Def {
            name: member.name,
            formals,
            body,
            measure: member.stated,
        }),
        Err(fault) => {
            drop(formals);
            Err(fault)
        }
    }
}

/// The definitions of all members, in their order.
fn all_members(
    alloc: Global,
    texts: &mut Texts,
    world: &World,
    members: &[MadeForm<'_>],
) -> Result<Defs, EventFault>
    requires { with_name texts.old [] ≡ texts.old }
    ensures meant { Gives (λ ds. ds) (members_meant texts.old world.now (owns_of (map made_seen members.now)) (map made_seen members.now)) result }
    ensures texts { texts.new ≡ texts.old }
{
    let mut all = Defs::new(alloc);
    define_all(alloc, texts, world, members, &mut all)?;
    Ok(all)
}

/// Puts the definitions of all members, in their order, where there is none yet.
fn define_all(
    alloc: Global,
    texts: &mut Texts,
    world: &World,
    members: &[MadeForm<'_>],
    all: &mut Defs,
) -> Result<(), EventFault>
    requires name { with_name texts.old [] ≡ texts.old }
    requires none { all.old ≡ [] }
    ensures meant { Gives (λ _. all.new) (members_meant texts.old world.now (owns_of (map made_seen members.now)) (map made_seen members.now)) result }
    ensures texts { texts.new ≡ texts.old }
{
    let own = owns(alloc, members)?;
    let mut scope = Scope {
        vars: Names::new(alloc),
        every: false,
        own,
    };
    define_in(alloc, texts, world, members, &mut scope, all)
}

/// The same in a scope that has the definitions that are being made.
fn define_in(
    alloc: Global,
    texts: &mut Texts,
    world: &World,
    members: &[MadeForm<'_>],
    scope: &mut Scope,
    all: &mut Defs,
) -> Result<(), EventFault>
    requires name { with_name texts.old [] ≡ texts.old }
    requires own { scope.old.own ≡ owns_of (map made_seen members.now) }
    requires narrow { scope.old.every ≡ false }
    requires none { all.old ≡ [] }
    ensures meant { Gives (λ _. all.new) (members_meant texts.old world.now (owns_of (map made_seen members.now)) (map made_seen members.now)) result }
    ensures texts { texts.new ≡ texts.old }
{
    for form in members {
        let def = member(alloc, texts, world, scope, form)?;
        all.push(def)?;
    }
    Ok(())
}

/// Whether no body calls a member, where these are numbered from `first` on.
fn have_no_calls(first: FnId, defs: &Defs) -> bool
    ensures { result ≡ is_empty (recursive_calls first.number defs.now) }
{
    let count = defs.len();
    for i in 0..count {
        let def = defs.at(i);
        if has_call(&def.body, first.number, count) {
            return false;
        }
    }
    true
}

/// The members with their measures, and with none where no body calls a member.
fn with_settled(
    alloc: Global,
    first: FnId,
    defs: &Defs,
    measures: &Measures,
) -> Result<Defs, NoMemory>
    requires { measures.now ≡ map settled_measure defs.now }
    ensures { IfOk result (λ ds. ds ≡ settled_meant first.number defs.now) }
{
    if have_no_calls(first, defs) {
        all_unmeasured(alloc, defs)
    } else {
        all_settled(alloc, defs, measures)
    }
}

fn all_unmeasured(alloc: Global, defs: &Defs) -> Result<Defs, NoMemory>
    ensures { IfOk result (λ ds. ds ≡ map unmeasured defs.now) }
{
    let mut all = Defs::new(alloc);
    for i in 0..defs.len() {
        let def = defs.at(i);
        all.push(with_measure(alloc, def, None)?)?;
    }
    Ok(all)
}

fn all_settled(alloc: Global, defs: &Defs, measures: &Measures) -> Result<Defs, NoMemory>
    requires { measures.now ≡ map settled_measure defs.now }
    ensures { IfOk result (λ ds. ds ≡ map settled defs.now) }
{
    let mut all = Defs::new(alloc);
    for i in 0..defs.len() {
        let def = defs.at(i);
        let measure = *measures.at(i);
        all.push(with_measure(alloc, def, measure)?)?;
    }
    Ok(all)
}

/// A definition with another measure.
fn with_measure(alloc: Global, def: &Def, measure: Option<Measure>) -> Result<Def, NoMemory>
    ensures { IfOk result (λ d. definition_of d ≡ record (definition_of def.now) { measure = measure }) }
{
    let formals = def.formals.copy(alloc)?;
    match def.body.copy(alloc) {
        Ok(body) => Ok(Def {
            name: def.name,
            formals,
            body,
            measure,
        }),
        Err(fault) => {
            drop(formals);
            Err(fault)
        }
    }
}

/// Members whose bodies are known, where each recursive call is a step.
fn judged(alloc: Global, world: &World, defs: &Defs) -> Result<Event, EventFault>
    ensures { Gives event_seen (clique_judged world.now defs.now) result }
{
    let first = FnId {
        number: world.count(),
    };
    match admit_clique(alloc, first, defs) {
        Ok(measures) => {
            let settled = with_settled(alloc, first, defs, &measures);
            drop(measures);
            Ok(Event::Clique(settled?))
        }
        Err(AdmitFault::NotAdmitted(call)) => Err(EventFault::NotAdmitted(call)),
        Err(AdmitFault::Memory) => Err(EventFault::Memory),
    }
}

/// A clique whose members have their shape.
fn made(
    alloc: Global,
    texts: &mut Texts,
    world: &World,
    members: &[DefunForm<'_>],
) -> Result<Event, EventFault>
    requires { with_name texts.old [] ≡ texts.old }
    ensures meant { Gives event_seen (clique_made texts.old world.now (map defun_seen members.now)) result }
    ensures texts { texts.new ≡ texts.old }
{
    let Some(stated) = all_stated(alloc, texts, members)? else {
        return Err(EventFault::BadOption);
    };
    if !are_new(texts, world, stated.as_slice()) {
        drop(stated);
        return Err(EventFault::Redefined);
    }
    let Some(made) = all_made(alloc, texts, stated.as_slice())? else {
        drop(stated);
        return Err(EventFault::Term(TermFault::BadUse));
    };
    drop(stated);
    let defs = all_members(alloc, texts, world, made.as_slice())?;
    drop(made);
    judged(alloc, world, &defs)
}

/// `(mutual-recursion (defun ..) ..)`, by what stands behind `mutual-recursion`.
pub(crate) fn clique(
    alloc: Global,
    texts: &mut Texts,
    world: &World,
    parts: &Parts<'_>,
) -> Result<Event, EventFault>
    requires { with_name texts.old [] ≡ texts.old }
    ensures meant { Gives event_seen (clique_by texts.old world.now parts.now) result }
    ensures texts { texts.new ≡ texts.old }
{
    let Some(members) = clique_form(alloc, texts, parts)? else {
        return Err(EventFault::BadEvent);
    };
    made(alloc, texts, world, members.as_slice())
}
