//! The members of a clique, by their forms.

ghost use Rattle.std.specs.Prelude.{◌≡◌, map, IfOk};
ghost use Rattle.std.specs.Option.{option_map};
ghost use Rattle.event_world.specs.CliqueMeant.{member_parts, are_members as members_are};
ghost use Rattle.event_world.specs.CliqueForms.{clique_parts as clique_meant, all_stated as stated_meant, are_new as new_are, all_made as made_meant};
ghost use Rattle.gl_logic.specs.Wording.{all_meant};
ghost use Rattle.event_world.specs.FormsSeen.{defun_seen, stated_seen, made_seen};

use super::declares::stated_measure;
use super::defun_form::{DefunForm, defun_form, formals_of};
use super::names::is_taken;
use super::parts::Parts;
use gl_logic::name_set::are_different;
use gl_logic::wording::spells;
use gl_logic::{Measure, Names, NoMemory, TextId, Texts, Tree, World};
use std::alloc::Global;

/// A member with the measure that it states.
#[derive(Drop)]
pub(crate) struct StatedForm<'a> {
    pub(crate) form: DefunForm<'a>,
    pub(crate) stated: Option<Measure>,
}

/// A member whose formals are known.
#[derive(Drop)]
pub(crate) struct MadeForm<'a> {
    pub(crate) name: TextId,
    pub(crate) formals: Names,
    pub(crate) body: &'a Tree,
    pub(crate) stated: Option<Measure>,
}

/// The parts of a member: `(defun ..)`.
fn member_form<'a>(texts: &Texts, form: &'a Tree) -> Option<DefunForm<'a>>
    ensures { option_map defun_seen result ≡ member_parts texts.now form.now }
{
    let (head, parts) = Parts::of(form)?.first()?;
    if spells(texts, b"DEFUN", head) {
        defun_form(texts, &parts)
    } else {
        None
    }
}

/// All members, where each has the parts of a definition.
fn all_members<'a>(
    alloc: Global,
    texts: &Texts,
    parts: &Parts<'a>,
) -> Result<Option<Vec<DefunForm<'a>>>, NoMemory>
    ensures { IfOk result (λ o. option_map (λ v. map defun_seen v.items) o ≡ all_meant (member_parts texts.now) parts.now) }
{
    let mut all = Vec::new(alloc);
    let mut left = parts.again();
    while let Some((form, rest)) = left.first() {
        let Some(member) = member_form(texts, form) else {
            return Ok(None);
        };
        all.push(member)?;
        left = rest;
    }
    Ok(Some(all))
}

/// Whether there are 1 to 16 members, no two of one name.
fn are_members(alloc: Global, members: &[DefunForm<'_>]) -> Result<bool, NoMemory>
    ensures { IfOk result (λ b. b ≡ members_are (map defun_seen members.now)) }
{
    if members.is_empty() || members.len() > 16 {
        return Ok(false);
    }
    are_different(alloc, &names(alloc, members)?)
}

/// The names of the members.
fn names(alloc: Global, members: &[DefunForm<'_>]) -> Result<Names, NoMemory>
    ensures { IfOk result (λ n. n ≡ map (λ d. d.name) (map defun_seen members.now)) }
{
    let mut all = Names::new(alloc);
    for member in members {
        all.push(member.name)?;
    }
    Ok(all)
}

/// The members of a clique, by what stands behind `mutual-recursion`.
pub(crate) fn clique_form<'a>(
    alloc: Global,
    texts: &Texts,
    parts: &Parts<'a>,
) -> Result<Option<Vec<DefunForm<'a>>>, NoMemory>
    ensures { IfOk result (λ o. option_map (λ v. map defun_seen v.items) o ≡ clique_meant texts.now parts.now) }
{
    let Some(members) = all_members(alloc, texts, parts)? else {
        return Ok(None);
    };
    match are_members(alloc, members.as_slice()) {
        Ok(true) => Ok(Some(members)),
        Ok(false) => {
            drop(members);
            Ok(None)
        }
        Err(fault) => {
            drop(members);
            Err(fault)
        }
    }
}

/// The members with the measures that they state.
pub(crate) fn all_stated<'a>(
    alloc: Global,
    texts: &Texts,
    members: &[DefunForm<'a>],
) -> Result<Option<Vec<StatedForm<'a>>>, NoMemory>
    ensures { IfOk result (λ o. option_map (λ v. map stated_seen v.items) o ≡ stated_meant texts.now (map defun_seen members.now)) }
{
    let mut all = Vec::new(alloc);
    for member in members {
        let Some(stated) = stated_measure(alloc, texts, &member.formals, &member.before)? else {
            return Ok(None);
        };
        all.push(StatedForm {
            form: member.again(),
            stated,
        })?;
    }
    Ok(Some(all))
}

/// Whether no member has a name that is taken.
pub(crate) fn are_new(texts: &Texts, world: &World, members: &[StatedForm<'_>]) -> bool
    ensures { result ≡ new_are texts.now world.now (map stated_seen members.now) }
{
    for member in members {
        if is_taken(texts, world, member.form.name) {
            return false;
        }
    }
    true
}

/// The members with their formals.
pub(crate) fn all_made<'a>(
    alloc: Global,
    texts: &Texts,
    members: &[StatedForm<'a>],
) -> Result<Option<Vec<MadeForm<'a>>>, NoMemory>
    ensures { IfOk result (λ o. option_map (λ v. map made_seen v.items) o ≡ made_meant texts.now (map stated_seen members.now)) }
{
    let mut all = Vec::new(alloc);
    for member in members {
        let Some(formals) = formals_of(alloc, texts, &member.form.formals)? else {
            return Ok(None);
        };
        all.push(MadeForm {
            name: member.form.name,
            formals,
            body: member.form.body,
            stated: member.stated,
        })?;
    }
    Ok(Some(all))
}
