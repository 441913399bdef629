//! The parts of a definition's form.

ghost use Rattle.std.specs.Prelude.{◌≡◌, ◌||◌, leb, IfOk};
ghost use Rattle.std.specs.List.{list_all};
ghost use Rattle.std.specs.Option.{option_map};
ghost use Rattle.gl_logic.specs.Wording.{all_meant};
ghost use Rattle.event_world.specs.NamesMeant.{plain_name as plain_name_meant};
ghost use Rattle.event_world.specs.Declares.{is_text as text_is, is_declare as declare_is};
ghost use Rattle.event_world.specs.DefunMeant.{defun_parts as parts_meant, texts_in, may_stand_before as may_stand, formals_meant};
ghost use Rattle.event_world.specs.FormsSeen.{defun_seen};

use super::declares::{is_declare, is_text};
use super::names::plain_name;
use super::parts::Parts;
use gl_logic::name_set::are_different;
use gl_logic::{Names, NoMemory, TextId, Texts, Tree};
use std::alloc::Global;

/// The parts of `(defun f (v ..) body)`.
#[derive(Drop)]
pub(crate) struct DefunForm<'a> {
    /// The name.
    pub(crate) name: TextId,
    /// The formals as they are written.
    pub(crate) formals: Parts<'a>,
    /// What stands between the formals and the body.
    pub(crate) before: Parts<'a>,
    /// The body.
    pub(crate) body: &'a Tree,
}

impl<'a> DefunForm<'a> {
    /// The same parts once more.
    pub(crate) fn again(&self) -> DefunForm<'a>
        ensures { defun_seen result ≡ defun_seen self.now }
    {
        DefunForm {
            name: self.name,
            formals: self.formals.again(),
            before: self.before.again(),
            body: self.body,
        }
    }
}

/// Whether each is a string or a `declare`.
fn are_texts_and_declares(texts: &Texts, before: &Parts<'_>) -> bool
    ensures { result ≡ list_all (λ x. text_is x || declare_is texts.now x) before.now }
{
    let mut left = before.again();
    while let Some((form, rest)) = left.first() {
        if !(is_text(form) || is_declare(texts, form)) {
            return false;
        }
        left = rest;
    }
    true
}

/// Whether at most one is a string.
fn has_few_texts(before: &Parts<'_>) -> bool
    ensures { result ≡ leb (texts_in before.now) 1 }
{
    let mut found = false;
    let mut left = before.again();
    while let Some((form, rest)) = left.first() {
        if is_text(form) {
            if found {
                return false;
            }
            found = true;
        }
        left = rest;
    }
    true
}

fn may_stand_before(texts: &Texts, before: &Parts<'_>) -> bool
    ensures { result ≡ may_stand texts.now before.now }
{
    are_texts_and_declares(texts, before) && has_few_texts(before)
}

/// The parts of a definition, by what stands behind `defun`.
pub(crate) fn defun_form<'a>(texts: &Texts, parts: &Parts<'a>) -> Option<DefunForm<'a>>
    ensures { option_map defun_seen result ≡ parts_meant texts.now parts.now }
{
    let (object, rest) = parts.first()?;
    let (list, behind) = rest.first()?;
    let name = plain_name(texts, object)?;
    let formals = Parts::of(list)?;
    let (before, body) = behind.last()?;
    if may_stand_before(texts, &before) {
        Some(DefunForm {
            name,
            formals,
            before,
            body,
        })
    } else {
        None
    }
}

/// The formals of a definition; None where one is no legal variable, one stands twice, or there are more than
/// 255.
pub(crate) fn formals_of(
    alloc: Global,
    texts: &Texts,
    formals: &Parts<'_>,
) -> Result<Option<Names>, NoMemory>
    ensures { IfOk result (λ o. o ≡ formals_meant texts.now formals.now) }
{
    let Some(all) = all_legal(alloc, texts, formals)? else {
        return Ok(None);
    };
    match are_different(alloc, &all) {
        Ok(told) => {
            if told && all.len() <= 255 {
                Ok(Some(all))
            } else {
                drop(all);
                Ok(None)
            }
        }
        Err(fault) => {
            drop(all);
            Err(fault)
        }
    }
}

/// The formals, where each is a legal variable.
fn all_legal(alloc: Global, texts: &Texts, formals: &Parts<'_>) -> Result<Option<Names>, NoMemory>
    ensures { IfOk result (λ o. o ≡ all_meant (plain_name_meant texts.now) formals.now) }
{
    let mut all = Names::new(alloc);
    let mut left = formals.again();
    while let Some((formal, rest)) = left.first() {
        let Some(name) = plain_name(texts, formal) else {
            return Ok(None);
        };
        all.push(name)?;
        left = rest;
    }
    Ok(Some(all))
}
