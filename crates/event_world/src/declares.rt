//! What stands before the body of a definition.

ghost use Rattle.std.specs.Prelude.{◌≡◌, IfOk};
ghost use Rattle.std.specs.Option.{option_copied};
ghost use Rattle.gl_logic.specs.Wording.{elements};
ghost use Rattle.event_world.specs.Declares.{is_text as text_is, is_declare as declare_is, is_ignored as ignored_is, declared_pairs, all_pairs, pairs_before as pairs_meant, xargs_of, stated_of, stated_in, stated_measure as stated_meant};

use super::keyword_table::KeywordTable;
use super::keywords::{Keywords, pairs_of};
use super::measure::measure;
use super::parts::Parts;
use gl_logic::wording::spells;
use gl_logic::{Measure, NoMemory, Texts, Tree, TreeKind};
use std::alloc::Global;

/// Whether an object is a string.
pub(crate) fn is_text(object: &Tree) -> bool
    ensures { result ≡ text_is object.now }
{
    matches!(object.kind(), TreeKind::Text(_))
}

/// Whether an object is a cons with the head `declare`.
pub(crate) fn is_declare(texts: &Texts, object: &Tree) -> bool
    ensures { result ≡ declare_is texts.now object.now }
{
    match object.elements() {
        [.., head] => spells(texts, b"DECLARE", head),
        [] => false,
    }
}

/// Whether what a `declare` says with this head is ignored.
fn is_ignored(texts: &Texts, head: &Tree) -> bool
    ensures { result ≡ ignored_is texts.now head.now }
{
    spells(texts, b"IGNORE", head)
        || (spells(texts, b"IGNORABLE", head)
            || (spells(texts, b"TYPE", head) || spells(texts, b"OPTIMIZE", head)))
}

/// The keywords of one form in a `declare`, and None where it may not stand there.
fn declared<'a>(
    alloc: Global,
    texts: &Texts,
    form: &'a Tree,
) -> Result<Option<Keywords<'a>>, NoMemory>
    ensures { IfOk result (λ o. o ≡ declared_pairs texts.now (elements form.now)) }
{
    let Some(parts) = Parts::of(form) else {
        return Ok(None);
    };
    let Some((head, rest)) = parts.first() else {
        return Ok(None);
    };
    if is_ignored(texts, head) {
        Ok(Some(Keywords::new(alloc)))
    } else if spells(texts, b"XARGS", head) {
        pairs_of(alloc, texts, &rest)
    } else {
        Ok(None)
    }
}

/// The keywords of a form before the body: a string, or `(declare ..)`.
fn pairs_before<'a>(
    alloc: Global,
    texts: &Texts,
    form: &'a Tree,
) -> Result<Option<Keywords<'a>>, NoMemory>
    ensures { IfOk result (λ o. o ≡ pairs_meant texts.now form.now) }
{
    if form.elements().is_empty() {
        return Ok(Some(Keywords::new(alloc)));
    }
    match Parts::of(form) {
        Some(parts) => match parts.first() {
            Some((_, rest)) => all_declared(alloc, texts, &rest),
            None => Ok(None),
        },
        None => Ok(None),
    }
}

/// The keywords of all forms in a `declare`.
fn all_declared<'a>(
    alloc: Global,
    texts: &Texts,
    forms: &Parts<'a>,
) -> Result<Option<Keywords<'a>>, NoMemory>
    ensures { IfOk result (λ o. o ≡ all_pairs (λ d. declared_pairs texts.now (elements d)) forms.now) }
{
    let mut all = Keywords::new(alloc);
    let mut left = forms.again();
    while let Some((form, rest)) = left.first() {
        let Some(more) = declared(alloc, texts, form)? else {
            return Ok(None);
        };
        all.append(&more)?;
        left = rest;
    }
    Ok(Some(all))
}

/// The keywords of all `xargs` before a body.
fn xargs<'a>(
    alloc: Global,
    texts: &Texts,
    before: &Parts<'a>,
) -> Result<Option<Keywords<'a>>, NoMemory>
    ensures { IfOk result (λ o. o ≡ xargs_of texts.now before.now) }
{
    let mut all = Keywords::new(alloc);
    let mut left = before.again();
    while let Some((form, rest)) = left.first() {
        let Some(more) = pairs_before(alloc, texts, form)? else {
            return Ok(None);
        };
        all.append(&more)?;
        left = rest;
    }
    Ok(Some(all))
}

/// The measure that is the value of `:measure`, where there is one; None where it is no measure.
fn stated_value(texts: &Texts, formals: &Parts<'_>, value: Option<&Tree>) -> Option<Option<Measure>>
    ensures { result ≡ stated_of texts.now formals.now (option_copied value.entry) }
{
    match value {
        None => Some(None),
        Some(form) => match measure(texts, formals, form) {
            Some(found) => Some(Some(found)),
            None => None,
        },
    }
}

/// The measure that a definition states, where it states one. None where what stands before its body may not
/// stand there.
pub(crate) fn stated_measure(
    alloc: Global,
    texts: &Texts,
    formals: &Parts<'_>,
    before: &Parts<'_>,
) -> Result<Option<Option<Measure>>, NoMemory>
    ensures { IfOk result (λ o. o ≡ stated_meant texts.now formals.now before.now) }
{
    let Some(pairs) = xargs(alloc, texts, before)? else {
        return Ok(None);
    };
    match pairs.are_of(alloc, texts, KeywordTable::Xargs) {
        Ok(true) => {
            let stated = stated_value(texts, formals, pairs.value(texts, b":MEASURE"));
            drop(pairs);
            Ok(stated)
        }
        Ok(false) => {
            drop(pairs);
            Ok(None)
        }
        Err(fault) => {
            drop(pairs);
            Err(fault)
        }
    }
}
