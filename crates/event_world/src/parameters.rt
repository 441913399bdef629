//! The parameters of cases, and where they may stand.

ghost use Rattle.std.specs.Prelude.{◌≡◌, ℕ, ◌&&◌, bytes_eq, eqb, map, IfOk};
ghost use Rattle.std.specs.List.{list_any};
ghost use Rattle.event_world.specs.CasesMeant.{parameters as parameters_of, has_any as has_any_of};
ghost use Rattle.event_world.specs.CasesForms.{is_without as without_is, are_without as without_are, is_kept as kept_are};
ghost use Rattle.event_world.specs.FormsSeen.{cases_form_seen, case_form_seen};

use super::cases_form::{CaseForm, CasesForm};
use gl_logic::name_set::NameSet;
use gl_logic::{Names, NoMemory, Tree, TreeKind};
use shape_spec::Inputs;
use std::alloc::Global;

/// The parameters alone.
pub(crate) fn variables(alloc: Global, constants: &Inputs) -> Result<Names, NoMemory>
    ensures { IfOk result (λ n. n ≡ map (λ p. p.0) constants.now) }
{
    let mut all = Names::new(alloc);
    for i in 0..constants.len() {
        let (name, _) = constants.at(i);
        all.push(name)?;
    }
    Ok(all)
}

/// Whether two cases have the same parameters in the same order.
pub(crate) fn have_same_parameters(first: &Inputs, second: &Inputs) -> bool
    ensures { result ≡ bytes_eq (map (λ p. p.0) first.now) (map (λ p. p.0) second.now) }
{
    if first.len() != second.len() {
        return false;
    }
    for i in 0..first.len() {
        let (name, _) = first.at(i);
        let (other, _) = second.at(i);
        if name.number != other.number {
            return false;
        }
    }
    true
}

/// The parameters of cases, which are those of the first one.
fn parameters(alloc: Global, cases: &[CaseForm<'_>]) -> Result<NameSet, NoMemory>
    ensures { IfOk result (λ ns. (v : ℕ) → list_any (eqb v) ns ≡ list_any (eqb v) (parameters_of (map case_form_seen cases.now))) }
{
    let mut names = NameSet::new(alloc);
    if let [first, ..] = cases {
        names.insert_all(&variables(alloc, &first.constants)?)?;
    }
    Ok(names)
}

/// Whether a symbol of a set stands somewhere in an object, quoted or not.
#[cycle(any)]
fn has_any(names: &NameSet, object: &Tree) -> bool
    ensures { result ≡ has_any_of names.now object.now }
{
    match object.kind() {
        TreeKind::Symbol(name) => names.contains(name),
        TreeKind::List => have_any(names, object.elements()) || has_any(names, object.tail()),
        _ => false,
    }
}

#[cycle(any)]
fn have_any(names: &NameSet, objects: &[Tree]) -> bool
    ensures { result ≡ list_any (has_any_of names.now) objects.now }
{
    for object in objects {
        if has_any(names, object) {
            return true;
        }
    }
    false
}

/// Whether no symbol of a set stands in the hypothesis, the conclusion and the bindings of the cover.
fn is_without(names: &NameSet, form: &CasesForm<'_>) -> bool
    ensures { result ≡ without_is names.now (cases_form_seen form.now) }
{
    if let Some(hyp) = form.hyp {
        if has_any(names, hyp) {
            return false;
        }
    }
    !has_any(names, form.concl) && !has_any(names, form.cover)
}

/// Whether no symbol of a set stands in the bindings of the cases.
fn are_without(names: &NameSet, cases: &[CaseForm<'_>]) -> bool
    ensures { result ≡ without_are names.now (map case_form_seen cases.now) }
{
    for case in cases {
        if has_any(names, case.bindings) {
            return false;
        }
    }
    true
}

/// Whether no symbol of a set stands outside the term of the cases.
fn all_without(names: &NameSet, form: &CasesForm<'_>, cases: &[CaseForm<'_>]) -> bool
    ensures { result ≡ (without_is names.now (cases_form_seen form.now) && without_are names.now (map case_form_seen cases.now)) }
{
    is_without(names, form) && are_without(names, cases)
}

/// Whether the parameters stand in the term of the cases alone.
pub(crate) fn are_kept(
    alloc: Global,
    form: &CasesForm<'_>,
    cases: &[CaseForm<'_>],
) -> Result<bool, NoMemory>
    ensures { IfOk result (λ b. b ≡ kept_are (cases_form_seen form.now) (map case_form_seen cases.now)) }
{
    let names = parameters(alloc, cases)?;
    Ok(all_without(&names, form, cases))
}
