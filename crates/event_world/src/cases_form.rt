//! The parts of the form of a theorem by cases.

ghost use Rattle.std.specs.Prelude.{◌≡◌, bytes_eq, map, IfOk};
ghost use Rattle.std.specs.List.{list_all};
ghost use Rattle.std.specs.Option.{option_map, option_and_then};
ghost use Rattle.gl_logic.specs.Wording.{all_meant, elements as elements_in};
ghost use Rattle.shape_spec.specs.BindingsMeant.{is_backquote as backquote_is};
ghost use Rattle.event_world.specs.PartsOf.{two_in as two_meant};
ghost use Rattle.event_world.specs.CasesForms.{forms_in, cases_parts, quoted_cases as quoted_meant};
ghost use Rattle.event_world.specs.CasesMeant.{constant_meant, constants_meant, case_meant, variables_of_case, are_cases as cases_are, if_cases, is_quoting as quoting_is, cases_of};
ghost use Rattle.event_world.specs.FormsSeen.{cases_form_seen, case_form_seen, quoted_form_seen};

use super::keywords::{Keywords, pairs_of};
use super::names::plain_name;
use super::parameters::{are_kept, have_same_parameters, variables};
use super::parts::Parts;
use gl_logic::name_set::are_different;
use gl_logic::wording::spells;
use gl_logic::{NoMemory, TextId, Texts, Tree, TreeKind};
use shape_spec::Inputs;
use std::alloc::Global;

/// The parts of `(def-gl-param-thm n :key value ..)`.
#[derive(Drop)]
pub(crate) struct CasesForm<'a> {
    /// The name.
    pub(crate) name: TextId,
    /// The hypothesis, where there is one.
    pub(crate) hyp: Option<&'a Tree>,
    /// The conclusion.
    pub(crate) concl: &'a Tree,
    /// The hypothesis of the cases, with parameters in it.
    pub(crate) term: &'a Tree,
    /// The cases.
    pub(crate) cases: &'a Tree,
    /// The bindings of the cover.
    pub(crate) cover: &'a Tree,
    /// All options.
    pub(crate) options: Keywords<'a>,
}

/// A case: the object of each parameter, and the form of the bindings.
#[derive(Drop)]
pub(crate) struct CaseForm<'a> {
    pub(crate) constants: Inputs,
    pub(crate) bindings: &'a Tree,
}

/// Cases behind a quote or a backquote.
#[derive(Drop)]
pub(crate) struct QuotedForm<'a> {
    /// The quote or the backquote.
    pub(crate) mark: &'a Tree,
    pub(crate) cases: Vec<CaseForm<'a>>,
}

/// The parts of a theorem by cases, by what stands behind `def-gl-param-thm`.
pub(crate) fn cases_form<'a>(
    alloc: Global,
    texts: &Texts,
    parts: &Parts<'a>,
) -> Result<Option<CasesForm<'a>>, NoMemory>
    ensures { IfOk result (λ o. option_map cases_form_seen o ≡ cases_parts texts.now parts.now) }
{
    let Some((object, behind)) = parts.first() else {
        return Ok(None);
    };
    let Some(name) = plain_name(texts, object) else {
        return Ok(None);
    };
    let Some(options) = pairs_of(alloc, texts, &behind)? else {
        return Ok(None);
    };
    Ok(with_forms(texts, name, options))
}

/// The same, by its name and its options.
fn with_forms<'a>(texts: &Texts, name: TextId, options: Keywords<'a>) -> Option<CasesForm<'a>>
    ensures { option_map cases_form_seen result ≡ forms_in texts.now name.number options.entry }
{
    let Some(concl) = options.value(texts, b":CONCL") else {
        drop(options);
        return None;
    };
    let Some(term) = options.value(texts, b":PARAM-HYP") else {
        drop(options);
        return None;
    };
    let Some(cases) = options.value(texts, b":PARAM-BINDINGS") else {
        drop(options);
        return None;
    };
    let Some(cover) = options.value(texts, b":COV-BINDINGS") else {
        drop(options);
        return None;
    };
    Some(CasesForm {
        name,
        hyp: options.value(texts, b":HYP"),
        concl,
        term,
        cases,
        cover,
        options,
    })
}

/// The elements of a proper list of two.
fn two_in(form: &Tree) -> Option<(&Tree, &Tree)>
    ensures { option_map (λ p. (p.0.now, p.1.now)) result ≡ two_meant form.now }
{
    Parts::of(form)?.two()
}

/// `(v k)`: a parameter with its object.
fn constant<'a>(texts: &Texts, form: &'a Tree) -> Option<(TextId, &'a Tree)>
    ensures { option_map (λ p. (p.0.number, p.1.now)) result ≡ constant_meant texts.now form.now }
{
    let (variable, object) = two_in(form)?;
    let name = plain_name(texts, variable)?;
    Some((name, object))
}

/// The parameters with their objects, where each element is one.
fn all_constants(
    alloc: Global,
    texts: &Texts,
    parts: &Parts<'_>,
) -> Result<Option<Inputs>, NoMemory>
    ensures { IfOk result (λ o. o ≡ all_meant (constant_meant texts.now) parts.now) }
{
    let mut all = Inputs::new(alloc);
    let mut left = parts.again();
    while let Some((form, rest)) = left.first() {
        let Some((name, object)) = constant(texts, form) else {
            return Ok(None);
        };
        all.push(name, object.copy(alloc)?)?;
        left = rest;
    }
    Ok(Some(all))
}

/// `((v k) ..)`: different parameters with their objects.
fn constants(alloc: Global, texts: &Texts, form: &Tree) -> Result<Option<Inputs>, NoMemory>
    ensures { IfOk result (λ o. o ≡ constants_meant texts.now form.now) }
{
    let Some(parts) = Parts::of(form) else {
        return Ok(None);
    };
    let Some(constants) = all_constants(alloc, texts, &parts)? else {
        return Ok(None);
    };
    if are_different(alloc, &variables(alloc, &constants)?)? {
        Ok(Some(constants))
    } else {
        Ok(None)
    }
}

/// `(((v k) ..) b)`: a case.
fn case_form<'a>(
    alloc: Global,
    texts: &Texts,
    form: &'a Tree,
) -> Result<Option<CaseForm<'a>>, NoMemory>
    ensures { IfOk result (λ o. option_map case_form_seen o ≡ case_meant texts.now form.now) }
{
    let Some((given, bindings)) = two_in(form) else {
        return Ok(None);
    };
    match constants(alloc, texts, given)? {
        Some(constants) => Ok(Some(CaseForm {
            constants,
            bindings,
        })),
        None => Ok(None),
    }
}

/// The cases, where each element is one.
fn all_cases<'a>(
    alloc: Global,
    texts: &Texts,
    parts: &Parts<'a>,
) -> Result<Option<Vec<CaseForm<'a>>>, NoMemory>
    ensures { IfOk result (λ o. option_map (λ v. map case_form_seen v.items) o ≡ all_meant (case_meant texts.now) parts.now) }
{
    let mut all = Vec::new(alloc);
    let mut left = parts.again();
    while let Some((form, rest)) = left.first() {
        let Some(case) = case_form(alloc, texts, form)? else {
            return Ok(None);
        };
        all.push(case)?;
        left = rest;
    }
    Ok(Some(all))
}

/// Whether each case has these parameters in this order.
fn all_have(cases: &[CaseForm<'_>], constants: &Inputs) -> bool
    ensures { result ≡ list_all (λ c. bytes_eq (variables_of_case c) (map (λ p. p.0) constants.now)) (map case_form_seen cases.now) }
{
    for case in cases {
        if !have_same_parameters(&case.constants, constants) {
            return false;
        }
    }
    true
}

/// Whether there are 1 to 64 cases, with the same parameters in the same order.
fn are_cases(cases: &[CaseForm<'_>]) -> bool
    ensures { result ≡ cases_are (map case_form_seen cases.now) }
{
    match cases {
        [first, ..] => cases.len() <= 64 && all_have(cases, &first.constants),
        [] => false,
    }
}

/// Cases that belong together, as a list.
fn listed_cases<'a>(
    alloc: Global,
    texts: &Texts,
    form: &'a Tree,
) -> Result<Option<Vec<CaseForm<'a>>>, NoMemory>
    ensures { IfOk result (λ o. option_map (λ v. map case_form_seen v.items) o ≡ option_and_then if_cases (option_and_then (all_meant (case_meant texts.now)) (elements_in form.now))) }
{
    let Some(parts) = Parts::of(form) else {
        return Ok(None);
    };
    let Some(cases) = all_cases(alloc, texts, &parts)? else {
        return Ok(None);
    };
    if are_cases(cases.as_slice()) {
        Ok(Some(cases))
    } else {
        Ok(None)
    }
}

/// Whether an object is the mark of backquote.
fn is_backquote(object: &Tree) -> bool
    ensures { result ≡ backquote_is object.now }
{
    match object.kind() {
        TreeKind::Symbol(name) => name.number == 2,
        _ => false,
    }
}

/// Whether an object is a quote or a backquote.
fn is_quoting(texts: &Texts, object: &Tree) -> bool
    ensures { result ≡ quoting_is texts.now object.now }
{
    is_backquote(object) || spells(texts, b"QUOTE", object)
}

/// `'(case ..)` or `` `(case ..) ``.
fn quoted_form<'a>(
    alloc: Global,
    texts: &Texts,
    form: &'a Tree,
) -> Result<Option<QuotedForm<'a>>, NoMemory>
    ensures { IfOk result (λ o. option_map quoted_form_seen o ≡ option_and_then (cases_of texts.now) (two_meant form.now)) }
{
    let Some((mark, list)) = two_in(form) else {
        return Ok(None);
    };
    if !is_quoting(texts, mark) {
        return Ok(None);
    }
    match listed_cases(alloc, texts, list)? {
        Some(cases) => Ok(Some(QuotedForm { mark, cases })),
        None => Ok(None),
    }
}

/// The cases of a theorem, whose parameters stand in the term of the cases alone.
pub(crate) fn quoted_cases<'a>(
    alloc: Global,
    texts: &Texts,
    form: &CasesForm<'a>,
) -> Result<Option<QuotedForm<'a>>, NoMemory>
    ensures { IfOk result (λ o. option_map quoted_form_seen o ≡ quoted_meant texts.now (cases_form_seen form.now)) }
{
    let Some(quoted) = quoted_form(alloc, texts, form.cases)? else {
        return Ok(None);
    };
    if are_kept(alloc, form, quoted.cases.as_slice())? {
        Ok(Some(quoted))
    } else {
        Ok(None)
    }
}
