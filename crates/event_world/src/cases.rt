//! Theorems by cases.

ghost use Rattle.std.specs.Prelude.{◌≡◌, [], ◌∷◌, map, IfOk, OnOk};
ghost use Rattle.std.specs.Option.{option_map};
ghost use Rattle.gl_logic.specs.Object.{Cons, nil};
ghost use Rattle.gl_logic.specs.Names.{with_name};
ghost use Rattle.gl_logic.specs.TermOf.{term_of};
ghost use Rattle.gl_logic.specs.Wording.{all_meant};
ghost use Rattle.shape_spec.specs.BindingsMeant.{bindings_meant};
ghost use Rattle.shape_spec.specs.TheoremSeen.{theorem_seen};
ghost use Rattle.gl_cases.specs.Parts.{case_seen};
ghost use Rattle.gl_cases.specs.ParamMade.{param_seen, param_set};
ghost use Rattle.event_world.specs.Outcomes.{Gives};
ghost use Rattle.event_world.specs.Seen.{event_seen};
ghost use Rattle.event_world.specs.FormsSeen.{cases_form_seen, case_form_seen, quoted_form_seen};
ghost use Rattle.event_world.specs.CasesMeant.{case_bound as bound_case, binds_its_own as own_bound, are_bound as bound_are, claim_of};
ghost use Rattle.event_world.specs.CasesForms.{parts_bound, parts_claimed, cases_claimed, param_by};

use super::bound::binds;
use super::cases_form::{CaseForm, CasesForm, QuotedForm, cases_form, quoted_cases};
use super::event::Event;
use super::fault::EventFault;
use super::keyword_table::KeywordTable;
use super::names::is_taken;
use super::parts::Parts;
use super::theorem::hypothesis;
use super::theorem_form::clocks;
use super::translated::claim_term;
use gl_cases::{Case, CaseList, ParamThm, copied_functions, param_of};
use gl_logic::{NoMemory, Term, TextId, Texts, Tree, World};
use shape_spec::{BindFault, Bindings, FnSet, Mode, Thm, bindings};
use std::alloc::Global;

/// The bindings of a form, where it means any.
fn bindings_in(alloc: Global, texts: &Texts, form: &Tree) -> Result<Option<Bindings>, NoMemory>
    ensures { IfOk result (λ o. o ≡ bindings_meant texts.now form.now) }
{
    match bindings(alloc, form, texts) {
        Ok(bound) => Ok(Some(bound)),
        Err(BindFault::Bad) => Ok(None),
        Err(BindFault::Memory) => Err(NoMemory),
    }
}

/// `(mark b)`: the bindings of a case, as `:g-bindings` has them.
fn marked(alloc: Global, mark: &Tree, bindings: &Tree) -> Result<Tree, NoMemory>
    ensures { IfOk result (λ t. t ≡ Cons mark.now (Cons bindings.now nil)) }
{
    let rest = Tree::pair(alloc, bindings.copy(alloc)?, Tree::nil())?;
    match mark.copy(alloc) {
        Ok(mark) => Tree::pair(alloc, mark, rest),
        Err(fault) => {
            drop(rest);
            Err(fault)
        }
    }
}

/// The bindings of a case, where its form means any.
fn bindings_marked(
    alloc: Global,
    texts: &Texts,
    mark: &Tree,
    bindings: &Tree,
) -> Result<Option<Bindings>, NoMemory>
    ensures { IfOk result (λ o. o ≡ bindings_meant texts.now (Cons mark.now (Cons bindings.now nil))) }
{
    let form = marked(alloc, mark, bindings)?;
    let bound = bindings_in(alloc, texts, &form);
    drop(form);
    bound
}

/// A case with its bindings.
fn case_bound(
    alloc: Global,
    texts: &Texts,
    mark: &Tree,
    case: CaseForm<'_>,
) -> Result<Option<Case>, NoMemory>
    ensures { IfOk result (λ o. option_map case_seen o ≡ bound_case texts.now mark.now (case_form_seen case.entry)) }
{
    match bindings_marked(alloc, texts, mark, case.bindings) {
        Ok(Some(bindings)) => Ok(Some(Case {
            constants: case.constants,
            bindings,
        })),
        Ok(None) => {
            drop(case);
            Ok(None)
        }
        Err(fault) => {
            drop(case);
            Err(fault)
        }
    }
}

/// The cases with their bindings.
fn all_bound(
    alloc: Global,
    texts: &Texts,
    mark: &Tree,
    cases: Vec<CaseForm<'_>>,
) -> Result<Option<CaseList>, NoMemory>
    ensures { IfOk result (λ o. o ≡ all_meant (bound_case texts.now mark.now) (map case_form_seen cases.entry.items)) }
{
    let mut all = CaseList::new(alloc);
    for case in cases {
        let Some(bound) = case_bound(alloc, texts, mark, case)? else {
            return Ok(None);
        };
        all.push(bound)?;
    }
    Ok(Some(all))
}

/// Whether the bindings of a theorem bind its variables.
fn binds_its_own(alloc: Global, thm: &Thm) -> Result<bool, NoMemory>
    ensures { IfOk result (λ b. b ≡ own_bound (theorem_seen thm.now)) }
{
    binds(alloc, &thm.bindings, &thm.hyp, &thm.concl)
}

/// Whether each part binds its variables.
fn are_bound(alloc: Global, thm: &ParamThm) -> Result<bool, NoMemory>
    ensures { IfOk result (λ b. b ≡ bound_are (param_seen thm.now)) }
{
    if !binds_its_own(alloc, &thm.cover)? {
        return Ok(false);
    }
    for i in 0..thm.cases.len() {
        if !binds_its_own(alloc, thm.cases.at(i))? {
            return Ok(false);
        }
    }
    Ok(true)
}

/// The bindings of the cover, and the cases with theirs, where all of them are some.
fn bound_parts(
    alloc: Global,
    texts: &Texts,
    form: &CasesForm<'_>,
    quoted: QuotedForm<'_>,
) -> Result<Option<(Bindings, CaseList)>, NoMemory>
    ensures { IfOk result (λ o. o ≡ parts_bound texts.now (cases_form_seen form.now) (quoted_form_seen quoted.entry)) }
{
    let cover = match bindings_in(alloc, texts, form.cover) {
        Ok(Some(cover)) => cover,
        Ok(None) => {
            drop(quoted);
            return Ok(None);
        }
        Err(fault) => {
            drop(quoted);
            return Err(fault);
        }
    };
    match all_bound(alloc, texts, quoted.mark, quoted.cases) {
        Ok(Some(cases)) => Ok(Some((cover, cases))),
        Ok(None) => {
            drop(cover);
            Ok(None)
        }
        Err(fault) => {
            drop(cover);
            Err(fault)
        }
    }
}

/// A theorem by cases of these parts, where each part binds its variables.
fn of_parts(
    alloc: Global,
    name: TextId,
    hyp: Term,
    concl: Term,
    term: Term,
    cases: CaseList,
    cover: Bindings,
) -> Result<ParamThm, EventFault>
    ensures { Gives param_seen (claim_of name.number (term_of hyp) (term_of concl) (term_of term) cover cases) result }
{
    let thm = param_of(alloc, name, hyp, concl, term, cases, cover)?;
    match are_bound(alloc, &thm) {
        Ok(true) => Ok(thm),
        Ok(false) => {
            drop(thm);
            Err(EventFault::BadBindings)
        }
        Err(_) => {
            drop(thm);
            Err(EventFault::Memory)
        }
    }
}

/// A theorem by cases with these terms, where its bindings and those of its cases are some and bind its variables.
#[tactic(auto, using(crate::proofs::CasesClaimed::claimed_by_parts))]
fn with_terms(
    alloc: Global,
    texts: &Texts,
    form: &CasesForm<'_>,
    quoted: QuotedForm<'_>,
    hyp: Term,
    concl: Term,
    term: Term,
) -> Result<ParamThm, EventFault>
    ensures { Gives param_seen (parts_claimed texts.now (cases_form_seen form.now) (quoted_form_seen quoted.entry) (term_of hyp) (term_of concl) (term_of term)) result }
{
    match bound_parts(alloc, texts, form, quoted) {
        Ok(Some((cover, cases))) => of_parts(alloc, form.name, hyp, concl, term, cases, cover),
        Ok(None) => {
            drop(hyp);
            drop(concl);
            drop(term);
            Err(EventFault::BadBindings)
        }
        Err(_) => {
            drop(hyp);
            drop(concl);
            drop(term);
            Err(EventFault::Memory)
        }
    }
}

/// A theorem by cases that has passed the checks of its options, its cases and its name, with the settings that a
/// command has where it says nothing.
fn claimed(
    alloc: Global,
    texts: &mut Texts,
    world: &World,
    form: &CasesForm<'_>,
    quoted: QuotedForm<'_>,
) -> Result<ParamThm, EventFault>
    requires { with_name texts.old [] ≡ texts.old }
    ensures meant { Gives param_seen (cases_claimed texts.old world.now (cases_form_seen form.now) (quoted_form_seen quoted.entry)) result }
    ensures texts { texts.new ≡ texts.old }
{
    let hyp = match hypothesis(alloc, texts, world, form.hyp) {
        Ok(hyp) => hyp,
        Err(fault) => {
            drop(quoted);
            return Err(fault);
        }
    };
    let concl = match claim_term(alloc, form.concl, world, texts) {
        Ok(concl) => concl,
        Err(fault) => {
            drop(quoted);
            drop(hyp);
            return Err(fault);
        }
    };
    match claim_term(alloc, form.term, world, texts) {
        Ok(term) => with_terms(alloc, texts, form, quoted, hyp, concl, term),
        Err(fault) => {
            drop(quoted);
            drop(hyp);
            drop(concl);
            Err(fault)
        }
    }
}

/// Gives a theorem these settings. Its cases are lost where memory runs out.
fn set_all(
    alloc: Global,
    thm: &mut ParamThm,
    clocks: (u32, u32),
    mode: Mode,
    memoized: &FnSet,
) -> Result<(), NoMemory>
    ensures { OnOk result (param_seen thm.new ≡ param_set clocks.0 clocks.1 mode memoized.now (param_seen thm.old)) }
{
    let memoized = copied_functions(alloc, memoized)?;
    thm.set(alloc, clocks.0, clocks.1, mode, memoized)
}

/// The theorem with these settings.
fn with_settings(
    alloc: Global,
    thm: ParamThm,
    clocks: (u32, u32),
    mode: Mode,
    memoized: &FnSet,
) -> Result<ParamThm, NoMemory>
    ensures { IfOk result (λ t. param_seen t ≡ param_set clocks.0 clocks.1 mode memoized.now (param_seen thm)) }
{
    let mut thm = thm;
    match set_all(alloc, &mut thm, clocks, mode, memoized) {
        Ok(()) => Ok(thm),
        Err(fault) => {
            drop(thm);
            Err(fault)
        }
    }
}

/// `(def-gl-param-thm n :hyp h :concl c :param-hyp p :param-bindings q :cov-bindings b ..)`, by what stands behind
/// `def-gl-param-thm`.
pub(crate) fn by_cases(
    alloc: Global,
    texts: &mut Texts,
    world: &World,
    mode: Mode,
    memoized: &FnSet,
    parts: &Parts<'_>,
) -> Result<Event, EventFault>
    requires { with_name texts.old [] ≡ texts.old }
    ensures meant { Gives event_seen (param_by texts.old world.now mode memoized.now parts.now) result }
    ensures texts { texts.new ≡ texts.old }
{
    let Some(form) = cases_form(alloc, texts, parts)? else {
        return Err(EventFault::BadEvent);
    };
    let Some(clocks) = clocks(alloc, texts, KeywordTable::ParamTheorem, &form.options)? else {
        return Err(EventFault::BadOption);
    };
    let Some(quoted) = quoted_cases(alloc, texts, &form)? else {
        return Err(EventFault::BadCases);
    };
    if is_taken(texts, world, form.name) {
        return Err(EventFault::Redefined);
    }
    let thm = claimed(alloc, texts, world, &form, quoted)?;
    Ok(Event::Cases(with_settings(alloc, thm, clocks, mode, memoized)?))
}
