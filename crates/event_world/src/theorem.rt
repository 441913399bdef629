//! Theorems.

ghost use Rattle.std.specs.Prelude.{◌≡◌, []};
ghost use Rattle.std.specs.Option.{option_copied};
ghost use Rattle.gl_logic.specs.Names.{with_name};
ghost use Rattle.gl_logic.specs.TermOf.{term_of};
ghost use Rattle.event_world.specs.Outcomes.{Gives};
ghost use Rattle.event_world.specs.Seen.{event_seen};
ghost use Rattle.event_world.specs.FormsSeen.{theorem_form_seen};
ghost use Rattle.event_world.specs.TheoremMeant.{hyp_meant, bound_meant};
ghost use Rattle.event_world.specs.TheoremForms.{theorem_claimed, theorem_by};

use super::bound::binds;
use super::event::Event;
use super::fault::EventFault;
use super::keyword_table::KeywordTable;
use super::names::is_taken;
use super::parts::Parts;
use super::theorem_form::{TheoremForm, clocks, theorem_form};
use super::translated::claim_term;
use gl_cases::copied_functions;
use gl_logic::{Term, TextId, Texts, Tree, World};
use shape_spec::{BindFault, Bindings, FnSet, Mode, Thm, bindings};
use std::alloc::Global;

/// The term of a hypothesis, which is T where none is written.
pub(crate) fn hypothesis(
    alloc: Global,
    texts: &mut Texts,
    world: &World,
    form: Option<&Tree>,
) -> Result<Term, EventFault>
    requires { with_name texts.old [] ≡ texts.old }
    ensures meant { Gives term_of (hyp_meant texts.old world.now (option_copied form.entry)) result }
    ensures texts { texts.new ≡ texts.old }
{
    match form {
        Some(form) => claim_term(alloc, form, world, texts),
        None => Ok(Term::Const(Tree::symbol(TextId { number: 1 }))),
    }
}

/// The bindings of a form that bind the variables of both terms.
fn bindings_for(
    alloc: Global,
    texts: &Texts,
    form: &Tree,
    hyp: &Term,
    concl: &Term,
) -> Result<Bindings, EventFault>
    ensures { Gives (λ b. b) (bound_meant texts.now form.now (term_of hyp.now) (term_of concl.now)) result }
{
    let bound = match bindings(alloc, form, texts) {
        Ok(bound) => bound,
        Err(BindFault::Bad) => return Err(EventFault::BadBindings),
        Err(BindFault::Memory) => return Err(EventFault::Memory),
    };
    if binds(alloc, &bound, hyp, concl)? {
        Ok(bound)
    } else {
        Err(EventFault::BadBindings)
    }
}

/// A theorem that has passed the checks of its options and its name.
fn claimed(
    alloc: Global,
    texts: &mut Texts,
    world: &World,
    mode: Mode,
    memoized: &FnSet,
    form: &TheoremForm<'_>,
    clocks: (u32, u32),
) -> Result<Event, EventFault>
    requires { with_name texts.old [] ≡ texts.old }
    ensures meant { Gives event_seen (theorem_claimed texts.old world.now mode memoized.now (theorem_form_seen form.now) (clocks.0, clocks.1)) result }
    ensures texts { texts.new ≡ texts.old }
{
    let memoized = copied_functions(alloc, memoized)?;
    let hyp = hypothesis(alloc, texts, world, form.hyp)?;
    let concl = match claim_term(alloc, form.concl, world, texts) {
        Ok(concl) => concl,
        Err(fault) => {
            drop(hyp);
            return Err(fault);
        }
    };
    match bindings_for(alloc, texts, form.bindings, &hyp, &concl) {
        Ok(bindings) => Ok(Event::Theorem(Thm {
            name: form.name,
            hyp,
            concl,
            bindings,
            hyp_clk: clocks.0,
            concl_clk: clocks.1,
            mode,
            memoized,
        })),
        Err(fault) => {
            drop(hyp);
            drop(concl);
            Err(fault)
        }
    }
}

/// `(def-gl-thm n :hyp h :concl c :g-bindings b ..)`, by what stands behind `def-gl-thm`.
pub(crate) fn theorem(
    alloc: Global,
    texts: &mut Texts,
    world: &World,
    mode: Mode,
    memoized: &FnSet,
    parts: &Parts<'_>,
) -> Result<Event, EventFault>
    requires { with_name texts.old [] ≡ texts.old }
    ensures meant { Gives event_seen (theorem_by texts.old world.now mode memoized.now parts.now) result }
    ensures texts { texts.new ≡ texts.old }
{
    let Some(form) = theorem_form(alloc, texts, parts)? else {
        return Err(EventFault::BadEvent);
    };
    let Some(clocks) = clocks(alloc, texts, KeywordTable::Theorem, &form.options)? else {
        return Err(EventFault::BadOption);
    };
    if is_taken(texts, world, form.name) {
        return Err(EventFault::Redefined);
    }
    claimed(alloc, texts, world, mode, memoized, &form, clocks)
}
