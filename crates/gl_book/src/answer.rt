//! Answers to events.

ghost use Rattle.std.specs.Prelude.{◌<◌, length};
ghost use Rattle.gl_logic.specs.TermOf.{term_of};
ghost use Rattle.gl_logic.specs.IsTermOf.{IsTermOf};
ghost use Rattle.lisp_eval.specs.Machines.{AreFunctionsOf};
ghost use Rattle.event_world.specs.Seen.{event_seen, theorem_seen};
ghost use Rattle.gl_cases.specs.ParamMade.{param_seen};
ghost use Rattle.gl_decide.specs.Bounds.{bounds_of};
ghost use Rattle.gl_book.specs.Answers.{IsProperValue, IsProperTruth, IsFunctionNamed, IsDecided, IsSettled, IsProperAnswer};
ghost use Rattle.book_state.specs.Answerable.{IsReadyParam, IsReadyTheorem, IsAnswerable};

use super::cases::CasesVerdict;
use super::decided::{decided, decided_by_cases};
use super::evaluated::{truth_of, value_of};
use event_world::Event;
use gl_base::limits::Limits;
use gl_cases::ParamThm;
use gl_decide::Verdict;
use gl_logic::{FnId, Term, TextId, Tree, World};
use shape_spec::{FnSet, Thm};
use std::alloc::Global;
use std::thread::Threads;

/// Why a term's value is not there, or not printed.
#[derive(Clone, Copy, Debug, PartialEq, Eq)]
pub enum Cause {
    /// Some value on the way is an integer outside 128 bits.
    Width,
    /// The evaluation visits more subterms than the limit of steps.
    Steps,
    /// The evaluation speaks of more different cells than the limit of cells.
    Cells,
    /// The value has more than 1,000,000 leaves, or more than 1,000 car steps on one path.
    Size,
    /// Memory was refused.
    Memory,
}

/// What is found out for an event beyond the event itself.
#[derive(Drop)]
pub enum Answer {
    /// Nothing is to be found out.
    Done,
    /// The name of the function whose calls are kept from now on, or no longer.
    Function(TextId),
    /// The value of a `value-triple` or of a constant.
    Value(Tree),
    /// Whether an asserted value is not NIL.
    Truth(bool),
    /// A value, an assert or a constant is left undecided.
    Undecided(Cause),
    /// The verdict on a theorem.
    Decided(Verdict),
    /// The verdict on a theorem by cases.
    ByCases(CasesVerdict),
}

/// The answer to an event of a world, with the functions whose calls are kept at its place.
pub fn answer_of<R: Threads + Sync>(
    rt: &R,
    alloc: Global,
    world: &World,
    memoized: &FnSet,
    event: &Event,
    limits: &Limits,
) -> Answer
    requires { IsAnswerable world.now.definitions memoized.now (event_seen event.now) }
    ensures { IsProperAnswer (bounds_of limits.now) world.now memoized.now (event_seen event.now) result }
{
    match event {
        Event::Value(term) => value_answer(alloc, world, memoized, term, limits),
        Event::Defconst(_, term) => value_answer(alloc, world, memoized, term, limits),
        Event::Assert(term) => truth_answer(alloc, world, memoized, term, limits),
        Event::Memoize(function) => name_answer(world, *function),
        Event::Unmemoize(function) => name_answer(world, *function),
        Event::Theorem(thm) => theorem_answer(rt, alloc, world, thm, limits),
        Event::Cases(thm) => cases_answer(rt, alloc, world, thm, limits),
        Event::Nothing
        | Event::Redundant(_)
        | Event::Defun(_)
        | Event::Mode(_)
        | Event::Clique(_)
        | Event::RedundantClique(_) => Answer::Done,
    }
}

/// The value of a closed term as an answer, or the cause for which there is none.
pub(crate) fn value_answer(
    alloc: Global,
    world: &World,
    memoized: &FnSet,
    term: &Term,
    limits: &Limits,
) -> Answer
    requires term { IsTermOf world.now.definitions (term_of term.now) }
    requires functions { AreFunctionsOf world.now memoized.now }
    ensures { IsProperValue (bounds_of limits.now) world.now memoized.now (term_of term.now) result }
{
    match value_of(alloc, world, memoized, term, limits) {
        Ok(value) => Answer::Value(value),
        Err(cause) => Answer::Undecided(cause),
    }
}

/// Whether a closed term is other than NIL as an answer, or the cause for which that is open.
fn truth_answer(
    alloc: Global,
    world: &World,
    memoized: &FnSet,
    term: &Term,
    limits: &Limits,
) -> Answer
    requires term { IsTermOf world.now.definitions (term_of term.now) }
    requires functions { AreFunctionsOf world.now memoized.now }
    ensures { IsProperTruth (bounds_of limits.now) world.now memoized.now (term_of term.now) result }
{
    match truth_of(alloc, world, memoized, term, limits) {
        Ok(truth) => Answer::Truth(truth),
        Err(cause) => Answer::Undecided(cause),
    }
}

/// The name of a function.
pub(crate) fn name_answer(world: &World, function: FnId) -> Answer
    requires { function.number < length world.now.definitions }
    ensures { IsFunctionNamed world.now function.number result }
{
    Answer::Function(world.def(function).name)
}

/// The verdict on a theorem.
pub(crate) fn theorem_answer<R: Threads + Sync>(
    rt: &R,
    alloc: Global,
    world: &World,
    thm: &Thm,
    limits: &Limits,
) -> Answer
    requires { IsReadyTheorem world.now.definitions (theorem_seen thm.now) }
    ensures { IsDecided (bounds_of limits.now) world.now (theorem_seen thm.now) result }
{
    Answer::Decided(decided(rt, alloc, world, thm, limits))
}

/// The verdict on a theorem by cases, its parts decided one after the other.
fn cases_answer<R: Threads + Sync>(
    rt: &R,
    alloc: Global,
    world: &World,
    thm: &ParamThm,
    limits: &Limits,
) -> Answer
    requires { IsReadyParam world.now.definitions (param_seen thm.now) }
    ensures { IsSettled (bounds_of limits.now) world.now (param_seen thm.now) result }
{
    Answer::ByCases(decided_by_cases(rt, alloc, world, thm, limits))
}
