//! Answers to events that are taken in and not tried, as on the way to a book's last theorem.

ghost use Rattle.std.specs.Prelude.{◌≡◌};
ghost use Rattle.event_world.specs.Seen.{event_seen};
ghost use Rattle.gl_decide.specs.Bounds.{bounds_of};
ghost use Rattle.gl_book.specs.Answers.{IsProperAnswer};
ghost use Rattle.book_state.specs.Answerable.{IsAnswerable};
ghost use Rattle.gl_book.specs.Walk.{value_in};

use super::answer::{Answer, Cause, name_answer, value_answer};
use super::cases::CasesVerdict;
use event_world::Event;
use gl_base::limits::Limits;
use gl_decide::Verdict;
use gl_logic::{Tree, World};
use shape_spec::FnSet;
use std::alloc::Global;

/// An answer to an event that evaluates no term but a constant's and decides no theorem. It is want of memory where another
/// would have to be found out.
pub(crate) fn untried(
    alloc: Global,
    world: &World,
    memoized: &FnSet,
    event: &Event,
    limits: &Limits,
) -> Answer
    requires { IsAnswerable world.now.definitions memoized.now (event_seen event.now) }
    ensures { IsProperAnswer (bounds_of limits.now) world.now memoized.now (event_seen event.now) result }
{
    match event {
        Event::Defconst(_, term) => value_answer(alloc, world, memoized, term, limits),
        Event::Value(_) => Answer::Undecided(Cause::Memory),
        Event::Assert(_) => Answer::Undecided(Cause::Memory),
        Event::Memoize(function) => name_answer(world, *function),
        Event::Unmemoize(function) => name_answer(world, *function),
        Event::Theorem(_) => Answer::Decided(Verdict::Memory),
        Event::Cases(_) => Answer::ByCases(CasesVerdict::Cover(Verdict::Memory)),
        Event::Nothing
        | Event::Redundant(_)
        | Event::Defun(_)
        | Event::Mode(_)
        | Event::Clique(_)
        | Event::RedundantClique(_) => Answer::Done,
    }
}

/// The value of an answer, NIL where it has none.
pub(crate) fn value_given(answer: Answer) -> Tree
    ensures { result ≡ value_in answer }
{
    match answer {
        Answer::Value(value) => value,
        other => {
            drop(other);
            Tree::nil()
        }
    }
}
