//! The last theorem of a book.

ghost use Rattle.std.specs.Prelude.{◌≡◌, ◌≤◌, ℕ, List, [], ◌∷◌, length, take, Ok, IfOk, OnOk};
ghost use Rattle.gl_logic.specs.Extents.{world_cut};
ghost use Rattle.gl_logic.specs.Names.{with_name};
ghost use Rattle.gl_logic.specs.WorldSeen.{IsWorld};
ghost use Rattle.book_shelf.specs.Flat.{most_bytes};
ghost use Rattle.book_shelf.specs.Listed.{finish_of};
ghost use Rattle.book_shelf.specs.declared.finish.Finish.TheVariants.{Clean};
ghost use Rattle.event_world.specs.Seen.{event_seen};
ghost use Rattle.event_world.specs.Suits.{Suits};
ghost use Rattle.gl_decide.specs.Bounds.{bounds_of};
ghost use Rattle.book_state.specs.Answerable.{IsAnswerable};
ghost use Rattle.gl_book.specs.LastSteps.{IsStepOf, IsWalkedTo, StepsTo};
ghost use Rattle.gl_book.specs.LastFound.{IsLast, IsReadyLast};
ghost use Rattle.gl_book.specs.Walk.{state_after};
ghost use Rattle.book_state.specs.States.{CanGoOn, event_in};

use super::answer::{Answer, Cause};
use super::last_step::{Kept, Step};
use super::opening::{Opened, open};
use super::untried::{untried, value_given};
use super::walk::refused_cause;
use book_state::State;
use event_world::{Event, EventFault};
use gl_base::limits::Limits;
use gl_logic::{Extent, NoMemory, Texts, World};
use sexp_reader::{End, Form, FormList, Forms, too_long};
use shape_spec::Thm;
use std::alloc::Global;

/// What a book has as its last theorem.
#[derive(Drop)]
pub enum Last {
    /// The book is refused, or has no theorem.
    None,
    /// The theorem, the world at its place, and the table that numbers the names of both.
    Found(World, Thm, Texts),
}

/// The last theorem of a text that is accepted and not redundant. A theorem by cases is none of them.
///
/// The text is walked over once, to its end, and the world is then cut back to what it had at the theorem's place. No theorem
/// is decided, and no term is evaluated but those of constants. Other words of `include-book` than those of GL's own book are
/// refused, as in each text that stands alone.
///
/// NoMemory where memory was refused, in the evaluation of a constant too.
pub fn last_theorem(alloc: Global, text: &[u8], limits: &Limits) -> Result<Last, NoMemory>
    ensures last { IfOk result (IsLast (bounds_of limits.now) text.now) }
    ensures ready { IfOk result IsReadyLast }
{
    if let Some(_) = too_long(text) {
        return Ok(Last::None);
    }
    last_of(alloc, text, limits)
}

/// The last theorem of a text that is not too long.
fn last_of(alloc: Global, text: &[u8], limits: &Limits) -> Result<Last, NoMemory>
    requires { length text.now ≤ most_bytes }
    ensures last { IfOk result (IsLast (bounds_of limits.now) text.now) }
    ensures ready { IfOk result IsReadyLast }
{
    let Opened {
        mut texts,
        mut state,
        forms,
    } = open(alloc, text)?;
    let kept = last_in(alloc, &forms, limits, &mut state, &mut texts);
    drop(forms);
    match kept {
        Ok(Some(kept)) => {
            let world = world_at(state, kept.extent);
            Ok(Last::Found(world, kept.thm, texts))
        }
        Ok(None) => {
            drop(state);
            drop(texts);
            Ok(Last::None)
        }
        Err(fault) => {
            drop(state);
            drop(texts);
            Err(fault)
        }
    }
}

/// Takes the forms of a text in. The last theorem among them, where they have one and neither they nor their end is refused.
fn last_in(
    alloc: Global,
    forms: &Forms,
    limits: &Limits,
    state: &mut State,
    texts: &mut Texts,
) -> Result<Option<Kept>, NoMemory>
    requires empty { with_name texts.old [] ≡ texts.old }
    requires can_go_on { CanGoOn state.old }
    ensures walked { IfOk result (IsWalkedTo texts.old (bounds_of limits.now) state.old forms.now.list (finish_of forms.now.end) state.new.world) }
    ensures texts { texts.new ≡ texts.old }
{
    match forms.end {
        End::Clean => last_kept(alloc, &forms.list, limits, state, texts),
        End::Bad(_, _, _) => Ok(None),
    }
}

/// The world of a state, cut back.
fn world_at(state: State, extent: Extent) -> World
    requires { IsWorld (take extent.definitions state.world.definitions) (take extent.cliques state.world.cliques) }
    ensures { result ≡ world_cut extent state.world }
{
    let mut world = state.into_world();
    world.cut(extent);
    world
}

/// Takes forms in, one after the other. The last theorem among them, where they have one and none is refused.
fn last_kept(
    alloc: Global,
    forms: &FormList,
    limits: &Limits,
    state: &mut State,
    texts: &mut Texts,
) -> Result<Option<Kept>, NoMemory>
    requires empty { with_name texts.old [] ≡ texts.old }
    requires can_go_on { CanGoOn state.old }
    ensures walked { IfOk result (IsWalkedTo texts.old (bounds_of limits.now) state.old forms.now Clean state.new.world) }
    ensures texts { texts.new ≡ texts.old }
{
    let mut last = None;
    for i in 0..forms.len() {
        match take_form(alloc, forms.at(i), limits, state, texts) {
            Ok(step) => match step {
                Step::Refused => {
                    drop(last);
                    return Ok(None);
                }
                Step::Theorem(kept) => drop(last.replace(kept)),
                Step::Other => {}
            },
            Err(fault) => {
                drop(last);
                return Err(fault);
            }
        }
    }
    Ok(last)
}

/// Takes the next form in, where it is not refused.
fn take_form(
    alloc: Global,
    form: &Form,
    limits: &Limits,
    state: &mut State,
    texts: &mut Texts,
) -> Result<Step, NoMemory>
    requires empty { with_name texts.old [] ≡ texts.old }
    ensures steps { IfOk result (StepsTo texts.old (bounds_of limits.now) form.now state.old state.new) }
    ensures texts { texts.new ≡ texts.old }
{
    match state.event(alloc, &form.tree, texts) {
        Ok(event) => take_event(alloc, form, event, limits, state),
        Err(fault) => match fault {
            EventFault::Memory => Err(NoMemory),
            _ => Ok(Step::Refused),
        },
    }
}

/// Takes the event of the next form in, where it is no constant without a value.
fn take_event(
    alloc: Global,
    form: &Form,
    event: Event,
    limits: &Limits,
    state: &mut State,
) -> Result<Step, NoMemory>
    requires suits { Suits state.old.world (event_seen event) }
    requires answerable { IsAnswerable state.old.world.definitions state.old.memoized (event_seen event) }
    ensures { (names : List (List ℕ)) → event_in names state.old form.now.tree ≡ Ok (event_seen event)
        → IfOk result (StepsTo names (bounds_of limits.now) form.now state.old state.new) }
{
    let answer = untried(alloc, state.world(), state.memoized(), &event, limits);
    match refused_cause(&event, &answer) {
        Some(cause) => {
            drop(event);
            drop(answer);
            match cause {
                Cause::Memory => Err(NoMemory),
                _ => Ok(Step::Refused),
            }
        }
        None => take_answered(alloc, form, event, answer, state),
    }
}

/// Takes an event in with its answer.
fn take_answered(
    alloc: Global,
    form: &Form,
    event: Event,
    answer: Answer,
    state: &mut State,
) -> Result<Step, NoMemory>
    requires suits { Suits state.old.world (event_seen event) }
    requires answerable { IsAnswerable state.old.world.definitions state.old.memoized (event_seen event) }
    ensures state { OnOk result (state.new ≡ state_after state.old form.now.tree (event_seen event) answer) }
    ensures step { IfOk result (IsStepOf state.old.world (event_seen event)) }
{
    let extent = state.world().extent();
    match event {
        Event::Theorem(thm) => {
            drop(answer);
            match state.note_theorem(alloc, &form.tree, &thm) {
                Ok(()) => Ok(Step::Theorem(Kept { thm, extent })),
                Err(fault) => {
                    drop(thm);
                    Err(fault)
                }
            }
        }
        event => match state.take(alloc, &form.tree, event, value_given(answer)) {
            Ok(()) => Ok(Step::Other),
            Err(fault) => Err(fault),
        },
    }
}
