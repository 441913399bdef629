//! The events of a book taken in once more, without deciding a theorem, up to a place that is to be explained.

ghost use Rattle.std.specs.Prelude.{◌≡◌, ◌≢◌, [], IfOk, IfSome, MatchOption, MatchResult};
ghost use Rattle.gl_logic.specs.Names.{with_name};
ghost use Rattle.event_world.specs.Seen.{event_seen};
ghost use Rattle.event_world.specs.Suits.{Suits};
ghost use Rattle.gl_decide.specs.Bounds.{bounds_of};
ghost use Rattle.book_state.specs.Answerable.{IsAnswerable};
ghost use Rattle.book_state.specs.States.{IsFirstState};
ghost use Rattle.explain_findings.specs.Replayed.{IsConstantOf, LacksConstant, TakesEvent, TakesForm, TakesItem, GoesOn};

use book_shelf::{Item, Library};
use book_state::State;
use event_world::{Event, EventFault};
use gl_base::limits::Limits;
use gl_book::{Answer, Cause, answer_of};
use gl_logic::{NoMemory, Texts, Tree};
use sexp_reader::Form;
use std::alloc::Global;
use std::marker::Model;
use std::thread::Threads;

/// Why a form is refused.
#[derive(Clone, Copy, Debug, PartialEq, Eq)]
pub enum FormFault {
    /// It means no event.
    Event(EventFault),
    /// It is a constant without a value.
    Constant(Cause),
}

/// The value of a constant, and NIL for another event.
fn value_of<R: Threads + Sync>(
    rt: &R,
    alloc: Global,
    state: &State,
    event: &Event,
    limits: &Limits,
) -> Result<Tree, Cause>
    requires answerable { IsAnswerable state.now.world.definitions state.now.memoized (event_seen event.now) }
    ensures { MatchResult result (IsConstantOf state.now (event_seen event.now)) (LacksConstant (bounds_of limits.now) state.now (event_seen event.now)) }
{
    if !matches!(event, Event::Defconst(_, _)) {
        return Ok(Tree::nil());
    }
    match answer_of(rt, alloc, state.world(), state.memoized(), event, limits) {
        Answer::Value(value) => Ok(value),
        Answer::Undecided(cause) => Err(cause),
        _ => Ok(Tree::nil()),
    }
}

/// Takes the event of a form in. Its fault, where it is a constant without a value; the state is then as before.
fn take_event<R: Threads + Sync>(
    rt: &R,
    alloc: Global,
    form: &Form,
    event: Event,
    limits: &Limits,
    state: &mut State,
) -> Result<Option<Cause>, NoMemory>
    requires suits { Suits state.old.world (event_seen event) }
    requires answerable { IsAnswerable state.old.world.definitions state.old.memoized (event_seen event) }
    ensures { IfOk result (TakesEvent (bounds_of limits.now) state.old form.now.tree (event_seen event) state.new) }
{
    match value_of(rt, alloc, state, &event, limits) {
        Ok(value) => {
            state.take(alloc, &form.tree, event, value)?;
            Ok(None)
        }
        Err(cause) => {
            drop(event);
            match cause {
                Cause::Memory => Err(NoMemory),
                _ => Ok(Some(cause)),
            }
        }
    }
}

/// Takes a form in. Its fault, where it is refused; the state is then as before.
pub fn take_form<R: Threads + Sync>(
    rt: &R,
    alloc: Global,
    form: &Form,
    limits: &Limits,
    state: &mut State,
    texts: &mut Texts,
) -> Result<Option<FormFault>, NoMemory>
    requires empty { with_name texts.old [] ≡ texts.old }
    ensures texts { texts.new ≡ texts.old }
    ensures taken { IfOk result (TakesForm texts.old (bounds_of limits.now) state.old form.now.tree state.new) }
{
    match state.event(alloc, &form.tree, texts) {
        Ok(event) => {
            let cause = take_event(rt, alloc, form, event, limits, state)?;
            Ok(cause.map(FormFault::Constant))
        }
        Err(EventFault::Memory) => Err(NoMemory),
        Err(fault) => Ok(Some(FormFault::Event(fault))),
    }
}

/// Takes an item in: a form, or a mark, which changes nothing. The fault of the form, where it is refused; the state is then as
/// before.
fn take_item<R: Threads + Sync>(
    rt: &R,
    alloc: Global,
    item: &Item,
    limits: &Limits,
    state: &mut State,
    texts: &mut Texts,
) -> Result<Option<FormFault>, NoMemory>
    requires empty { with_name texts.old [] ≡ texts.old }
    ensures texts { texts.new ≡ texts.old }
    ensures taken { IfOk result (TakesItem texts.old (bounds_of limits.now) state.old item.now state.new) }
{
    match item {
        Item::Form(form) => take_form(rt, alloc, form, limits, state, texts),
        Item::Mark(_) => Ok(None),
    }
}

/// The item that is refused, by its number, and why.
#[derive(Clone, Copy, Debug, PartialEq, Eq)]
pub struct Refused {
    pub item: u64,
    pub fault: FormFault,
}

/// The state behind the first items of a list of books.
#[derive(Drop)]
pub struct Replay {
    state: State,
    next: u64,
}

impl Model for Replay {
    ghost use Rattle.explain_findings.specs.Replayed.{Reached, coded_reached};

    ghost Value = { Reached };

    ghost coded = { coded_reached };

    ghost view = { λ r. record { state = r.state; next = r.next } };
}

impl Replay {
    /// The state in front of the first item.
    pub fn new(alloc: Global, texts: &mut Texts) -> Result<Replay, NoMemory>
        ensures first { IfOk result (λ r. IsFirstState texts.new r.state) }
        ensures next { IfOk result (λ r. r.next ≡ 0) }
    {
        Ok(Replay {
            state: State::new(alloc, texts)?,
            next: 0,
        })
    }

    /// The state so far.
    pub fn state(&self) -> &State
        ensures { result.now ≡ self.now.state }
    {
        &self.state
    }

    /// The state in front of an item, where that is where the replay stands.
    pub fn state_at(&self, item: u64) -> Option<&State>
        ensures there { MatchOption result (self.now.next ≢ item) (λ _. self.now.next ≡ item) }
        ensures state { IfSome result (λ s. s.now ≡ self.now.state) }
    {
        if self.next == item {
            Some(&self.state)
        } else {
            None
        }
    }

    /// The state so far, itself.
    pub fn into_state(self) -> State
        ensures { result ≡ self.state }
    {
        self.state
    }

    /// Takes items in, up to the one of a number or the first that is refused.
    #[tactic(auto, using(crate::proofs::Behind::behind_none, crate::proofs::Behind::behind_item, crate::proofs::Behind::refused_item))]
    pub fn go_to<R: Threads + Sync>(
        &mut self,
        rt: &R,
        alloc: Global,
        library: &Library,
        limits: &Limits,
        texts: &mut Texts,
        end: u64,
    ) -> Result<Option<Refused>, NoMemory>
        // No theorem is decided: the events in front of a place make the state there, as in the run.
        ensures goes_on { IfOk result (GoesOn texts.new (bounds_of limits.now) library.now.items end self.old self.new) }
    {
        let _empty = texts.id_of(b"")?;
        texts.is_table();
        for item in self.next..end {
            if item >= library.items.len() {
                return Ok(None);
            }
            let next = library.items.at(item);
            if let Some(fault) = take_item(rt, alloc, next, limits, &mut self.state, texts)? {
                return Ok(Some(Refused { item, fault }));
            }
            self.next = item.saturating_add(1);
        }
        Ok(None)
    }
}
