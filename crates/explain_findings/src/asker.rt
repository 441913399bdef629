//! Questions to the library: forms that are made here, and what comes of their events in a state.

ghost use Rattle.std.specs.Prelude.{None, IfOk, IfSome};
ghost use Rattle.gl_decide.specs.Bounds.{bounds_of};
ghost use Rattle.explain_findings.specs.Questions.{IsAnswerTo, IsFoundBy};

use crate::events::{event_in, in_mode};
use crate::found::found_of;
use crate::making::call_on;
use crate::opening::Before;
use crate::values::{Value, value_of};
use book_state::State;
use event_world::Event;
use explain_report::{Found, Verdict};
use gl_base::limits::Limits;
use gl_book::{Answer, answer_of};
use gl_logic::{NoMemory, Texts, Tree};
use shape_spec::Mode;
use std::alloc::Global;
use std::thread::Threads;

/// What questions are asked in: a state, limits, and the forms that made the state.
#[derive(Drop)]
pub struct Asker<'a, R: Threads + Sync> {
    pub rt: &'a R,
    pub alloc: Global,
    pub state: &'a State,
    pub limits: &'a Limits,
    pub before: Before<'a>,
}

/// An event, and its answer.
#[derive(Drop)]
struct Answered {
    event: Event,
    answer: Answer,
}

impl<'a, R: Threads + Sync> Asker<'a, R> {
    /// The event of a form, in a mode, with its answer under limits; none where it is refused.
    fn answered(
        &self,
        texts: &mut Texts,
        form: &Tree,
        mode: Option<Mode>,
        limits: &Limits,
    ) -> Result<Option<Answered>, NoMemory>
        ensures { IfOk result (λ o. IfSome o (λ q. IsAnswerTo texts.new (bounds_of limits.now) self.now.state.now mode form.now q.answer)) }
    {
        let Some(event) = event_in(self.alloc, self.state, texts, form)? else {
            return Ok(None);
        };
        let event = in_mode(event, mode);
        let world = self.state.world();
        let memoized = self.state.memoized();
        let answer = answer_of(self.rt, self.alloc, world, memoized, &event, limits);
        Ok(Some(Answered { event, answer }))
    }

    /// The value of a term.
    pub(crate) fn value(&self, texts: &mut Texts, term: Tree) -> Result<Value, NoMemory> {
        let form = call_on(self.alloc, texts, b"VALUE-TRIPLE", term)?;
        match self.answered(texts, &form, None, self.limits)? {
            Some(Answered { answer, .. }) => value_of(self.alloc, texts, answer),
            None => Ok(Value::Unknown),
        }
    }

    /// What comes of the event of a form, in a mode and under limits.
    pub(crate) fn try_form(
        &self,
        texts: &mut Texts,
        form: &Tree,
        mode: Option<Mode>,
        limits: &Limits,
    ) -> Result<Found, NoMemory>
        // What is told of a question is what the library answered to that very form.
        ensures { IfOk result (IsFoundBy texts.new (bounds_of limits.now) self.now.state.now mode form.now) }
    {
        match self.answered(texts, form, mode, limits)? {
            Some(Answered { event, answer }) => found_of(self.alloc, texts, &event, &answer),
            None => Ok(Found::new(self.alloc, Verdict::Refused)),
        }
    }

    /// What comes of the theorem of a form.
    pub(crate) fn decide(&self, texts: &mut Texts, form: &Tree) -> Result<Found, NoMemory>
        ensures { IfOk result (IsFoundBy texts.new (bounds_of self.now.limits.now) self.now.state.now None form.now) }
    {
        self.try_form(texts, form, None, self.limits)
    }
}
