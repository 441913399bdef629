//! The observer of a run that writes its transcript and keeps its stalls.

use super::answer::Answer;
use super::observer::{Answered, Observer};
use super::origin::LineOf;
use super::refusal::Refusal;
use super::settle::settle_answer;
use book_state::State;
use gl_base::failed::Failed;
use gl_base::sink::{Sink, put_all};
use gl_decide::Stalls;
use gl_logic::{NoMemory, Texts, Tree};

/// A sink that takes a transcript, and the stalls of its answers.
#[derive(Drop)]
pub struct Transcript<K> {
    pub sink: K,
    pub stalls: Stalls,
}

impl<K: Sink> Observer for Transcript<K> {
    ghost written = { λ t. K.written t.sink };

    ghost faults = { λ t. K.faults t.sink };

    ghost stalls = { λ t. t.stalls };

    fn answered(
        &mut self,
        _at: Answered<'_>,
        _texts: &Texts,
        answer: Answer,
    ) -> Result<Tree, NoMemory> {
        settle_answer(answer, &mut self.stalls)
    }

    fn refused(&mut self, _refusal: &Refusal, _state: &State) {}

    fn put(&mut self, _of: LineOf<'_>, line: &[u8]) -> Result<(), Failed> {
        put_all(&mut self.sink, line)
    }

    fn flush(&mut self) -> Result<(), Failed> {
        self.sink.flush()
    }
}
