//! The observer of a run that shows it.

ghost use Rattle.std.specs.Prelude.{◌+◌, None};

use crate::screen::Screen;
use book_state::State;
use explain_report::PutEnd;
use gl_base::failed::Failed;
use gl_base::sink::Sink;
use gl_book::{Answer, Answered, LineOf, Observer, Refusal, settle_answer};
use gl_decide::Stalls;
use gl_logic::{NoMemory, Texts, Tree};
use std::rt::Clock;

/// What shows a run on a screen, and keeps its stalls. It tells no bytes.
#[derive(Drop)]
pub(crate) struct Shown<'a, R: Clock, K: Sink + Drop, E: Sink + Drop> {
    pub out: K,
    pub screen: Screen<'a, R, E>,
    pub stalls: Stalls,
    /// How many lines were not shown for want of memory.
    pub lacks: u64,
}

impl<'a, R: Clock, K: Sink + Drop, E: Sink + Drop> Observer for Shown<'a, R, K, E> {
    ghost written = { λ _. None };

    ghost faults = { λ s. K.faults s.out + s.lacks };

    ghost stalls = { λ s. s.stalls };

    fn answered(
        &mut self,
        at: Answered<'_>,
        texts: &Texts,
        answer: Answer,
    ) -> Result<Tree, NoMemory> {
        self.screen.note(at, texts, &answer)?;
        settle_answer(answer, &mut self.stalls)
    }

    fn refused(&mut self, refusal: &Refusal, _state: &State) {
        self.screen.refuse(*refusal);
    }

    fn put(&mut self, of: LineOf<'_>, line: &[u8]) -> Result<(), Failed> {
        // no line is empty
        if line.is_empty() {
            return Ok(());
        }
        match self.screen.show(&mut self.out, of, line) {
            Ok(()) => Ok(()),
            Err(PutEnd::Failed) => Err(Failed),
            Err(PutEnd::Memory) => {
                self.lacks = self.lacks.saturating_add(1);
                Err(Failed)
            }
        }
    }

    fn flush(&mut self) -> Result<(), Failed> {
        self.out.flush()
    }
}
