//! The events of forms that are made here.

ghost use Rattle.std.specs.Prelude.{◌≡◌, ℕ, List, Ok, IfOk, IfSome};
ghost use Rattle.gl_logic.specs.Definition.{Definition};
ghost use Rattle.event_world.specs.Seen.{event_seen};
ghost use Rattle.book_state.specs.Answerable.{IsAnswerable};
ghost use Rattle.book_state.specs.States.{event_in as event_meant};
ghost use Rattle.explain_findings.specs.Questions.{in_mode as moded};

use book_state::State;
use event_world::{Event, EventFault};
use gl_logic::{NoMemory, Texts, Tree};
use shape_spec::Mode;
use std::alloc::Global;

/// The event that a form means in a state; none where it is refused.
pub(crate) fn event_in(
    alloc: Global,
    state: &State,
    texts: &mut Texts,
    form: &Tree,
) -> Result<Option<Event>, NoMemory>
    ensures meant { IfOk result (λ o. IfSome o (λ e. event_meant texts.new state.now form.now ≡ Ok (event_seen e))) }
    ensures answerable { IfOk result (λ o. IfSome o (λ e. IsAnswerable state.now.world.definitions state.now.memoized (event_seen e))) }
{
    let _empty = texts.id_of(b"")?;
    texts.is_table();
    match state.event(alloc, form, texts) {
        Ok(event) => Ok(Some(event)),
        Err(EventFault::Memory) => Err(NoMemory),
        Err(_) => Ok(None),
    }
}

/// An event whose theorem is decided in a mode, where one is said.
pub(crate) fn in_mode(event: Event, mode: Option<Mode>) -> Event
    ensures moded { event_seen result ≡ moded mode (event_seen event) }
    ensures answerable { (definitions : List Definition) (memoized : List ℕ) → IsAnswerable definitions memoized (event_seen event)
        → IsAnswerable definitions memoized (event_seen result) }
{
    match (event, mode) {
        (Event::Theorem(mut thm), Some(mode)) => {
            thm.mode = mode;
            Event::Theorem(thm)
        }
        (event, _) => event,
    }
}
