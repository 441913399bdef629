//! Whom a walk tells what it finds out.

ghost use Rattle.std.specs.Prelude.{◌≡◌, ◌++◌, ℕ, List, Option, IfOk, OnOk, OnErr};
ghost use Rattle.gl_base.specs.Outside.{HasCause, Grows, GrowsByFront, Stays};
ghost use Rattle.gl_decide.specs.Stalls.{StallSeen};
ghost use Rattle.event_world.specs.Seen.{event_seen};
ghost use Rattle.book_state.specs.Answerable.{IsAnswerable};
ghost use Rattle.gl_book.specs.Entry.{stalls_of};
ghost use Rattle.gl_book.specs.Walk.{value_in};

use super::answer::Answer;
use super::origin::{LineOf, Spot};
use super::refusal::Refusal;
use book_state::State;
use event_world::Event;
use gl_base::failed::Failed;
use gl_logic::{NoMemory, Texts, Tree, World};
use shape_spec::FnSet;

/// An event that is answered, with its place.
#[derive(Clone, Copy)]
pub struct Answered<'a> {
    pub spot: Spot,
    /// The world in which it is answered: with more workers than one that at the end of its phase.
    pub world: &'a World,
    /// The functions whose calls are kept at its place.
    pub memoized: &'a FnSet,
    pub event: &'a Event,
}

/// Whom a walk tells what it finds out: each answer, and then its lines.
pub trait Observer {
    /// All bytes taken so far, where told.
    ghost written: { Self → Option (List ℕ) };

    /// How many calls have failed. The count rises where a call fails and only there, and stands still at the end of
    /// its type.
    ghost faults: { Self → ℕ };

    /// The stalls of the answers so far.
    ghost stalls: { Self → List StallSeen };

    /// Is told an answer, right before its lines, with the table that numbers the names of both. The answer's value, NIL where it
    /// has none. An event that neither decides, evaluates nor defines anything may be answered while others wait: of that one
    /// only the lines are told.
    fn answered(
        &mut self,
        at: Answered<'_>,
        texts: &Texts,
        answer: Answer,
    ) -> Result<Tree, NoMemory>
        requires { IsAnswerable at.world.now.definitions at.memoized.now (event_seen at.event.now) }
        ensures value { IfOk result (λ x. x ≡ value_in answer) }
        ensures kept { OnOk result (stalls self.new ≡ stalls self.old ++ stalls_of answer) }
        ensures err { OnErr result (stalls self.new ≡ stalls self.old) }
        ensures unwritten { written self.new ≡ written self.old }
        ensures unfailed { faults self.new ≡ faults self.old };

    /// Is told the refusal that ends a list of books, right before its line, with the state in front of it. A text that is too
    /// long to be read as a list is refused before there is a state, and is told by its line alone.
    fn refused(&mut self, refusal: &Refusal, state: &State)
        ensures unstalled { stalls self.new ≡ stalls self.old }
        ensures unwritten { written self.new ≡ written self.old }
        ensures unfailed { faults self.new ≡ faults self.old };

    /// Takes a line. Where it fails, a front of the line was taken, which is not the whole.
    fn put(&mut self, of: LineOf<'_>, line: &[u8]) -> Result<(), Failed>
        ensures ok { OnOk result (Grows (written self.old) (written self.new) line.now) }
        ensures err { OnErr result (GrowsByFront (written self.old) (written self.new) line.now) }
        ensures cause { HasCause (faults self.old) (faults self.new) result }
        ensures unstalled { stalls self.new ≡ stalls self.old };

    /// Hands on what was taken.
    fn flush(&mut self) -> Result<(), Failed>
        ensures same { Stays (written self.old) (written self.new) }
        ensures cause { HasCause (faults self.old) (faults self.new) result }
        ensures unstalled { stalls self.new ≡ stalls self.old };
}
