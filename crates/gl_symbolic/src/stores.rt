//! What a decision leaves behind that shows it: nothing in diagrams, the book with the empty clause in graphs that are searched.

ghost use Rattle.std.specs.Prelude.{◌≡◌, ℕ, Bool, true, false, length, Ok, IsTrue};
ghost use Rattle.bfr_store.specs.Keeps.{Grows};
ghost use Rattle.gl_logic.specs.Assignments.{value_at};

use super::certifying_store::CertifyingStore;
use bdd_store::Bdd;
use bfr_store::{Bits, Decision, Edge};
use gl_logic::{Assignment, NoMemory};
use sat_core::AigSat;

// The diagrams themselves tell: nothing else is left behind.
impl CertifyingStore for Bdd {
    ghost shown = { λ s. Unit {0} };

    fn settle(&mut self, e: Edge, out: &mut Assignment) -> Result<Decision, NoMemory> {
        self.decide(e, out)
    }
}

// The book of the last decision is there, and the empty clause in it.
impl CertifyingStore for AigSat {
    ghost use Rattle.gl_symbolic.specs.Books.{HoldsEmpty};

    ghost shown = { HoldsEmpty };

    fn settle(&mut self, e: Edge, out: &mut Assignment) -> Result<Decision, NoMemory> {
        self.decide(e, out)
    }
}
