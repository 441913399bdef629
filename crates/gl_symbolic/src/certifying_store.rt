//! Stores whose decisions leave behind what shows them.

ghost use Rattle.std.specs.Prelude.{◌≡◌, ◌↔◌, ℕ, Bool, true, false, length, Ok, None, IsTrue, IfOk, IfErr, IfSome};
ghost use Rattle.bfr_store.specs.Keeps.{Grows};
ghost use Rattle.gl_logic.specs.Assignments.{value_at};
ghost use Rattle.sym_objects.specs.Seen.{IsWhole};
ghost use Rattle.sym_prims.specs.Applying.{HasCause, Leaves};

use bfr_store::{Bits, Decision, Edge};
use gl_logic::{Assignment, NoMemory};
use std::alloc::Global;
use sym_objects::Sobs;
use sym_prims::SymFault;
use sym_prims::store_calls::width;

/// A store whose decisions leave behind what shows that no assignment makes a function true.
pub trait CertifyingStore: Bits {
    /// The store shows it of its last decision.
    ghost shown: { Self → Type 0 };

    /// Decides as `Bits::decide`, and shows an answer that no assignment makes the function true.
    fn settle(&mut self, e: Edge, out: &mut Assignment) -> Result<Decision, NoMemory>
        requires live { Self.live self.old e }
        requires width { length out.old ≡ Self.width_of self.old }
        ensures grows { Grows Self.Meaning self.old self.new }
        ensures width { Self.width_of self.new ≡ Self.width_of self.old }
        ensures never { result ≡ Ok Decision.Never → (a : ℕ → Bool) → Self.truth_of self.new e a ≡ false }
        ensures sometimes { result ≡ Ok Decision.Sometimes → Self.truth_of self.new e (value_at out.new) ≡ true }
        ensures spent { result ≡ Ok Decision.Spent → IsTrue (Self.spent self.new) }
        ensures bits { length out.new ≡ length out.old }
        ensures shown { result ≡ Ok Decision.Never → shown self.new };
}

/// The store's decision on an edge.
fn settled<B: CertifyingStore>(
    objs: &mut Sobs<B>,
    edge: Edge,
    out: &mut Assignment,
) -> Result<Decision, NoMemory>
    requires whole { IsWhole B.Meaning objs.old }
    requires edge { B.live objs.old.store edge }
    requires width { length out.old ≡ B.width_of objs.old.store }
    ensures leaves { Leaves B.Meaning objs.old objs.new }
    ensures never { result ≡ Ok Decision.Never → (a : ℕ → Bool) → B.truth_of objs.old.store edge a ≡ false }
    ensures sometimes { result ≡ Ok Decision.Sometimes → B.truth_of objs.old.store edge (value_at out.new) ≡ true }
    ensures spent { result ≡ Ok Decision.Spent → IsTrue (B.spent objs.new.store) }
    ensures bits { length out.new ≡ length out.old }
    ensures shown { result ≡ Ok Decision.Never → B.shown objs.new.store }
{
    objs.store().settle(edge, out)
}

/// An assignment that makes the edge true, or none where none does, which the store then shows.
pub(crate) fn reach<B: CertifyingStore>(
    alloc: Global,
    objs: &mut Sobs<B>,
    edge: Edge,
) -> Result<Option<Assignment>, SymFault>
    requires whole { IsWhole B.Meaning objs.old }
    requires edge { B.live objs.old.store edge }
    ensures leaves { Leaves B.Meaning objs.old objs.new }
    ensures never { result ≡ Ok None → (a : ℕ → Bool) → B.truth_of objs.old.store edge a ≡ false }
    ensures some { IfOk result (λ o. IfSome o (λ w. (length w ≡ B.width_of objs.new.store) × (B.truth_of objs.old.store edge (value_at w) ≡ true))) }
    ensures cause { IfErr result (λ f. (e : Edge) → HasCause B.Meaning objs.new e (λ a. ⊥) f) }
    ensures shown { result ≡ Ok None → B.shown objs.new.store }
{
    let width = width(objs);
    let mut found = Assignment::new(alloc, width)?;
    match settled(objs, edge, &mut found)? {
        Decision::Never => Ok(None),
        Decision::Sometimes => Ok(Some(found)),
        Decision::Spent => Err(SymFault::Spent),
    }
}
