//! Calls of the lent bit store.

ghost use Rattle.std.specs.Prelude.{◌≡◌, ◌↔◌, ◌&&◌, ℕ, Bool, true, false, not, length, pos, Ok, None, OnOk, IfOk, IfErr, IfSome, IsTrue};
ghost use Rattle.bfr_store.specs.Edges.{xor};
ghost use Rattle.bfr_store.specs.declared.edge.Edge.{Edge};
ghost use Rattle.gl_logic.specs.Assignments.{value_at};
ghost use Rattle.gl_logic.specs.TwosComplement.{bit_of};
ghost use Rattle.std.specs.Ordering.{int_eq};
ghost use Rattle.sym_bits.specs.Columns.{shifted};
ghost use Rattle.sym_bits.specs.Integers.{AllLive, bits_under};
ghost use Rattle.sym_objects.specs.Seen.{IsWhole};
ghost use Rattle.sym_prims.specs.Applying.{HasCause, Leaves, Tells};

use super::fault::SymFault;
use bfr_store::{Bits, Bitvec, Decision, Edge, Full, both, differ, is_constant};
use gl_logic::{Assignment, NoMemory};
use std::alloc::Global;
use sym_bits::{above, bit, is_nonzero};
use sym_objects::Sobs;

/// The edge that is always so.
pub fn constant_edge<B: Bits>(objs: &mut Sobs<B>, b: bool) -> Edge
    ensures same { objs.new ≡ objs.old }
    ensures live { B.live objs.old.store result }
    ensures truth { (a : ℕ → Bool) → B.truth_of objs.old.store result a ≡ b }
{
    objs.store().constant(b)
}

/// The complement of an edge.
pub fn complement<B: Bits>(objs: &mut Sobs<B>, edge: Edge) -> Edge
    requires { B.live objs.old.store edge }
    ensures same { objs.new ≡ objs.old }
    ensures live { B.live objs.old.store result }
    ensures truth { (a : ℕ → Bool) → B.truth_of objs.old.store result a ≡ not (B.truth_of objs.old.store edge a) }
{
    objs.store().not(edge)
}

/// Bit `k` of an integer, from the least significant.
pub fn bit_edge<B: Bits>(objs: &mut Sobs<B>, bits: &Bitvec, k: u32) -> Edge
    requires { AllLive B.Meaning objs.old.store bits.now }
    ensures same { objs.new ≡ objs.old }
    ensures live { B.live objs.old.store result }
    ensures truth { (a : ℕ → Bool) → B.truth_of objs.old.store result a ≡ bit_of (bits_under B.Meaning objs.old.store bits.now a) k }
{
    bit(objs.store(), bits, k)
}

/// Whether the edge is that of the constant `b`.
pub fn is_always<B: Bits>(objs: &mut Sobs<B>, edge: Edge, b: bool) -> bool
    ensures same { objs.new ≡ objs.old }
    ensures edge { IsTrue result ↔ edge ≡ B.constant_edge b }
    ensures always { IsTrue result → (a : ℕ → Bool) → B.truth_of objs.old.store edge a ≡ b }
{
    edge == objs.store().constant(b)
}

/// The function that is true where both are.
pub fn conjunction<B: Bits>(objs: &mut Sobs<B>, x: Edge, y: Edge) -> Result<Edge, Full>
    requires whole { IsWhole B.Meaning objs.old }
    requires x { B.live objs.old.store x }
    requires y { B.live objs.old.store y }
    ensures tells { Tells B.Meaning objs.old objs.new result (λ a. B.truth_of objs.old.store x a && B.truth_of objs.old.store y a) }
{
    both(objs.store(), x, y)
}

/// The function that is true where exactly one of the two is.
pub fn difference<B: Bits>(objs: &mut Sobs<B>, x: Edge, y: Edge) -> Result<Edge, Full>
    requires whole { IsWhole B.Meaning objs.old }
    requires x { B.live objs.old.store x }
    requires y { B.live objs.old.store y }
    ensures tells { Tells B.Meaning objs.old objs.new result (λ a. xor (B.truth_of objs.old.store x a) (B.truth_of objs.old.store y a)) }
{
    differ(objs.store(), x, y)
}

/// Whether an integer lies outside 0 to 255.
pub fn beyond_byte<B: Bits>(objs: &mut Sobs<B>, bits: &Bitvec) -> Result<Edge, Full>
    requires whole { IsWhole B.Meaning objs.old }
    requires bits { AllLive B.Meaning objs.old.store bits.now }
    ensures tells { Tells B.Meaning objs.old objs.new result (λ a. not (int_eq (shifted (bits_under B.Meaning objs.old.store bits.now a) 8) (pos 0))) }
{
    let rest = above(objs.store(), bits, 8);
    is_nonzero(objs.store(), &rest)
}

/// How many variables the store has.
pub fn width<B: Bits>(objs: &mut Sobs<B>) -> u32
    ensures same { objs.new ≡ objs.old }
    ensures width { result ≡ B.width_of objs.old.store }
{
    objs.store().width()
}

/// The store's decision on an edge.
fn decide<B: Bits>(
    objs: &mut Sobs<B>,
    edge: Edge,
    out: &mut Assignment,
) -> Result<Decision, NoMemory>
    requires whole { IsWhole B.Meaning objs.old }
    requires edge { B.live objs.old.store edge }
    requires width { length out.old ≡ B.width_of objs.old.store }
    ensures leaves { Leaves B.Meaning objs.old objs.new }
    ensures never { result ≡ Ok Decision.Never → (a : ℕ → Bool) → B.truth_of objs.old.store edge a ≡ false }
    ensures sometimes { result ≡ Ok Decision.Sometimes → B.truth_of objs.old.store edge (value_at out.new) ≡ true }
    ensures spent { result ≡ Ok Decision.Spent → IsTrue (B.spent objs.new.store) }
    ensures bits { length out.new ≡ length out.old }
{
    objs.store().decide(edge, out)
}

/// An assignment that makes the edge true, or none where none does.
pub fn reaches<B: Bits>(
    alloc: Global,
    objs: &mut Sobs<B>,
    edge: Edge,
) -> Result<Option<Assignment>, SymFault>
    requires whole { IsWhole B.Meaning objs.old }
    requires edge { B.live objs.old.store edge }
    ensures leaves { Leaves B.Meaning objs.old objs.new }
    ensures never { result ≡ Ok None → (a : ℕ → Bool) → B.truth_of objs.old.store edge a ≡ false }
    ensures some { IfOk result (λ o. IfSome o (λ w. (length w ≡ B.width_of objs.new.store) × (B.truth_of objs.old.store edge (value_at w) ≡ true))) }
    ensures cause { IfErr result (λ f. (e : Edge) → HasCause B.Meaning objs.new e (λ a. ⊥) f) }
{
    let width = width(objs);
    let mut found = Assignment::new(alloc, width)?;
    match decide(objs, edge, &mut found)? {
        Decision::Never => Ok(None),
        Decision::Sometimes => Ok(Some(found)),
        Decision::Spent => Err(SymFault::Spent),
    }
}

/// Whether no assignment makes the edge true.
pub fn is_unreached<B: Bits>(
    alloc: Global,
    objs: &mut Sobs<B>,
    edge: Edge,
) -> Result<bool, SymFault>
    requires whole { IsWhole B.Meaning objs.old }
    requires edge { B.live objs.old.store edge }
    ensures leaves { Leaves B.Meaning objs.old objs.new }
    ensures unreached { IfOk result (λ r. r ≡ true → (a : ℕ → Bool) → B.truth_of objs.old.store edge a ≡ false) }
    ensures reached { IfOk result (λ r. r ≡ false → (a : ℕ → Bool) × (B.truth_of objs.old.store edge a ≡ true)) }
    ensures cause { IfErr result (λ f. (e : Edge) → HasCause B.Meaning objs.new e (λ a. ⊥) f) }
{
    match reaches(alloc, objs, edge)? {
        None => Ok(true),
        Some(_) => Ok(false),
    }
}

/// Answers `Wide` where some assignment makes both the path and the other edge true.
pub fn avoid<B: Bits>(
    alloc: Global,
    objs: &mut Sobs<B>,
    over: Edge,
    path: Edge,
) -> Result<(), SymFault>
    requires whole { IsWhole B.Meaning objs.old }
    requires over { B.live objs.old.store over }
    requires path { B.live objs.old.store path }
    ensures leaves { Leaves B.Meaning objs.old objs.new }
    ensures never { OnOk result ((a : ℕ → Bool) → B.truth_of objs.old.store path a ≡ true → B.truth_of objs.old.store over a ≡ false) }
    ensures cause { IfErr result (λ f. HasCause B.Meaning objs.new path (λ a. B.truth_of objs.old.store over a ≡ true) f) }
{
    if is_constant(objs.store(), over, false) {
        return Ok(());
    }
    let bad = conjunction(objs, path, over)?;
    match reaches(alloc, objs, bad)? {
        None => Ok(()),
        Some(found) => Err(SymFault::Wide(found)),
    }
}
