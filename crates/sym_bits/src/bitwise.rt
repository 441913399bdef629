//! Operations that go bit by bit.

ghost use Rattle.std.specs.Prelude.{◌≡◌, ◌≤◌, ℕ, Bool, true, cond, length, max, negsuc, IfOk};
ghost use Rattle.bfr_store.specs.Keeps.{Keeps};
ghost use Rattle.gl_logic.specs.Bitwise.{not_ℤ, and_ℤ, or_ℤ, xor_ℤ};
ghost use Rattle.sym_bits.specs.Integers.{AllLive, integer_under};
ghost use Rattle.sym_bits.specs.Gates.{GateLive, gate_integer};
ghost use Rattle.sym_bits.specs.Calls.{MakesInteger};

use super::digits::Digits;
use super::gate::{Gate, apply};
use super::lists::{bit, constant_bit, mask};
use bfr_store::{Bits, Bitvec, Edge, Full};

/// A gate on each pair of bits of two integers, as wide as the longer. `Full` as for `Bits::and`.
pub fn bit_by_bit<B: Bits>(
    store: &mut B,
    gate: Gate,
    a: &Bitvec,
    b: &Bitvec,
) -> Result<Bitvec, Full>
    requires gate { GateLive (B.live store.old) gate }
    requires a { AllLive B.Meaning store.old a.now }
    requires b { AllLive B.Meaning store.old b.now }
    ensures makes { MakesInteger B.Meaning store.old store.new result (λ x. gate_integer (λ e. B.truth_of store.old e x) gate (integer_under B.Meaning store.old a.now x) (integer_under B.Meaning store.old b.now x)) }
    ensures width { IfOk result (λ r. length r ≤ max (length a.now) (length b.now)) }
{
    let top = a.len().max(b.len()) - 1;
    let mut digits = Digits::new();
    for k in 0..top {
        let (x, y) = (bit(store, a, k), bit(store, b, k));
        digits.push(apply(store, gate, x, y)?);
    }
    let (x, y) = (bit(store, a, top), bit(store, b, top));
    let sign = apply(store, gate, x, y)?;
    Ok(digits.finish(sign))
}

/// The bits that both integers have. `Full` as for `Bits::and`.
pub fn and_bits<B: Bits>(store: &mut B, a: &Bitvec, b: &Bitvec) -> Result<Bitvec, Full>
    requires a { AllLive B.Meaning store.old a.now }
    requires b { AllLive B.Meaning store.old b.now }
    ensures makes { MakesInteger B.Meaning store.old store.new result (λ x. and_ℤ (integer_under B.Meaning store.old a.now x) (integer_under B.Meaning store.old b.now x)) }
    ensures width { IfOk result (λ r. length r ≤ max (length a.now) (length b.now)) }
{
    bit_by_bit(store, Gate::And, a, b)
}

/// The bits that exactly one of the two integers has. `Full` as for `Bits::and`.
pub fn xor_bits<B: Bits>(store: &mut B, a: &Bitvec, b: &Bitvec) -> Result<Bitvec, Full>
    requires a { AllLive B.Meaning store.old a.now }
    requires b { AllLive B.Meaning store.old b.now }
    ensures makes { MakesInteger B.Meaning store.old store.new result (λ x. xor_ℤ (integer_under B.Meaning store.old a.now x) (integer_under B.Meaning store.old b.now x)) }
    ensures width { IfOk result (λ r. length r ≤ max (length a.now) (length b.now)) }
{
    bit_by_bit(store, Gate::Xor, a, b)
}

/// The first integer where the edge is true, and the second elsewhere. `Full` as for `Bits::and`.
pub fn select<B: Bits>(store: &mut B, test: Edge, a: &Bitvec, b: &Bitvec) -> Result<Bitvec, Full>
    requires test { B.live store.old test }
    requires a { AllLive B.Meaning store.old a.now }
    requires b { AllLive B.Meaning store.old b.now }
    ensures makes { MakesInteger B.Meaning store.old store.new result (λ x. cond (B.truth_of store.old test x) (integer_under B.Meaning store.old a.now x) (integer_under B.Meaning store.old b.now x)) }
    ensures width { IfOk result (λ r. length r ≤ max (length a.now) (length b.now)) }
{
    bit_by_bit(store, Gate::Choose(test), a, b)
}

/// The integer with each bit flipped. It makes no node.
pub fn complement<B: Bits>(store: &mut B, a: &Bitvec) -> Result<Bitvec, Full>
    requires a { AllLive B.Meaning store.old a.now }
    ensures makes { MakesInteger B.Meaning store.old store.new result (λ x. not_ℤ (integer_under B.Meaning store.old a.now x)) }
    ensures width { IfOk result (λ r. length r ≤ max 1 (length a.now)) }
{
    let ones = constant_bit(store, true);
    xor_bits(store, a, &ones)
}

/// The bits that at least one of the two integers has. `Full` as for `Bits::and`.
pub fn or_bits<B: Bits>(store: &mut B, a: &Bitvec, b: &Bitvec) -> Result<Bitvec, Full>
    requires a { AllLive B.Meaning store.old a.now }
    requires b { AllLive B.Meaning store.old b.now }
    ensures makes { MakesInteger B.Meaning store.old store.new result (λ x. or_ℤ (integer_under B.Meaning store.old a.now x) (integer_under B.Meaning store.old b.now x)) }
    ensures width { IfOk result (λ r. length r ≤ max (length a.now) (length b.now)) }
{
    bit_by_bit(store, Gate::Or, a, b)
}

/// The integer with each bit flipped where the edge is true. `Full` as for `Bits::and`.
pub fn complement_if<B: Bits>(store: &mut B, test: Edge, a: &Bitvec) -> Result<Bitvec, Full>
    requires test { B.live store.old test }
    requires a { AllLive B.Meaning store.old a.now }
    ensures makes { MakesInteger B.Meaning store.old store.new result (λ x. cond (B.truth_of store.old test x) (not_ℤ (integer_under B.Meaning store.old a.now x)) (integer_under B.Meaning store.old a.now x)) }
    ensures width { IfOk result (λ r. length r ≤ max 1 (length a.now)) }
{
    let flips = mask(store, test);
    xor_bits(store, a, &flips)
}
