//! Sums and negation.

ghost use Rattle.std.specs.Prelude.{◌≡◌, ◌≤◌, ◌<◌, ◌+◌, ℕ, Bool, false, true, cond, length, max, pos, ◌+ℤ◌, ◌-ℤ◌, neg_ℤ, IfOk, OnErr};
ghost use Rattle.bfr_store.specs.Keeps.{Keeps};
ghost use Rattle.gl_logic.specs.TwosComplement.{digit};
ghost use Rattle.sym_bits.specs.Integers.{AllLive, integer_under};
ghost use Rattle.sym_bits.specs.Calls.{MakesInteger, Stands, sum_from};

use super::bitwise::{complement, complement_if};
use super::digits::Digits;
use super::full_add::full_add;
use super::lists::{bit, constant_bit, digit_of};
use bfr_store::{Bits, Bitvec, Edge, Full, differ};

/// The columns below the top one of a sum of two integers and a carry, and what they carry.
fn low_columns<B: Bits>(
    store: &mut B,
    a: &Bitvec,
    b: &Bitvec,
    carry_in: bool,
    top: u32,
) -> Result<(Digits, Edge), Full>
    requires a { AllLive B.Meaning store.old a.now }
    requires b { AllLive B.Meaning store.old b.now }
    requires top { top < 259 }
    ensures keeps { Keeps B.Meaning store.old store.new }
    ensures carry { IfOk result (λ r. B.live store.new r.1) }
    ensures count { IfOk result (λ r. length r.0 ≡ top) }
    ensures sum { IfOk result (λ r. Stands B.Meaning store.old store.new r.0
        (λ x. sum_from B.Meaning store.old a.now b.now top (B.truth_of store.new r.1 x) x)
        (λ x. sum_from B.Meaning store.old a.now b.now 0 carry_in x)) }
    ensures full { OnErr result (B.count_of store.new ≡ B.limit_of store.new) }
{
    let mut digits = Digits::new();
    let mut carry = store.constant(carry_in);
    for k in 0..top {
        let (x, y) = (bit(store, a, k), bit(store, b, k));
        let (sum, over) = full_add(store, x, y, carry)?;
        digits.push(sum);
        carry = over;
    }
    Ok((digits, carry))
}

/// The sum of two integers of at most 259 bits and a carry, one bit wider than the longer. `Full` as for `Bits::and`.
pub fn sum<B: Bits>(store: &mut B, a: &Bitvec, b: &Bitvec, carry_in: bool) -> Result<Bitvec, Full>
    requires a { AllLive B.Meaning store.old a.now }
    requires b { AllLive B.Meaning store.old b.now }
    requires width_a { length a.now < 260 }
    requires width_b { length b.now < 260 }
    ensures makes { MakesInteger B.Meaning store.old store.new result (λ x. (integer_under B.Meaning store.old a.now x +ℤ integer_under B.Meaning store.old b.now x) +ℤ digit carry_in) }
    ensures width { IfOk result (λ r. length r ≤ max (length a.now) (length b.now) + 1) }
{
    let top = a.len().max(b.len()) - 1;
    let (mut digits, carry) = low_columns(store, a, b, carry_in, top)?;
    let (x, y) = (bit(store, a, top), bit(store, b, top));
    let (low, over) = full_add(store, x, y, carry)?;
    let half = differ(store, x, y)?;
    let sign = differ(store, half, over)?;
    digits.push(low);
    Ok(digits.finish(sign))
}

/// The sum of two integers of at most 259 bits, one bit wider than the longer. `Full` as for `Bits::and`.
pub fn add<B: Bits>(store: &mut B, a: &Bitvec, b: &Bitvec) -> Result<Bitvec, Full>
    requires a { AllLive B.Meaning store.old a.now }
    requires b { AllLive B.Meaning store.old b.now }
    requires width_a { length a.now < 260 }
    requires width_b { length b.now < 260 }
    ensures makes { MakesInteger B.Meaning store.old store.new result (λ x. integer_under B.Meaning store.old a.now x +ℤ integer_under B.Meaning store.old b.now x) }
    ensures width { IfOk result (λ r. length r ≤ max (length a.now) (length b.now) + 1) }
{
    sum(store, a, b, false)
}

/// An integer of at most 259 bits with the other sign, one bit wider. `Full` as for `Bits::and`.
pub fn negate<B: Bits>(store: &mut B, a: &Bitvec) -> Result<Bitvec, Full>
    requires a { AllLive B.Meaning store.old a.now }
    requires width { length a.now < 260 }
    ensures makes { MakesInteger B.Meaning store.old store.new result (λ x. neg_ℤ (integer_under B.Meaning store.old a.now x)) }
    ensures width { IfOk result (λ r. length r ≤ max 1 (length a.now) + 1) }
{
    let flipped = complement(store, a)?;
    let zero = constant_bit(store, false);
    sum(store, &flipped, &zero, true)
}

/// The difference of two integers of at most 259 bits, one bit wider than the longer. `Full` as for `Bits::and`.
pub fn subtract<B: Bits>(store: &mut B, a: &Bitvec, b: &Bitvec) -> Result<Bitvec, Full>
    requires a { AllLive B.Meaning store.old a.now }
    requires b { AllLive B.Meaning store.old b.now }
    requires width_a { length a.now < 260 }
    requires width_b { length b.now < 260 }
    ensures makes { MakesInteger B.Meaning store.old store.new result (λ x. integer_under B.Meaning store.old a.now x -ℤ integer_under B.Meaning store.old b.now x) }
    ensures width { IfOk result (λ r. length r ≤ max (length a.now) (max 1 (length b.now)) + 1) }
{
    let flipped = complement(store, b)?;
    sum(store, a, &flipped, true)
}

/// An integer of at most 259 bits with the other sign where the edge is true. `Full` as for `Bits::and`.
pub fn negate_if<B: Bits>(store: &mut B, test: Edge, a: &Bitvec) -> Result<Bitvec, Full>
    requires test { B.live store.old test }
    requires a { AllLive B.Meaning store.old a.now }
    requires width { length a.now < 260 }
    ensures makes { MakesInteger B.Meaning store.old store.new result (λ x. cond (B.truth_of store.old test x) (neg_ℤ (integer_under B.Meaning store.old a.now x)) (integer_under B.Meaning store.old a.now x)) }
    ensures width { IfOk result (λ r. length r ≤ max 2 (length a.now) + 1) }
{
    let flipped = complement_if(store, test, a)?;
    let one = digit_of(store, test);
    add(store, &flipped, &one)
}
