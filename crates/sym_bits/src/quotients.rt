//! Quotients of integers with a sign, and what they leave.

ghost use Rattle.std.specs.Prelude.{◌≡◌, ◌≤◌, ◌<◌, ◌+◌, ℕ, Bool, cond, length, max, pos, neg_ℤ, ◌<ℤ◌, IfOk, OnErr};
ghost use Rattle.std.specs.Ordering.{int_eq};
ghost use Rattle.bfr_store.specs.Keeps.{Keeps};
ghost use Rattle.gl_logic.specs.Quotients.{floor_ℤ, mod_ℤ, truncate_ℤ, rem_ℤ};
ghost use Rattle.sym_bits.specs.Dividing.{MakesTwoIntegers};
ghost use Rattle.sym_bits.specs.Integers.{AllLive, integer_under};

use super::bitwise::{complement_if, select};
use super::comparisons::is_nonzero;
use super::division::divide;
use super::lists::{bit, constant_bit};
use super::sums::{add, negate_if};
use bfr_store::{Bits, Bitvec, Full, differ};

/// The quotient, rounded down, and the rest by a divisor above 0, of at most 129 bits each: the complement of a negative
/// dividend is divided, and the answers are turned over again. `Full` as for `Bits::and`.
fn floor_above<B: Bits>(
    store: &mut B,
    a: &Bitvec,
    divisor: &Bitvec,
) -> Result<(Bitvec, Bitvec), Full>
    requires a { AllLive B.Meaning store.old a.now }
    requires divisor { AllLive B.Meaning store.old divisor.now }
    requires width { length a.now ≤ 129 }
    requires divisor_width { length divisor.now ≤ 129 }
    ensures keeps { Keeps B.Meaning store.old store.new }
    ensures live { IfOk result (λ r. AllLive B.Meaning store.new r.0 × AllLive B.Meaning store.new r.1) }
    ensures width { IfOk result (λ r. (length r.0 ≤ 129) × (length r.1 ≤ 130)) }
    ensures value { IfOk result (λ r. (x : ℕ → Bool) → pos 0 <ℤ integer_under B.Meaning store.old divisor.now x
        → (integer_under B.Meaning store.new r.0 x ≡ floor_ℤ (integer_under B.Meaning store.old a.now x) (integer_under B.Meaning store.old divisor.now x))
        × (integer_under B.Meaning store.new r.1 x ≡ mod_ℤ (integer_under B.Meaning store.old a.now x) (integer_under B.Meaning store.old divisor.now x))) }
    ensures full { OnErr result (B.count_of store.new ≡ B.limit_of store.new) }
{
    let is_negative = bit(store, a, a.len() - 1);
    let dividend = complement_if(store, is_negative, a)?;
    let (quotient, rest) = divide(store, &dividend, divisor)?;
    let quotient = complement_if(store, is_negative, &quotient)?;
    let turned = complement_if(store, is_negative, &rest)?;
    let zero = constant_bit(store, false);
    let back = select(store, is_negative, divisor, &zero)?;
    let rest = add(store, &back, &turned)?;
    Ok((quotient, rest))
}

/// The quotient and the rest, but 0 and the dividend where the divisor is 0. `Full` as for `Bits::and`.
fn unless_zero<B: Bits>(
    store: &mut B,
    a: &Bitvec,
    b: &Bitvec,
    quotient: &Bitvec,
    rest: &Bitvec,
) -> Result<(Bitvec, Bitvec), Full>
    requires a { AllLive B.Meaning store.old a.now }
    requires b { AllLive B.Meaning store.old b.now }
    requires quotient { AllLive B.Meaning store.old quotient.now }
    requires rest { AllLive B.Meaning store.old rest.now }
    ensures makes { MakesTwoIntegers B.Meaning store.old store.new result
        (λ x. cond (int_eq (integer_under B.Meaning store.old b.now x) (pos 0)) (pos 0) (integer_under B.Meaning store.old quotient.now x))
        (λ x. cond (int_eq (integer_under B.Meaning store.old b.now x) (pos 0)) (integer_under B.Meaning store.old a.now x) (integer_under B.Meaning store.old rest.now x)) }
    ensures width { IfOk result (λ r. (length r.0 ≤ max 1 (length quotient.now)) × (length r.1 ≤ max (length a.now) (length rest.now))) }
{
    let is_some = is_nonzero(store, b)?;
    let zero = constant_bit(store, false);
    let quotient = select(store, is_some, quotient, &zero)?;
    let rest = select(store, is_some, rest, a)?;
    Ok((quotient, rest))
}

/// The quotient of two integers of at most 128 bits, rounded down, and what it leaves. A divisor of 0 gives the quotient
/// 0, and so leaves the dividend. `Full` as for `Bits::and`.
pub fn floor_mod<B: Bits>(store: &mut B, a: &Bitvec, b: &Bitvec) -> Result<(Bitvec, Bitvec), Full>
    requires a { AllLive B.Meaning store.old a.now }
    requires b { AllLive B.Meaning store.old b.now }
    requires width_a { length a.now ≤ 128 }
    requires width_b { length b.now ≤ 128 }
    ensures makes { MakesTwoIntegers B.Meaning store.old store.new result
        (λ x. floor_ℤ (integer_under B.Meaning store.old a.now x) (integer_under B.Meaning store.old b.now x))
        (λ x. mod_ℤ (integer_under B.Meaning store.old a.now x) (integer_under B.Meaning store.old b.now x)) }
    ensures width { IfOk result (λ r. (length r.0 ≤ 129) × (length r.1 ≤ 131)) }
{
    let is_negative = bit(store, b, b.len() - 1);
    let dividend = negate_if(store, is_negative, a)?;
    let divisor = negate_if(store, is_negative, b)?;
    let (quotient, rest) = floor_above(store, &dividend, &divisor)?;
    let rest = negate_if(store, is_negative, &rest)?;
    unless_zero(store, a, b, &quotient, &rest)
}

/// The quotient of two integers of at most 128 bits, rounded toward 0, and what it leaves. A divisor of 0 gives the
/// quotient 0, and so leaves the dividend. `Full` as for `Bits::and`.
pub fn truncate_rem<B: Bits>(
    store: &mut B,
    a: &Bitvec,
    b: &Bitvec,
) -> Result<(Bitvec, Bitvec), Full>
    requires a { AllLive B.Meaning store.old a.now }
    requires b { AllLive B.Meaning store.old b.now }
    requires width_a { length a.now ≤ 128 }
    requires width_b { length b.now ≤ 128 }
    ensures makes { MakesTwoIntegers B.Meaning store.old store.new result
        (λ x. truncate_ℤ (integer_under B.Meaning store.old a.now x) (integer_under B.Meaning store.old b.now x))
        (λ x. rem_ℤ (integer_under B.Meaning store.old a.now x) (integer_under B.Meaning store.old b.now x)) }
    ensures width { IfOk result (λ r. (length r.0 ≤ 130) × (length r.1 ≤ 130)) }
{
    let (of_a, of_b) = (bit(store, a, a.len() - 1), bit(store, b, b.len() - 1));
    let dividend = negate_if(store, of_a, a)?;
    let divisor = negate_if(store, of_b, b)?;
    let (quotient, rest) = divide(store, &dividend, &divisor)?;
    let differs = differ(store, of_a, of_b)?;
    let quotient = negate_if(store, differs, &quotient)?;
    let rest = negate_if(store, of_a, &rest)?;
    unless_zero(store, a, b, &quotient, &rest)
}
