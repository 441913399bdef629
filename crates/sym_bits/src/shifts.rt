//! Arithmetic shifts.

ghost use Rattle.std.specs.Prelude.{◌≡◌, ◌≤◌, ◌<◌, ◌+◌, ◌^◌, ◌&&◌, ◌*ℤ◌, ℕ, suc, Bool, false, not, cond, length, pos, IfOk};
ghost use Rattle.std.specs.Ordering.{int_eq};
ghost use Rattle.bfr_store.specs.Keeps.{Keeps, Makes};
ghost use Rattle.gl_logic.specs.Bytes.{is_signed_byte};
ghost use Rattle.gl_logic.specs.Shifts.{ash_ℤ};
ghost use Rattle.sym_bits.specs.Columns.{low_number};
ghost use Rattle.sym_bits.specs.Integers.{AllLive, bits_under, integer_under};
ghost use Rattle.sym_bits.specs.Calls.{MakesInteger};
ghost use Rattle.sym_bits.specs.Shifting.{MakesShifted};

use super::bitwise::select;
use super::comparisons::{fits, is_nonzero, same};
use super::lists::{above, bit, moved, narrow};
use super::shifted::Shifted;
use bfr_store::{Bits, Bitvec, Edge, Full, both, choose, is_constant};

/// An integer of at most 128 bits times two to the power of the number of the lowest `levels` bits of a count: one
/// choice of a longer integer for each of these bits. `Full` as for `Bits::and`.
fn moved_by<B: Bits>(store: &mut B, a: &Bitvec, count: &Bitvec, levels: u32) -> Result<Bitvec, Full>
    requires a { AllLive B.Meaning store.old a.now }
    requires count { AllLive B.Meaning store.old count.now }
    requires width { length a.now ≤ 128 }
    requires levels { levels ≤ 7 }
    ensures makes { MakesInteger B.Meaning store.old store.new result (λ x. integer_under B.Meaning store.old a.now x *ℤ pos (2 ^ low_number levels (bits_under B.Meaning store.old count.now x))) }
    ensures width { IfOk result (λ r. length r < 256) }
{
    let mut whole = above(store, a, 0);
    let mut distance = 1;
    for k in 0..levels {
        let further = moved(store, &whole, distance);
        whole = select(store, bit(store, count, k), &further, &whole)?;
        distance *= 2;
    }
    Ok(whole)
}

/// Whether the count is near: from minus two to the power `levels` to the number below it. `Full` as for `Bits::and`.
fn is_near<B: Bits>(store: &mut B, count: &Bitvec, levels: u32) -> Result<Edge, Full>
    requires count { AllLive B.Meaning store.old count.now }
    ensures makes { Makes B.Meaning store.old store.new result (λ x. is_signed_byte (pos (suc levels)) (integer_under B.Meaning store.old count.now x)) }
{
    let (high, sign) = (
        above(store, count, levels),
        above(store, count, count.len()),
    );
    same(store, &high, &sign)
}

/// Where a shift to the left leaves 128 bits: by a near count where the product does not fit, and by a far count
/// wherever there is a bit to shift. `Full` as for `Bits::and`.
fn overflow_left<B: Bits>(
    store: &mut B,
    a: &Bitvec,
    product: &Bitvec,
    near: Edge,
) -> Result<Edge, Full>
    requires a { AllLive B.Meaning store.old a.now }
    requires product { AllLive B.Meaning store.old product.now }
    requires near { B.live store.old near }
    ensures makes { Makes B.Meaning store.old store.new result (λ x. cond (B.truth_of store.old near x)
        (not (is_signed_byte (pos 128) (integer_under B.Meaning store.old product.now x))) (not (int_eq (integer_under B.Meaning store.old a.now x) (pos 0)))) }
{
    let within = fits(store, product)?;
    let leaves = store.not(within);
    if is_constant(store, near, true) {
        return Ok(leaves);
    }
    let is_moved = is_nonzero(store, a)?;
    choose(store, near, leaves, is_moved)
}

/// Where a shift leaves 128 bits: nowhere to the right. `Full` as for `Bits::and`.
fn overflow<B: Bits>(
    store: &mut B,
    a: &Bitvec,
    product: &Bitvec,
    near: Edge,
    negative: Edge,
) -> Result<Edge, Full>
    requires a { AllLive B.Meaning store.old a.now }
    requires product { AllLive B.Meaning store.old product.now }
    requires near { B.live store.old near }
    requires negative { B.live store.old negative }
    ensures makes { Makes B.Meaning store.old store.new result (λ x. not (B.truth_of store.old negative x)
        && cond (B.truth_of store.old near x) (not (is_signed_byte (pos 128) (integer_under B.Meaning store.old product.now x))) (not (int_eq (integer_under B.Meaning store.old a.now x) (pos 0)))) }
{
    if is_constant(store, negative, true) {
        return Ok(store.constant(false));
    }
    let leaves = overflow_left(store, a, product, near)?;
    let is_left = store.not(negative);
    both(store, is_left, leaves)
}

/// An integer times two to the power of a count, rounded down where the count is negative. `Full` as for `Bits::and`.
pub fn shift<B: Bits>(store: &mut B, a: &Bitvec, count: &Bitvec) -> Result<Shifted, Full>
    requires a { AllLive B.Meaning store.old a.now }
    requires count { AllLive B.Meaning store.old count.now }
    requires width { length a.now ≤ 128 }
    ensures makes { MakesShifted B.Meaning store.old store.new result (λ x. ash_ℤ (integer_under B.Meaning store.old a.now x) (integer_under B.Meaning store.old count.now x)) }
    ensures width { IfOk result (λ r. length r.bits ≤ 128) }
{
    let last = count.len() - 1;
    let levels = last.min(7);
    let near = is_near(store, count, levels)?;
    let product = moved_by(store, a, count, levels)?;
    let (right, sign) = (
        above(store, &product, 1 << levels),
        above(store, a, a.len()),
    );
    let negative = bit(store, count, last);
    let close = select(store, negative, &right, &product)?;
    let bits = select(store, near, &close, &sign)?;
    let over = overflow(store, a, &product, near, negative)?;
    Ok(Shifted {
        bits: narrow(&bits),
        over,
    })
}
