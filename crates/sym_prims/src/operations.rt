//! The integer operations on lists of bits.

ghost use Rattle.std.specs.Prelude.{◌≡◌, ◌≤◌, ℕ, Bool, length, IsTrue, IfOk};
ghost use Rattle.int_prims.specs.Integers.{is_operation};
ghost use Rattle.sym_bits.specs.Calls.{MakesInteger};
ghost use Rattle.sym_bits.specs.Integers.{AllLive, integer_under};
ghost use Rattle.sym_bits.specs.Shifting.{MakesShifted};
ghost use Rattle.sym_prims.specs.Results.{integer_result, IsShift, IsQuotient};

use bfr_store::{Bits, Bitvec, Full};
use gl_logic::Prim;
use sym_bits::{
    Shifted, add, and_bits, complement, fits, floor_mod, int_length, narrow, negate, or_bits,
    shift, times, truncate_rem, xor_bits,
};

/// A quotient or what it leaves, at its full width.
fn quotient<B: Bits>(store: &mut B, prim: Prim, a: &Bitvec, b: &Bitvec) -> Result<Bitvec, Full>
    requires prim { IsQuotient prim }
    requires a { AllLive B.Meaning store.old a.now }
    requires b { AllLive B.Meaning store.old b.now }
    requires width_a { length a.now ≤ 128 }
    requires width_b { length b.now ≤ 128 }
    ensures makes { MakesInteger B.Meaning store.old store.new result (λ x. integer_result prim (integer_under B.Meaning store.old a.now x) (integer_under B.Meaning store.old b.now x)) }
{
    match prim {
        Prim::Floor => Ok(floor_mod(store, a, b)?.0),
        Prim::Mod => Ok(floor_mod(store, a, b)?.1),
        Prim::Truncate => Ok(truncate_rem(store, a, b)?.0),
        Prim::Rem => Ok(truncate_rem(store, a, b)?.1),
        _ => unreachable!(),
    }
}

/// The result of an operation other than a shift, at its full width.
fn operation<B: Bits>(store: &mut B, prim: Prim, a: &Bitvec, b: &Bitvec) -> Result<Bitvec, Full>
    requires prim { IsTrue (is_operation prim) }
    requires shift { IsShift prim → ⊥ }
    requires a { AllLive B.Meaning store.old a.now }
    requires b { AllLive B.Meaning store.old b.now }
    requires width_a { length a.now ≤ 128 }
    requires width_b { length b.now ≤ 128 }
    ensures makes { MakesInteger B.Meaning store.old store.new result (λ x. integer_result prim (integer_under B.Meaning store.old a.now x) (integer_under B.Meaning store.old b.now x)) }
{
    match prim {
        Prim::BinaryPlus => add(store, a, b),
        Prim::BinaryTimes => times(store, a, b),
        Prim::UnaryMinus => negate(store, a),
        Prim::BinaryLogand => and_bits(store, a, b),
        Prim::BinaryLogior => or_bits(store, a, b),
        Prim::BinaryLogxor => xor_bits(store, a, b),
        Prim::Lognot => complement(store, a),
        Prim::IntegerLength => int_length(store, a),
        _ => quotient(store, prim, a, b),
    }
}

/// An integer within 128 bits, and where it leaves them.
fn within<B: Bits>(store: &mut B, whole: &Bitvec) -> Result<Shifted, Full>
    requires whole { AllLive B.Meaning store.old whole.now }
    ensures makes { MakesShifted B.Meaning store.old store.new result (λ x. integer_under B.Meaning store.old whole.now x) }
    ensures width { IfOk result (λ r. length r.bits ≤ 128) }
{
    let bits = narrow(whole);
    if whole.len() <= 128 {
        let over = store.constant(false);
        return Ok(Shifted { bits, over });
    }
    let inside = fits(store, whole)?;
    Ok(Shifted {
        bits,
        over: store.not(inside),
    })
}

/// The result of an operation within 128 bits, and where it leaves them. `Full` as for `Bits::and`.
pub fn operate<B: Bits>(store: &mut B, prim: Prim, a: &Bitvec, b: &Bitvec) -> Result<Shifted, Full>
    requires prim { IsTrue (is_operation prim) }
    requires a { AllLive B.Meaning store.old a.now }
    requires b { AllLive B.Meaning store.old b.now }
    requires width_a { length a.now ≤ 128 }
    requires width_b { length b.now ≤ 128 }
    ensures makes { MakesShifted B.Meaning store.old store.new result (λ x. integer_result prim (integer_under B.Meaning store.old a.now x) (integer_under B.Meaning store.old b.now x)) }
    ensures width { IfOk result (λ r. length r.bits ≤ 128) }
{
    match prim {
        Prim::Ash => shift(store, a, b),
        _ => {
            let whole = operation(store, prim, a, b)?;
            within(store, &whole)
        }
    }
}
