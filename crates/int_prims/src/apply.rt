//! The integer primitives by their names.

ghost use Rattle.std.specs.Prelude.{◌≡◌, ◌↔◌, IsTrue, IsErr, IfOk, OnErr};
ghost use Rattle.gl_logic.specs.Object.{Int, boolean_object};
ghost use Rattle.gl_logic.specs.PrimValue.{prim_value};
ghost use Rattle.int_prims.specs.Integers.{is_operation, is_test, integers_for, IsTooWide};

use crate::arithmetic::{negated, plus, times};
use crate::bits::bit;
use crate::bitwise::{and, complement, length, or, xor};
use crate::bytes::{is_signed, is_unsigned};
use crate::quotients::{floor, modulo, remainder, truncate};
use crate::shifts::shift;
use crate::wide::Wide;
use gl_logic::Prim;

/// Whether `apply_int` takes the primitive.
pub fn is_operation(prim: Prim) -> bool
    ensures { result ≡ is_operation prim }
{
    matches!(
        prim,
        Prim::BinaryPlus
            | Prim::BinaryTimes
            | Prim::UnaryMinus
            | Prim::Floor
            | Prim::Mod
            | Prim::Truncate
            | Prim::Rem
            | Prim::Ash
            | Prim::BinaryLogand
            | Prim::BinaryLogior
            | Prim::BinaryLogxor
            | Prim::Lognot
            | Prim::IntegerLength
    )
}

/// Whether `test_int` takes the primitive.
pub fn is_test(prim: Prim) -> bool
    ensures { result ≡ is_test prim }
{
    matches!(
        prim,
        Prim::Less | Prim::Logbitp | Prim::UnsignedByteP | Prim::SignedByteP
    )
}

// the value of an operation by its name
fn operation(prim: Prim, a: i128, b: i128) -> Result<i128, Wide>
    requires { IsTrue (is_operation prim) }
    ensures ok { IfOk result (λ i. prim_value prim (integers_for prim a b) ≡ Int i) }
    ensures wide { OnErr result (IsTooWide (prim_value prim (integers_for prim a b))) }
{
    match prim {
        Prim::BinaryPlus => plus(a, b),
        Prim::BinaryTimes => times(a, b),
        Prim::UnaryMinus => negated(a),
        Prim::Floor => floor(a, b),
        Prim::Mod => Ok(modulo(a, b)),
        Prim::Truncate => truncate(a, b),
        Prim::Rem => Ok(remainder(a, b)),
        Prim::Ash => shift(a, b),
        Prim::BinaryLogand => Ok(and(a, b)),
        Prim::BinaryLogior => Ok(or(a, b)),
        Prim::BinaryLogxor => Ok(xor(a, b)),
        Prim::Lognot => Ok(complement(a)),
        Prim::IntegerLength => Ok(length(a)),
        _ => unreachable!(),
    }
}

/// The value of a primitive on integers. A primitive of one argument takes `a`, and any `b`.
///
/// `Wide` exactly where the logic's integer is outside -2^127 to 2^127 - 1.
pub fn apply_int(prim: Prim, a: i128, b: i128) -> Result<i128, Wide>
    requires { IsTrue (is_operation prim) }
    ensures ok { IfOk result (λ i. prim_value prim (integers_for prim a b) ≡ Int i) }
    ensures wide { IsErr result ↔ IsTooWide (prim_value prim (integers_for prim a b)) }
{
    operation(prim, a, b)
}

/// The truth value of a test of two integers.
pub fn test_int(prim: Prim, a: i128, b: i128) -> bool
    requires { IsTrue (is_test prim) }
    ensures { prim_value prim (integers_for prim a b) ≡ boolean_object result }
{
    match prim {
        Prim::Less => a < b,
        Prim::Logbitp => bit(a, b),
        Prim::UnsignedByteP => is_unsigned(a, b),
        Prim::SignedByteP => is_signed(a, b),
        _ => unreachable!(),
    }
}
