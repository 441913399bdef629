//! Primitives on integers of 64 bits.

ghost use Rattle.std.specs.Prelude.{◌≡◌, ◌<◌, ◌%◌, List, IfSome, neg_ℤ};
ghost use Rattle.gl_logic.specs.Bitwise.{and_ℤ, or_ℤ, xor_ℤ};
ghost use Rattle.gl_logic.specs.Object.{Object, Int, boolean_object};
ghost use Rattle.gl_logic.specs.PrimValue.{prim_of};
ghost use Rattle.gl_logic.specs.Quotients.{floor_ℤ, mod_ℤ};
ghost use Rattle.lisp_eval.specs.Narrow.{IsNarrow};
ghost use Rattle.lisp_eval.specs.Outside.{value_object, IsLiveValue};

use crate::value::Value;
use gl_logic::Prim;

/// What a division leaves. By a power of two it is a mask.
#[inline(always)]
fn remainder(a: u64, b: u64) -> u64
    requires { 0 < b }
    ensures { result ≡ a % b }
{
    let places = b.trailing_zeros();
    if places < 64 && b == 1 << places {
        a & (b - 1)
    } else {
        a % b
    }
}

/// What `mod` leaves by a divisor above zero; nothing by any other.
#[inline(always)]
fn small_modulo(a: i64, b: i64) -> Option<i64>
    ensures { IfSome result (λ i. mod_ℤ a b ≡ i) }
{
    if b <= 0 {
        None
    } else if a < 0 {
        Some(a.rem_euclid(b))
    } else {
        Some(remainder(a as u64, b as u64) as i64)
    }
}

/// The quotient of a number by one above zero, rounded down; nothing of any other two integers.
#[inline(always)]
fn small_quotient(a: i64, b: i64) -> Option<i64>
    ensures { IfSome result (λ i. floor_ℤ a b ≡ i) }
{
    if 0 <= a && 0 < b { Some(a / b) } else { None }
}

/// The bits that both of two numbers have; nothing where one is below zero.
#[inline(always)]
fn small_and(a: i64, b: i64) -> Option<i64>
    ensures { IfSome result (λ i. and_ℤ a b ≡ i) }
{
    if 0 <= a && 0 <= b { Some(a & b) } else { None }
}

/// The bits that one of two numbers has or both have; nothing where one is below zero.
#[inline(always)]
#[tactic(auto, using(crate::proofs::SmallBits::or_of_63))]
fn small_or(a: i64, b: i64) -> Option<i64>
    ensures { IfSome result (λ i. or_ℤ a b ≡ i) }
{
    if 0 <= a && 0 <= b { Some(a | b) } else { None }
}

/// The bits that one alone of two numbers has; nothing where one is below zero.
#[inline(always)]
#[tactic(auto, using(crate::proofs::SmallBits::xor_of_63))]
fn small_xor(a: i64, b: i64) -> Option<i64>
    ensures { IfSome result (λ i. xor_ℤ a b ≡ i) }
{
    if 0 <= a && 0 <= b { Some(a ^ b) } else { None }
}

/// Whether a primitive of two arguments may give such an integer.
#[inline(always)]
pub fn is_small_operation(prim: Prim) -> bool {
    match prim {
        Prim::BinaryPlus
        | Prim::BinaryTimes
        | Prim::Mod
        | Prim::Floor
        | Prim::BinaryLogand
        | Prim::BinaryLogior
        | Prim::BinaryLogxor => true,
        _ => false,
    }
}

/// The integer that a primitive of two arguments gives of two integers, where it is found at once and is one of 64 bits.
#[inline(always)]
pub fn small_integer(prim: Prim, a: i64, b: i64) -> Option<i64>
    ensures value { IfSome result (λ i. prim_of prim (Int a) (Int b) ≡ Int i) }
    ensures narrow { IfSome result (λ i. IsNarrow (Int i)) }
{
    match prim {
        Prim::BinaryPlus => a.checked_add(b),
        Prim::BinaryTimes => a.checked_mul(b),
        Prim::Mod => small_modulo(a, b),
        Prim::Floor => small_quotient(a, b),
        Prim::BinaryLogand => small_and(a, b),
        Prim::BinaryLogior => small_or(a, b),
        Prim::BinaryLogxor => small_xor(a, b),
        _ => None,
    }
}

/// Whether a primitive of two arguments is such a test.
#[inline(always)]
pub fn is_small_test(prim: Prim) -> bool {
    match prim {
        Prim::Less | Prim::Equal => true,
        _ => false,
    }
}

/// Whether a test of two integers holds, where it is found at once.
#[inline(always)]
pub fn small_test(prim: Prim, a: i64, b: i64) -> Option<bool>
    ensures { IfSome result (λ holds. prim_of prim (Int a) (Int b) ≡ boolean_object holds) }
{
    match prim {
        Prim::Less => Some(a < b),
        Prim::Equal => Some(a == b),
        _ => None,
    }
}

/// The value of a primitive of two arguments on two integers, where it is found at once.
#[inline(always)]
fn small_binary(prim: Prim, a: i64, b: i64) -> Option<Value>
    ensures value { IfSome result (λ v. (objects : List Object) → value_object objects v ≡ prim_of prim (Int a) (Int b)) }
    ensures live { IfSome result (λ v. (objects : List Object) → IsLiveValue objects v) }
{
    match small_integer(prim, a, b) {
        Some(i) => Some(Value::Int(i)),
        None => match small_test(prim, a, b) {
            Some(holds) => Some(Value::truth(holds)),
            None => None,
        },
    }
}

/// Whether a primitive of one argument may give such an integer.
#[inline(always)]
pub fn is_opposite(prim: Prim) -> bool {
    match prim {
        Prim::UnaryMinus => true,
        _ => false,
    }
}

/// The integer that a primitive of one argument gives of an integer, where it is one of 64 bits.
#[inline(always)]
pub fn small_opposite(prim: Prim, a: i64) -> Option<i64>
    ensures value { IfSome result (λ i. (y : Object) → prim_of prim (Int a) y ≡ Int i) }
    ensures narrow { IfSome result (λ i. IsNarrow (Int i)) }
{
    match prim {
        Prim::UnaryMinus => a.checked_neg(),
        _ => None,
    }
}

/// The negation of an integer, where it is one of 64 bits.
#[inline(always)]
fn small_minus(a: i64) -> Option<Value>
    ensures value { IfSome result (λ v. (objects : List Object) → value_object objects v ≡ Int (neg_ℤ a)) }
    ensures live { IfSome result (λ v. (objects : List Object) → IsLiveValue objects v) }
{
    match a.checked_neg() {
        Some(i) => Some(Value::Int(i)),
        None => None,
    }
}

/// The value of a primitive of one argument on an integer, where it is found at once.
#[inline(always)]
fn small_unary(prim: Prim, a: i64) -> Option<Value>
    ensures value { IfSome result (λ v. (objects : List Object) (y : Object) → value_object objects v ≡ prim_of prim (Int a) y) }
    ensures live { IfSome result (λ v. (objects : List Object) → IsLiveValue objects v) }
{
    match prim {
        Prim::UnaryMinus => small_minus(a),
        Prim::Integerp => Some(Value::truth(true)),
        Prim::Consp | Prim::Symbolp | Prim::Not => Some(Value::truth(false)),
        _ => None,
    }
}

/// The value of a primitive on an integer of 64 bits, and on two, where it is found at once; nothing for any other values.
#[inline(always)]
pub fn small_value(prim: Prim, x: Value, y: Value) -> Option<Value>
    ensures value { IfSome result (λ v. (objects : List Object) → value_object objects v ≡ prim_of prim (value_object objects x) (value_object objects y)) }
    ensures live { IfSome result (λ v. (objects : List Object) → IsLiveValue objects v) }
{
    match (x, y) {
        (Value::Int(a), Value::Int(b)) => small_binary(prim, a, b),
        (Value::Int(a), _) => small_unary(prim, a),
        _ => None,
    }
}
