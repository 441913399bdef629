//! Integers of 128 bits and the constant bits that stand for them.

ghost use Rattle.std.specs.Prelude.{◌≡◌, ◌≤◌, ℕ, Bool, true, false, [], ◌∷◌, ◌^◌, length, map, pos, neg_ℤ, ◌+ℤ◌, ◌<ℤ◌, ◌≤ℤ◌};
ghost use Rattle.std.specs.List.{All, list_all};
ghost use Rattle.gl_logic.specs.TwosComplement.{digit, integer_of};
ghost use Rattle.sym_objects.specs.Seen.{is_constant_edge};

use super::sobs::Sobs;
use bfr_store::{Bits, Bitvec, Edge};

/// The lowest bit of an integer, and what the others are: half the integer, rounded down.
fn split(i: i128) -> (bool, i128)
    ensures { digit result.0 +ℤ (result.1 +ℤ result.1) ≡ i }
{
    if i >= 0 {
        (i % 2 == 1, i / 2)
    } else {
        let n = -1 - i;
        (n % 2 == 0, -1 - n / 2)
    }
}

/// Whether an integer is below 0.
fn is_negative(i: i128) -> bool
    ensures negative { result ≡ true → i <ℤ pos 0 }
    ensures other { result ≡ false → pos 0 ≤ℤ i }
{
    i < 0
}

/// The 128 bits of an integer, each a constant edge.
pub(crate) fn bits_of_integer<B: Bits>(objs: &Sobs<B>, i: i128) -> Bitvec
    ensures most { length result ≤ 128 }
    ensures edges { All (B.live objs.now.store) result }
    ensures constant { list_all (is_constant_edge B.Meaning) result ≡ true }
    ensures value { (a : ℕ → Bool) → integer_of (map (λ e. B.truth_of objs.now.store e a) result) ≡ i }
{
    let (low, mut rest) = split(i);
    let mut bits = Bitvec::of(&[objs.constant_edge(low)]);
    for _ in 1..127u32 {
        let (bit, more) = split(rest);
        bits.push(objs.constant_edge(bit));
        rest = more;
    }
    bits.push(objs.constant_edge(is_negative(rest)));
    bits
}

/// The integer of a sign alone.
fn integer_of_sign(sign: bool) -> i128
    ensures { result ≡ integer_of (sign ∷ []) }
{
    if sign { -1 } else { 0 }
}

/// An integer with a bit more, the lowest.
fn doubled(value: i128, bit: bool) -> i128
    requires least { neg_ℤ (pos (2 ^ 127)) ≤ℤ (digit bit +ℤ (value +ℤ value)) }
    requires most { (digit bit +ℤ (value +ℤ value)) <ℤ pos (2 ^ 127) }
    ensures { result ≡ digit bit +ℤ (value +ℤ value) }
{
    if bit {
        value + value + 1
    } else {
        value + value
    }
}

/// The integer of at most 128 bits that are constant edges.
pub(crate) fn integer_of_bits<B: Bits>(objs: &Sobs<B>, bits: &Bitvec) -> i128
    requires most { length bits.now ≤ 128 }
    requires constant { list_all (is_constant_edge B.Meaning) bits.now ≡ true }
    ensures { (a : ℕ → Bool) → integer_of (map (λ e. B.truth_of objs.now.store e a) bits.now) ≡ result }
{
    let last = bits.len() - 1;
    let mut value = integer_of_sign(is_true(objs, bits.at(last)));
    for k in (0..last).rev() {
        value = doubled(value, is_true(objs, bits.at(k)));
    }
    value
}

/// Which of the two constant edges this is.
pub(crate) fn is_true<B: Bits>(objs: &Sobs<B>, e: Edge) -> bool
    requires { is_constant_edge B.Meaning e ≡ true }
    ensures { (a : ℕ → Bool) → B.truth_of objs.now.store e a ≡ result }
{
    let high = objs.constant_edge(true);
    let low = objs.constant_edge(false);
    e == high || e != low
}
