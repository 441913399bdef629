//! Reading and moving the bits of an integer. Nothing here makes a node.

ghost use Rattle.std.specs.Prelude.{◌≡◌, ◌≤◌, ◌<◌, ◌+◌, ◌-◌, ◌^◌, ◌+ℤ◌, ◌*ℤ◌, ℕ, Bool, true, length, map, max, take, pos};
ghost use Rattle.bfr_store.specs.declared.edge.Edge.{Edge};
ghost use Rattle.gl_logic.specs.Bytes.{is_signed_byte};
ghost use Rattle.gl_logic.specs.TwosComplement.{digit, bit_of, integer_of};
ghost use Rattle.sym_bits.specs.Columns.{onto, shifted, sign_value};
ghost use Rattle.sym_bits.specs.Integers.{AllLive, bits_under, integer_under};

use super::digits::Digits;
use bfr_store::{Bits, Bitvec, Edge};

/// Bit `k` of an integer, from the least significant. Past the end it is the sign.
pub fn bit<B: Bits>(store: &B, a: &Bitvec, k: u32) -> Edge
    requires live { AllLive B.Meaning store.now a.now }
    ensures live { B.live store.now result }
    ensures truth { (x : ℕ → Bool) → B.truth_of store.now result x ≡ bit_of (bits_under B.Meaning store.now a.now x) k }
{
    let last = a.len() - 1;
    if k < last { a.at(k) } else { a.at(last) }
}

/// 0, or -1 where the bit is set: one constant bit, which is the sign.
pub fn constant_bit<B: Bits>(store: &B, bit: bool) -> Bitvec
    ensures live { AllLive B.Meaning store.now result }
    ensures value { (x : ℕ → Bool) → integer_under B.Meaning store.now result x ≡ sign_value bit }
    ensures width { length result ≡ 1 }
{
    Bitvec::of(&[store.constant(bit)])
}

/// An integer whose lowest bits are the digits, and whose other bits are those of `a` without its lowest `from` bits.
pub fn append<B: Bits>(store: &B, digits: Digits, a: &Bitvec, from: u32) -> Bitvec
    requires digits { AllLive B.Meaning store.now digits }
    requires a { AllLive B.Meaning store.now a.now }
    requires room { length digits + length a.now ≤ 260 }
    ensures live { AllLive B.Meaning store.now result }
    ensures value { (x : ℕ → Bool) → integer_under B.Meaning store.now result x ≡ onto (bits_under B.Meaning store.now digits x) (shifted (bits_under B.Meaning store.now a.now x) from) }
    ensures width { length result ≤ length digits + max 1 (length a.now - from) }
{
    let mut digits = digits;
    let last = a.len() - 1;
    for k in from..last {
        digits.push(bit(store, a, k));
    }
    digits.finish(bit(store, a, last))
}

/// The integer without its lowest `count` bits: divided by two so often, and rounded down.
pub fn above<B: Bits>(store: &B, a: &Bitvec, count: u32) -> Bitvec
    requires a { AllLive B.Meaning store.now a.now }
    ensures live { AllLive B.Meaning store.now result }
    ensures value { (x : ℕ → Bool) → integer_under B.Meaning store.now result x ≡ shifted (bits_under B.Meaning store.now a.now x) count }
    ensures width { length result ≤ max 1 (length a.now - count) }
{
    if count < a.len() {
        append(store, Digits::new(), a, count)
    } else {
        Bitvec::of(&[bit(store, a, count)])
    }
}

/// The lowest bits of an integer, at most `width` of them, the last of them as the sign.
pub fn lowest(a: &Bitvec, width: u32) -> Bitvec
    requires { 1 ≤ width }
    ensures { result ≡ take width a.now }
{
    let width = a.len().min(width);
    let mut low = Bitvec::of(&[a.at(0)]);
    for k in 1..width {
        low.push(a.at(k));
    }
    low
}

/// The lowest 128 bits, the last of them as the sign: the same integer where it lies within 128 bits, as where `fits`
/// is true.
pub fn narrow(a: &Bitvec) -> Bitvec
    ensures lowest { result ≡ take 128 a.now }
    ensures same { (truth : Edge → Bool) → is_signed_byte (pos 128) (integer_of (map truth a.now)) ≡ true → integer_of (map truth result) ≡ integer_of (map truth a.now) }
{
    lowest(a, 128)
}

/// An integer with one more bit below it: twice the integer and the bit.
pub fn push_below<B: Bits>(store: &B, low: Edge, a: &Bitvec) -> Bitvec
    requires low { B.live store.now low }
    requires a { AllLive B.Meaning store.now a.now }
    requires room { length a.now < 260 }
    ensures live { AllLive B.Meaning store.now result }
    ensures value { (x : ℕ → Bool) → integer_under B.Meaning store.now result x ≡ digit (B.truth_of store.now low x) +ℤ (integer_under B.Meaning store.now a.now x +ℤ integer_under B.Meaning store.now a.now x) }
    ensures width { length result ≤ 1 + max 1 (length a.now) }
{
    let mut digits = Digits::new();
    digits.push(low);
    append(store, digits, a, 0)
}

/// An integer with `count` bits of 0 below it: times two to the power `count`.
pub fn moved<B: Bits>(store: &B, a: &Bitvec, count: u32) -> Bitvec
    requires a { AllLive B.Meaning store.now a.now }
    requires room { length a.now + count < 260 }
    ensures live { AllLive B.Meaning store.now result }
    ensures value { (x : ℕ → Bool) → integer_under B.Meaning store.now result x ≡ integer_under B.Meaning store.now a.now x *ℤ pos (2 ^ count) }
    ensures width { length result ≤ count + max 1 (length a.now) }
{
    let mut zeros = Digits::new();
    for _ in 0..count {
        zeros.push(store.constant(false));
    }
    append(store, zeros, a, 0)
}

/// -1 where the edge is true, and 0 elsewhere: one bit, which is the sign.
pub fn mask<B: Bits>(store: &B, edge: Edge) -> Bitvec
    requires { B.live store.now edge }
    ensures live { AllLive B.Meaning store.now result }
    ensures value { (x : ℕ → Bool) → integer_under B.Meaning store.now result x ≡ sign_value (B.truth_of store.now edge x) }
    ensures width { length result ≡ 1 }
{
    // Read for its meaning, by which the bit stands for an integer.
    let _store = store;
    Bitvec::of(&[edge])
}

/// 1 where the edge is true, and 0 elsewhere: one bit and a constant sign.
pub fn digit_of<B: Bits>(store: &B, edge: Edge) -> Bitvec
    requires { B.live store.now edge }
    ensures live { AllLive B.Meaning store.now result }
    ensures value { (x : ℕ → Bool) → integer_under B.Meaning store.now result x ≡ digit (B.truth_of store.now edge x) }
    ensures width { length result ≡ 2 }
{
    Bitvec::of(&[edge, store.constant(false)])
}
