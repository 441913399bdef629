//! Comparisons.

ghost use Rattle.std.specs.Prelude.{◌≡◌, ◌≤◌, ◌↔◌, ℕ, Bool, true, not, length, pos, int_lt, IsTrue, IfOk};
ghost use Rattle.std.specs.Ordering.{int_eq};
ghost use Rattle.bfr_store.specs.Keeps.{Keeps, Makes};
ghost use Rattle.gl_logic.specs.Bytes.{is_signed_byte};
ghost use Rattle.gl_logic.specs.Width.{Fits};
ghost use Rattle.sym_bits.specs.Integers.{AllLive, integer_under};

use super::bitwise::xor_bits;
use super::lists::{above, bit};
use bfr_store::{Bits, Bitvec, Edge, Full, choose, differ, either};

/// Whether an integer is not 0. `Full` as for `Bits::and`.
pub fn is_nonzero<B: Bits>(store: &mut B, a: &Bitvec) -> Result<Edge, Full>
    requires a { AllLive B.Meaning store.old a.now }
    ensures makes { Makes B.Meaning store.old store.new result (λ x. not (int_eq (integer_under B.Meaning store.old a.now x) (pos 0))) }
{
    let last = a.len() - 1;
    let mut found = store.constant(false);
    for k in 0..last {
        found = either(store, found, bit(store, a, k))?;
    }
    either(store, found, bit(store, a, last))
}

/// Whether two integers are the same. `Full` as for `Bits::and`.
pub fn same<B: Bits>(store: &mut B, a: &Bitvec, b: &Bitvec) -> Result<Edge, Full>
    requires a { AllLive B.Meaning store.old a.now }
    requires b { AllLive B.Meaning store.old b.now }
    ensures makes { Makes B.Meaning store.old store.new result (λ x. int_eq (integer_under B.Meaning store.old a.now x) (integer_under B.Meaning store.old b.now x)) }
{
    let difference = xor_bits(store, a, b)?;
    let is_different = is_nonzero(store, &difference)?;
    Ok(store.not(is_different))
}

/// Whether the first integer is less than the second. `Full` as for `Bits::and`.
pub fn less<B: Bits>(store: &mut B, a: &Bitvec, b: &Bitvec) -> Result<Edge, Full>
    requires a { AllLive B.Meaning store.old a.now }
    requires b { AllLive B.Meaning store.old b.now }
    ensures makes { Makes B.Meaning store.old store.new result (λ x. int_lt (integer_under B.Meaning store.old a.now x) (integer_under B.Meaning store.old b.now x)) }
{
    let last = a.len().max(b.len()) - 1;
    let mut is_less = store.constant(false);
    for k in 0..last {
        let (x, y) = (bit(store, a, k), bit(store, b, k));
        let differs = differ(store, x, y)?;
        is_less = choose(store, differs, y, is_less)?;
    }
    let (x, y) = (bit(store, a, last), bit(store, b, last));
    let differs = differ(store, x, y)?;
    choose(store, differs, x, is_less)
}

/// Whether an integer lies within 128 bits, from -2^127 to 2^127 - 1. `Full` as for `Bits::and`.
pub fn fits<B: Bits>(store: &mut B, a: &Bitvec) -> Result<Edge, Full>
    requires a { AllLive B.Meaning store.old a.now }
    ensures makes { Makes B.Meaning store.old store.new result (λ x. is_signed_byte (pos 128) (integer_under B.Meaning store.old a.now x)) }
    ensures within { IfOk result (λ r. (x : ℕ → Bool) → IsTrue (B.truth_of store.new r x) ↔ Fits (integer_under B.Meaning store.old a.now x)) }
{
    let (high, sign) = (above(store, a, 127), above(store, a, a.len()));
    same(store, &high, &sign)
}
