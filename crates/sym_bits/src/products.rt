//! Products.

ghost use Rattle.std.specs.Prelude.{◌≡◌, ◌≤◌, ℕ, Bool, length, ◌*ℤ◌, IfOk};
ghost use Rattle.sym_bits.specs.Integers.{AllLive, integer_under};
ghost use Rattle.sym_bits.specs.Calls.{MakesInteger};

use super::bitwise::select;
use super::digits::Digits;
use super::lists::{above, append, bit, constant_bit};
use super::sums::{subtract, sum};
use bfr_store::{Bits, Bitvec, Full};

/// The product of two integers of at most 128 bits: a row for each bit of the second, added where the bit is set, and
/// taken away where it is the sign. `Full` as for `Bits::and`.
pub fn times<B: Bits>(store: &mut B, a: &Bitvec, b: &Bitvec) -> Result<Bitvec, Full>
    requires a { AllLive B.Meaning store.old a.now }
    requires b { AllLive B.Meaning store.old b.now }
    requires width_a { length a.now ≤ 128 }
    requires width_b { length b.now ≤ 128 }
    ensures makes { MakesInteger B.Meaning store.old store.new result (λ x. integer_under B.Meaning store.old a.now x *ℤ integer_under B.Meaning store.old b.now x) }
    ensures width { IfOk result (λ r. length r ≤ 256) }
{
    let last = b.len() - 1;
    let zero = constant_bit(store, false);
    let mut digits = Digits::new();
    let mut rest = constant_bit(store, false);
    for k in 0..last {
        let row = select(store, bit(store, b, k), a, &zero)?;
        let total = sum(store, &rest, &row, false)?;
        digits.push(bit(store, &total, 0));
        rest = above(store, &total, 1);
    }
    let row = select(store, bit(store, b, last), a, &zero)?;
    let total = subtract(store, &rest, &row)?;
    Ok(append(store, digits, &total, 0))
}
