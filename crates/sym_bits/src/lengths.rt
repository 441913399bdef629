//! The length of an integer.

ghost use Rattle.std.specs.Prelude.{◌≡◌, ◌≤◌, ◌<◌, ℕ, Bool, length, max, pos, IfOk};
ghost use Rattle.gl_logic.specs.Lengths.{integer_length};
ghost use Rattle.sym_bits.specs.Integers.{AllLive, integer_under};
ghost use Rattle.sym_bits.specs.Calls.{MakesInteger};

use super::bitwise::select;
use super::lists::{bit, constant_bit};
use super::sums::sum;
use bfr_store::{Bits, Bitvec, Full, differ};

/// How many bits an integer of at most 259 bits has beside its sign. `Full` as for `Bits::and`.
pub fn int_length<B: Bits>(store: &mut B, a: &Bitvec) -> Result<Bitvec, Full>
    requires a { AllLive B.Meaning store.old a.now }
    requires width { length a.now < 260 }
    ensures makes { MakesInteger B.Meaning store.old store.new result (λ x. pos (integer_length (integer_under B.Meaning store.old a.now x))) }
    ensures width { IfOk result (λ r. length r ≤ max 1 (length a.now)) }
{
    let last = a.len() - 1;
    let sign = bit(store, a, last);
    let zero = constant_bit(store, false);
    let mut place = constant_bit(store, false);
    let mut length = constant_bit(store, false);
    for k in 0..last {
        place = sum(store, &place, &zero, true)?;
        let reaches = differ(store, bit(store, a, k), sign)?;
        length = select(store, reaches, &place, &length)?;
    }
    Ok(length)
}
