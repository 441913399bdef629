//! The bits of constant integers.

ghost use Rattle.std.specs.Prelude.{◌≡◌, ℕ, Bool, length};
ghost use Rattle.gl_logic.specs.Bitwise.{bit_at};
ghost use Rattle.sym_bits.specs.Integers.{AllLive, integer_under};

use bfr_store::{Bits, Bitvec};
use gl_logic::Prim;
use int_prims::test_int;

/// Bit `k` of an integer.
fn bit_of_integer(i: i128, k: u32) -> bool
    ensures { result ≡ bit_at k i }
{
    test_int(Prim::Logbitp, i128::from(k), i)
}

/// The bits of an integer, all constant.
pub fn bits_of_constant<B: Bits>(store: &B, i: i128) -> Bitvec
    ensures live { AllLive B.Meaning store.now result }
    ensures value { (x : ℕ → Bool) → integer_under B.Meaning store.now result x ≡ i }
    ensures width { length result ≡ 128 }
{
    let mut bits = Bitvec::of(&[store.constant(bit_of_integer(i, 0))]);
    for k in 1..128u32 {
        bits.push(store.constant(bit_of_integer(i, k)));
    }
    bits
}
