//! The tests of two integers on lists of bits.

ghost use Rattle.std.specs.Prelude.{◌≡◌, ◌<◌, ◌≤◌, ℕ, Bool, length, IsTrue, IfOk};
ghost use Rattle.bfr_store.specs.Keeps.{Makes};
ghost use Rattle.gl_logic.specs.Bytes.{is_unsigned_byte, is_signed_byte};
ghost use Rattle.int_prims.specs.Integers.{is_test};
ghost use Rattle.sym_bits.specs.Integers.{AllLive, integer_under};
ghost use Rattle.sym_prims.specs.Results.{test_result};

use bfr_store::{Bits, Bitvec, Edge, Full, both};
use gl_logic::Prim;
use sym_bits::{bit, bit_at, int_length, less};

/// Whether an integer lies within so many bits, without a sign: it is not negative, and the width is not less than its
/// length.
fn unsigned_byte<B: Bits>(store: &mut B, width: &Bitvec, a: &Bitvec) -> Result<Edge, Full>
    requires width { AllLive B.Meaning store.old width.now }
    requires a { AllLive B.Meaning store.old a.now }
    requires room { length a.now < 260 }
    ensures makes { Makes B.Meaning store.old store.new result (λ x. is_unsigned_byte (integer_under B.Meaning store.old width.now x) (integer_under B.Meaning store.old a.now x)) }
{
    let length = int_length(store, a)?;
    let is_short = less(store, width, &length)?;
    let is_negative = bit(store, a, a.len() - 1);
    both(store, store.not(is_short), store.not(is_negative))
}

/// Whether an integer lies within so many bits, with a sign: its length is less than the width.
fn signed_byte<B: Bits>(store: &mut B, width: &Bitvec, a: &Bitvec) -> Result<Edge, Full>
    requires width { AllLive B.Meaning store.old width.now }
    requires a { AllLive B.Meaning store.old a.now }
    requires room { length a.now < 260 }
    ensures makes { Makes B.Meaning store.old store.new result (λ x. is_signed_byte (integer_under B.Meaning store.old width.now x) (integer_under B.Meaning store.old a.now x)) }
{
    let length = int_length(store, a)?;
    less(store, &length, width)
}

/// Whether a test of two integers holds. `Full` as for `Bits::and`.
#[tactic(auto, using(crate::proofs::Integers::not_nil))]
pub fn test<B: Bits>(store: &mut B, prim: Prim, a: &Bitvec, b: &Bitvec) -> Result<Edge, Full>
    requires prim { IsTrue (is_test prim) }
    requires a { AllLive B.Meaning store.old a.now }
    requires b { AllLive B.Meaning store.old b.now }
    requires room { length b.now < 260 }
    ensures makes { Makes B.Meaning store.old store.new result (λ x. test_result prim (integer_under B.Meaning store.old a.now x) (integer_under B.Meaning store.old b.now x)) }
{
    match prim {
        Prim::Less => less(store, a, b),
        Prim::Logbitp => bit_at(store, a, b),
        Prim::UnsignedByteP => unsigned_byte(store, a, b),
        Prim::SignedByteP => signed_byte(store, a, b),
        _ => unreachable!(),
    }
}
