//! A bit at a place that is itself an integer of bit functions.

ghost use Rattle.std.specs.Prelude.{◌≡◌, ◌≤◌, ◌+◌, ◌^◌, ℕ, Bool};
ghost use Rattle.bfr_store.specs.Keeps.{Makes};
ghost use Rattle.gl_logic.specs.Bitwise as logic;
ghost use Rattle.gl_logic.specs.Object.{Int};
ghost use Rattle.gl_logic.specs.PrimValue.{natural_in};
ghost use Rattle.gl_logic.specs.TwosComplement.{bit_of};
ghost use Rattle.sym_bits.specs.Columns.{low_number};
ghost use Rattle.sym_bits.specs.Integers.{AllLive, bits_under, integer_under};

use super::comparisons::is_nonzero;
use super::lists::{above, bit};
use bfr_store::{Bits, Bitvec, Edge, Full, choose};

/// The bit at `base` plus the number of the lowest `level` bits of the index; `span` is two to the power `level`.
fn pick<B: Bits>(
    store: &mut B,
    index: &Bitvec,
    a: &Bitvec,
    level: u32,
    span: u32,
    base: u32,
) -> Result<Edge, Full>
    requires index { AllLive B.Meaning store.old index.now }
    requires a { AllLive B.Meaning store.old a.now }
    requires span { span ≡ 2 ^ level }
    requires most { base + span ≤ 512 }
    ensures makes { Makes B.Meaning store.old store.new result (λ x. bit_of (bits_under B.Meaning store.old a.now x) (base + low_number level (bits_under B.Meaning store.old index.now x))) }
{
    if level == 0 {
        return Ok(bit(store, a, base));
    }
    if base + 1 >= a.len() {
        return Ok(bit(store, a, base));
    }
    let (level, span) = (level - 1, span / 2);
    let high = pick(store, index, a, level, span, base + span)?;
    let low = pick(store, index, a, level, span, base)?;
    let chosen = bit(store, index, level);
    choose(store, chosen, high, low)
}

/// Bit number `index` of an integer, and bit 0 where the index is negative. `Full` as for `Bits::and`.
pub fn bit_at<B: Bits>(store: &mut B, index: &Bitvec, a: &Bitvec) -> Result<Edge, Full>
    requires index { AllLive B.Meaning store.old index.now }
    requires a { AllLive B.Meaning store.old a.now }
    ensures makes { Makes B.Meaning store.old store.new result (λ x. logic.bit_at (natural_in (Int (integer_under B.Meaning store.old index.now x))) (integer_under B.Meaning store.old a.now x)) }
{
    let last = index.len() - 1;
    let level = last.min(9);
    let near = pick(store, index, a, level, 1 << level, 0)?;
    let rest = above(store, index, level);
    let is_far = is_nonzero(store, &rest)?;
    let sign = bit(store, a, a.len() - 1);
    let found = choose(store, is_far, sign, near)?;
    let (is_negative, lowest) = (bit(store, index, last), bit(store, a, 0));
    choose(store, is_negative, lowest, found)
}
