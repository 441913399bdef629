//! The bits of one integer or of another, by a test.

ghost use Rattle.std.specs.Prelude.{◌≡◌, ◌≤◌, ℕ, Bool, cond, length, map, Contains, IfOk, OnErr};
ghost use Rattle.std.specs.List.{All};
ghost use Rattle.gl_logic.specs.TwosComplement.{bit_of, integer_of};
ghost use Rattle.sym_objects.specs.Keeps.{Keeps};
ghost use Rattle.sym_objects.specs.Seen.{IsWhole};

use super::edges::choose_edge;
use super::sobs::Sobs;
use bfr_store::{Bits, Bitvec, Edge, Full};

/// The bit at place `k`, which is the sign past the end.
fn bit_at(bits: &Bitvec, k: u32) -> Edge
    ensures truth { (t : Edge → Bool) → t result ≡ bit_of (map t bits.now) k }
    ensures among { Contains bits.now result }
{
    let count = bits.len();
    if k < count {
        bits.at(k)
    } else {
        bits.at(count - 1)
    }
}

/// The bits of `a` where the test is true, and those of `b` elsewhere, each padded by its sign.
pub(crate) fn choose_bits<B: Bits>(
    objs: &mut Sobs<B>,
    test: Edge,
    a: &Bitvec,
    b: &Bitvec,
) -> Result<Bitvec, Full>
    requires whole { IsWhole B.Meaning objs.old }
    requires test { B.live objs.old.store test }
    requires first { All (B.live objs.old.store) a.now }
    requires second { All (B.live objs.old.store) b.now }
    requires first_most { length a.now ≤ 128 }
    requires second_most { length b.now ≤ 128 }
    ensures keeps { Keeps B.Meaning objs.old objs.new }
    ensures nodes { objs.new.nodes ≡ objs.old.nodes }
    ensures edges { IfOk result (λ r. All (B.live objs.new.store) r) }
    ensures most { IfOk result (λ r. length r ≤ 128) }
    ensures value { IfOk result (λ r. (v : ℕ → Bool) → integer_of (map (λ e. B.truth_of objs.new.store e v) r) ≡ cond (B.truth_of objs.old.store test v) (integer_of (map (λ e. B.truth_of objs.old.store e v) a.now)) (integer_of (map (λ e. B.truth_of objs.old.store e v) b.now))) }
    ensures full { OnErr result (B.count_of objs.new.store ≡ B.limit_of objs.new.store) }
{
    let count = a.len().max(b.len());
    let first = choose_edge(objs, test, bit_at(a, 0), bit_at(b, 0))?;
    let mut bits = Bitvec::of(&[first]);
    for k in 1..count {
        let bit = choose_edge(objs, test, bit_at(a, k), bit_at(b, k))?;
        bits.push(bit);
    }
    Ok(bits)
}
