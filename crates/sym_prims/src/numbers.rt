//! The integers that arguments count as.

ghost use Rattle.std.specs.Prelude.{◌≡◌, ◌≤◌, ℕ, Bool, true, length, pos, OnErr};
ghost use Rattle.gl_logic.specs.Object.{Int};
ghost use Rattle.int_prims.specs.Integers.{is_operation};
ghost use Rattle.gl_logic.specs.PrimValue.{integer_in};
ghost use Rattle.sym_bits.specs.Integers.{AllLive, integer_under};
ghost use Rattle.sym_objects.specs.Makes.{Makes};
ghost use Rattle.sym_objects.specs.Seen.{IsFull, IsLive, IsWhole, stands_for};
ghost use Rattle.sym_prims.specs.Applying.{Operates};
ghost use Rattle.sym_prims.specs.Results.{integer_result};
ghost use Rattle.sym_prims.specs.Seeing.{IsSimpleIn};

use super::constants::bits_of_constant;
use super::kinds::is_integer_node;
use super::operations::operate;
use bfr_store::{Bits, Bitvec, Full};
use gl_logic::Prim;
use sym_bits::{Shifted, constant_bit};
use sym_objects::{Sob, Sobs};

/// The bits of 0.
fn zero_bits<B: Bits>(objs: &mut Sobs<B>) -> Bitvec
    ensures same { objs.new ≡ objs.old }
    ensures live { AllLive B.Meaning objs.old.store result }
    ensures value { (a : ℕ → Bool) → integer_under B.Meaning objs.old.store result a ≡ pos 0 }
    ensures width { length result ≤ 128 }
{
    constant_bit(objs.store(), false)
}

/// The bits of the integer that an object counts as: 0 where it is none.
pub fn integer_bits<B: Bits>(objs: &mut Sobs<B>, x: Sob) -> Bitvec
    requires whole { IsWhole B.Meaning objs.old }
    requires x { IsLive objs.old x }
    requires simple { IsSimpleIn objs.old x }
    ensures same { objs.new ≡ objs.old }
    ensures live { AllLive B.Meaning objs.old.store result }
    ensures value { (a : ℕ → Bool) → integer_under B.Meaning objs.old.store result a ≡ integer_in (stands_for B.Meaning objs.old x a) }
    ensures width { length result ≤ 128 }
{
    let node = objs.node_of(x);
    if is_integer_node(node) {
        objs.bits_of(x)
    } else {
        zero_bits(objs)
    }
}

/// The symbolic object of an integer.
pub fn integer_of<B: Bits>(objs: &mut Sobs<B>, i: i128) -> Result<Sob, Full>
    requires whole { IsWhole B.Meaning objs.old }
    ensures makes { Makes B.Meaning objs.old objs.new result (λ a. Int i) }
    ensures full { OnErr result (IsFull B.Meaning objs.new) }
{
    let bits = constant_bits(objs, i);
    objs.integer(&bits)
}

/// The bits of an integer, all constant.
fn constant_bits<B: Bits>(objs: &mut Sobs<B>, i: i128) -> Bitvec
    ensures same { objs.new ≡ objs.old }
    ensures live { AllLive B.Meaning objs.old.store result }
    ensures value { (a : ℕ → Bool) → integer_under B.Meaning objs.old.store result a ≡ i }
    ensures width { length result ≡ 128 }
{
    bits_of_constant(objs.store(), i)
}

/// The result of an operation within 128 bits, and where it leaves them.
pub fn operated<B: Bits>(
    objs: &mut Sobs<B>,
    prim: Prim,
    first: &Bitvec,
    second: &Bitvec,
) -> Result<Shifted, Full>
    requires prim { is_operation prim ≡ true }
    requires whole { IsWhole B.Meaning objs.old }
    requires first { AllLive B.Meaning objs.old.store first.now }
    requires second { AllLive B.Meaning objs.old.store second.now }
    requires width_first { length first.now ≤ 128 }
    requires width_second { length second.now ≤ 128 }
    ensures operates { Operates B.Meaning objs.old objs.new result (λ a. integer_result prim (integer_under B.Meaning objs.old.store first.now a) (integer_under B.Meaning objs.old.store second.now a)) }
{
    operate(objs.store(), prim, first, second)
}
