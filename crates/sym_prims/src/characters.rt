//! Characters and their codes.

ghost use Rattle.std.specs.Prelude.{◌≡◌, ◌≤◌, ◌+◌, ◌^◌, ℕ, Bool, pos};
ghost use Rattle.gl_logic.specs.Object.{Int, Character};
ghost use Rattle.gl_logic.specs.PrimValue.{character_of, code_in, natural_in};
ghost use Rattle.sym_bits.specs.Columns.{low_number};
ghost use Rattle.sym_bits.specs.Integers.{AllLive, bits_under};
ghost use Rattle.sym_objects.specs.Seen.{IsLive, IsWhole, stands_for};
ghost use Rattle.sym_prims.specs.Applying.{Gives};
ghost use Rattle.sym_prims.specs.Seeing.{IsSimpleIn};

use super::answers::{choose, lift};
use super::fault::SymFault;
use super::kinds::code_seen;
use super::numbers::{integer_bits, integer_of};
use super::store_calls::{beyond_byte, bit_edge, is_always};
use bfr_store::{Bits, Bitvec};
use std::alloc::Global;
use sym_objects::{Sob, Sobs};

/// The code of a character, and 0 of any other object that is no choice.
pub fn char_code<B: Bits>(objs: &mut Sobs<B>, x: Sob) -> Result<Sob, SymFault>
    requires whole { IsWhole B.Meaning objs.old }
    requires live { IsLive objs.old x }
    requires simple { IsSimpleIn objs.old x }
    ensures gives { Gives B.Meaning objs.old objs.new result (λ a. Int (pos (code_in (stands_for B.Meaning objs.old x a)))) }
{
    let node = objs.node_of(x);
    let code = i128::from(code_seen(node));
    lift(integer_of(objs, code))
}

/// The character of code 0.
fn first_character<B: Bits>(objs: &mut Sobs<B>) -> Result<Sob, SymFault>
    requires whole { IsWhole B.Meaning objs.old }
    ensures gives { Gives B.Meaning objs.old objs.new result (λ a. Character 0) }
{
    lift(objs.character(0))
}

/// The character whose code is `base` and the number of the lowest `level` bits; `span` is two to the power `level`. A bit
/// that is constant is no choice.
fn character_by<B: Bits>(
    alloc: Global,
    objs: &mut Sobs<B>,
    bits: &Bitvec,
    level: u32,
    span: u32,
    base: u32,
) -> Result<Sob, SymFault>
    requires whole { IsWhole B.Meaning objs.old }
    requires bits { AllLive B.Meaning objs.old.store bits.now }
    requires span { span ≡ 2 ^ level }
    requires most { base + span ≤ 256 }
    ensures gives { Gives B.Meaning objs.old objs.new result (λ a. Character (base + low_number level (bits_under B.Meaning objs.old.store bits.now a))) }
{
    if level == 0 {
        return lift(objs.character(base as u8));
    }
    let (level, span) = (level - 1, span / 2);
    let test = bit_edge(objs, bits, level);
    if is_always(objs, test, true) {
        return character_by(alloc, objs, bits, level, span, base + span);
    }
    if is_always(objs, test, false) {
        return character_by(alloc, objs, bits, level, span, base);
    }
    let high = character_by(alloc, objs, bits, level, span, base + span)?;
    let low = character_by(alloc, objs, bits, level, span, base)?;
    choose(alloc, objs, test, high, low)
}

/// The character of a code, and that of code 0 of any object that is no choice and no integer from 0 to 255.
pub fn code_char<B: Bits>(alloc: Global, objs: &mut Sobs<B>, x: Sob) -> Result<Sob, SymFault>
    requires whole { IsWhole B.Meaning objs.old }
    requires live { IsLive objs.old x }
    requires simple { IsSimpleIn objs.old x }
    ensures gives { Gives B.Meaning objs.old objs.new result (λ a. character_of (natural_in (stands_for B.Meaning objs.old x a))) }
{
    let bits = integer_bits(objs, x);
    let beyond = beyond_byte(objs, &bits)?;
    let near = character_by(alloc, objs, &bits, 8, 256, 0)?;
    let far = first_character(objs)?;
    choose(alloc, objs, beyond, far, near)
}
