//! Single bits of an integer in two's complement.

ghost use Rattle.std.specs.Prelude.{◌≡◌, ◌<◌};
ghost use Rattle.gl_logic.specs.Bitwise.{bit_at};
ghost use Rattle.gl_logic.specs.Object.{Int};
ghost use Rattle.gl_logic.specs.PrimValue.{natural_in};

use crate::shifts::right;

// at a place within the width
fn bit_within(a: i128, place: u32) -> bool
    requires { place < 128 }
    ensures { result ≡ bit_at place a }
{
    right(a, place) % 2 != 0
}

/// `(logbitp place a)`: a place below zero counts as zero.
pub(crate) fn bit(place: i128, a: i128) -> bool
    ensures { result ≡ bit_at (natural_in (Int place)) a }
{
    if place <= 0 {
        bit_within(a, 0)
    } else if place > 127 {
        a < 0
    } else {
        bit_within(a, place as u32)
    }
}
