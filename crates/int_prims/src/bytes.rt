//! Tests of one bit and of a width.

ghost use Rattle.std.specs.Prelude.{◌≡◌};
ghost use Rattle.gl_logic.specs.Bytes.{is_unsigned_byte, is_signed_byte};

use crate::shifts::power;

/// `(unsigned-byte-p width a)`
pub(crate) fn is_unsigned(width: i128, a: i128) -> bool
    ensures { result ≡ is_unsigned_byte width a }
{
    if width < 0 || a < 0 {
        false
    } else if width >= 127 {
        true
    } else {
        a < power(width as u32)
    }
}

/// `(signed-byte-p width a)`
pub(crate) fn is_signed(width: i128, a: i128) -> bool
    ensures { result ≡ is_signed_byte width a }
{
    if width <= 0 {
        false
    } else if width >= 128 {
        true
    } else {
        let bound = power((width - 1) as u32);
        -bound <= a && a < bound
    }
}
