//! The arithmetic shift, and powers of two.

ghost use Rattle.std.specs.Prelude.{◌≡◌, ◌<◌, ◌≤◌, ◌^◌, pos, ◌≤ℤ◌, ◌<ℤ◌, unsigned_abs};
ghost use Rattle.gl_logic.specs.Quotients.{floor_by};
ghost use Rattle.gl_logic.specs.Shifts.{ash_ℤ};
ghost use Rattle.int_prims.specs.Gives.{Gives};

use crate::wide::Wide;

/// 2 ^ places
pub(crate) fn power(places: u32) -> i128
    requires { places < 127 }
    ensures { result ≡ pos (2 ^ places) }
{
    1i128 << places
}

/// a / 2 ^ places, rounded down
pub(crate) fn right(a: i128, places: u32) -> i128
    requires { places < 128 }
    ensures { result ≡ floor_by a (2 ^ places) }
{
    a >> places
}

// to the left
fn left(a: i128, count: i128) -> Result<i128, Wide>
    requires { pos 0 ≤ℤ count }
    ensures { Gives (ash_ℤ a count) result }
{
    if a == 0 {
        Ok(0)
    } else if count < 127 {
        match a.checked_mul(power(count as u32)) {
            Some(product) => Ok(product),
            None => Err(Wide),
        }
    } else if count > 127 {
        Err(Wide)
    } else if a == -1 {
        Ok(i128::MIN)
    } else {
        Err(Wide)
    }
}

/// `(ash a count)`
pub(crate) fn shift(a: i128, count: i128) -> Result<i128, Wide>
    ensures { Gives (ash_ℤ a count) result }
{
    if count >= 0 {
        left(a, count)
    } else if count < -127 {
        Ok(right(a, 127))
    } else {
        Ok(right(a, (-count) as u32))
    }
}
