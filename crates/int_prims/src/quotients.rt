//! Quotients rounded down and toward zero, and what they leave.

ghost use Rattle.std.specs.Prelude.{◌≡◌, pos, ◌+ℤ◌, ◌≤ℤ◌, ◌<ℤ◌, unsigned_abs};
ghost use Rattle.gl_logic.specs.Quotients.{floor_by, floor_ℤ, mod_ℤ, truncate_ℤ, rem_ℤ};
ghost use Rattle.int_prims.specs.Gives.{Gives};

use crate::wide::Wide;

// by a divisor above zero
fn floor_above(a: i128, d: i128) -> i128
    requires { pos 0 <ℤ d }
    ensures { result ≡ floor_by a (unsigned_abs d) }
{
    if a >= 0 { a / d } else { -1 - (-1 - a) / d }
}

// by a divisor below zero
fn floor_below(a: i128, b: i128) -> Result<i128, Wide>
    requires { b <ℤ pos 0 }
    ensures { Gives (floor_ℤ a b) result }
{
    let d = b.unsigned_abs();
    if a <= 0 {
        match i128::try_from(a.unsigned_abs() / d) {
            Ok(quotient) => Ok(quotient),
            Err(_) => Err(Wide),
        }
    } else {
        Ok(-1 - ((a.unsigned_abs() - 1) / d) as i128)
    }
}

/// `(floor a b)`
pub(crate) fn floor(a: i128, b: i128) -> Result<i128, Wide>
    ensures { Gives (floor_ℤ a b) result }
{
    if b == 0 {
        Ok(0)
    } else if b > 0 {
        Ok(floor_above(a, b))
    } else {
        floor_below(a, b)
    }
}

// left + 1 + b
fn one_more(left: i128, b: i128) -> i128
    requires left { pos 0 ≤ℤ left }
    requires below { b <ℤ pos 0 }
    ensures { result ≡ (left +ℤ pos 1) +ℤ b }
{
    left + (b + 1)
}

// of a dividend above zero by a divisor below zero
fn modulo_below(a: i128, b: i128) -> i128
    requires above { pos 0 <ℤ a }
    requires below { b <ℤ pos 0 }
    ensures { result ≡ mod_ℤ a b }
{
    let left = (a.unsigned_abs() - 1) % b.unsigned_abs();
    one_more(left as i128, b)
}

/// `(mod a b)`
pub(crate) fn modulo(a: i128, b: i128) -> i128
    ensures { result ≡ mod_ℤ a b }
{
    if b == 0 {
        a
    } else if b > 0 {
        a.rem_euclid(b)
    } else if a > 0 {
        modulo_below(a, b)
    } else {
        a.wrapping_rem(b)
    }
}

/// `(truncate a b)`
pub(crate) fn truncate(a: i128, b: i128) -> Result<i128, Wide>
    ensures { Gives (truncate_ℤ a b) result }
{
    if b == 0 {
        return Ok(0);
    }
    match a.checked_div(b) {
        Some(quotient) => Ok(quotient),
        None => Err(Wide),
    }
}

/// `(rem a b)`
pub(crate) fn remainder(a: i128, b: i128) -> i128
    ensures { result ≡ rem_ℤ a b }
{
    if b == 0 { a } else { a.wrapping_rem(b) }
}
