//! Sums, products and negation.

ghost use Rattle.std.specs.Prelude.{◌+ℤ◌, ◌*ℤ◌, neg_ℤ};
ghost use Rattle.int_prims.specs.Gives.{Gives};

use crate::wide::Wide;

/// `(binary-+ a b)`
pub(crate) fn plus(a: i128, b: i128) -> Result<i128, Wide>
    ensures { Gives (a +ℤ b) result }
{
    match a.checked_add(b) {
        Some(sum) => Ok(sum),
        None => Err(Wide),
    }
}

/// `(binary-* a b)`
pub(crate) fn times(a: i128, b: i128) -> Result<i128, Wide>
    ensures { Gives (a *ℤ b) result }
{
    match a.checked_mul(b) {
        Some(product) => Ok(product),
        None => Err(Wide),
    }
}

/// `(unary-- a)`
pub(crate) fn negated(a: i128) -> Result<i128, Wide>
    ensures { Gives (neg_ℤ a) result }
{
    match a.checked_neg() {
        Some(negation) => Ok(negation),
        None => Err(Wide),
    }
}
