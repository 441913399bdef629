//! The rows of the table: when the callee's measure of the actuals is below the caller's.

ghost use Rattle.std.specs.Prelude.{◌≡◌};
ghost use Rattle.gl_logic.specs.TermOf.{term_of, terms_of};
ghost use Rattle.gl_logic.specs.Steps.{actual_of};
ghost use Rattle.admission.specs.Parts.{known_count_row, known_len_row, known_nat_row, known_gap_row, same_gap, same_variable, of_actual, of_actuals};

use super::actuals::{actual, is_divided, is_proper_part, less_by, more_by};
use super::known::{Known, KnownGap};
use super::variables::is_variable;
use gl_logic::{Names, Term, TextId};

/// `(acl2-count v)`: a part of a cons, or a positive integer less 1 or halved.
pub(crate) fn count_row(
    v: TextId,
    known: Known,
    formals: &Names,
    actuals: &[Term],
    w: TextId,
) -> bool
    ensures { result ≡ of_actual (known_count_row known v.number) (actual_of formals.now (terms_of actuals.now) w.number) }
{
    match actual(formals, actuals, w) {
        Some(term) => {
            (is_proper_part(term, true, v) && known.cons)
                || ((less_by(term, v) == 1 || is_divided(term, v)) && known.is_positive())
        }
        None => false,
    }
}

/// `(len v)`: a rest of a cons.
pub(crate) fn len_row(v: TextId, known: Known, formals: &Names, actuals: &[Term], w: TextId) -> bool
    ensures { result ≡ of_actual (known_len_row known v.number) (actual_of formals.now (terms_of actuals.now) w.number) }
{
    match actual(formals, actuals, w) {
        Some(term) => is_proper_part(term, false, v) && known.cons,
        None => false,
    }
}

/// `(nfix v)`: a positive integer less a literal, or halved.
pub(crate) fn nat_row(v: TextId, known: Known, formals: &Names, actuals: &[Term], w: TextId) -> bool
    ensures { result ≡ of_actual (known_nat_row known v.number) (actual_of formals.now (terms_of actuals.now) w.number) }
{
    match actual(formals, actuals, w) {
        Some(term) => (1 <= less_by(term, v) || is_divided(term, v)) && known.is_positive(),
        None => false,
    }
}

/// The formal itself.
pub(crate) fn stays_row(v: TextId, formals: &Names, actuals: &[Term], w: TextId) -> bool
    ensures { result ≡ of_actual (same_variable v.number) (actual_of formals.now (terms_of actuals.now) w.number) }
{
    match actual(formals, actuals, w) {
        Some(term) => is_variable(term, v),
        None => false,
    }
}

/// `(nfix (- b a))`: a rises by a literal, and b stays.
pub(crate) fn gap_row(
    a: TextId,
    b: TextId,
    known: KnownGap,
    formals: &Names,
    actuals: &[Term],
    x: TextId,
    y: TextId,
) -> bool
    ensures { result ≡ of_actuals (known_gap_row known a.number b.number) (actual_of formals.now (terms_of actuals.now) x.number) (actual_of formals.now (terms_of actuals.now) y.number) }
{
    match (actual(formals, actuals, x), actual(formals, actuals, y)) {
        (Some(first), Some(second)) => {
            1 <= more_by(first, a) && (is_variable(second, b) && known.is_positive())
        }
        _ => false,
    }
}

/// Both formals themselves.
pub(crate) fn gap_stays(
    a: TextId,
    b: TextId,
    formals: &Names,
    actuals: &[Term],
    x: TextId,
    y: TextId,
) -> bool
    ensures { result ≡ of_actuals (same_gap a.number b.number) (actual_of formals.now (terms_of actuals.now) x.number) (actual_of formals.now (terms_of actuals.now) y.number) }
{
    match (actual(formals, actuals, x), actual(formals, actuals, y)) {
        (Some(first), Some(second)) => is_variable(first, a) && is_variable(second, b),
        _ => false,
    }
}
