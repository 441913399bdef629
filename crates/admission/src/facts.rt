//! What a test that is true, or false, tells of a variable.

ghost use Rattle.std.specs.Prelude.{◌≡◌};
ghost use Rattle.gl_logic.specs.TermOf.{term_of};
ghost use Rattle.gl_logic.specs.Exp.{Var as variable};
ghost use Rattle.gl_logic.specs.Steps.{is_true, is_false, tells_cons as cons_told, tells_positive as positive_told, tells_nonzero as nonzero_told, tells_integer as integer_told, integerp_of, natp_of, less_term, zero_term, zp_gap};

use super::ground::{ATOM, ENDP, EQL, NATP, POSP, SAME, ZP};
use super::variables::{
    is_above_zero, is_below, is_call_on, is_call_with_zero, is_equal_zero, is_prim_on, is_zp_gap,
};
use gl_logic::{Prim, Term, TextId};

/// That v is a cons: `(consp v)` true, `(atom v)` or `(endp v)` false.
pub(crate) fn tells_cons(test: &Term, truth: bool, v: TextId) -> bool
    ensures { result ≡ cons_told v.number (term_of test.now, truth) }
{
    (is_prim_on(test, Prim::Consp, v) && truth)
        || ((is_call_on(test, ATOM, v) && !truth) || (is_call_on(test, ENDP, v) && !truth))
}

/// That v is a positive integer: `(zp v)` false, `(posp v)` true.
pub(crate) fn tells_positive(test: &Term, truth: bool, v: TextId) -> bool
    ensures { result ≡ positive_told v.number (term_of test.now, truth) }
{
    (is_call_on(test, ZP, v) && !truth) || (is_call_on(test, POSP, v) && truth)
}

/// That v is not 0: `(= v 0)`, `(eql v 0)` or `(equal v 0)` false.
pub(crate) fn tells_nonzero(test: &Term, truth: bool, v: TextId) -> bool
    ensures { result ≡ nonzero_told v.number (term_of test.now, truth) }
{
    (is_call_with_zero(test, SAME, v) && !truth)
        || ((is_call_with_zero(test, EQL, v) && !truth) || (is_equal_zero(test, v) && !truth))
}

/// That v is an integer: `(integerp v)`, `(natp v)` or `(posp v)` true.
pub(crate) fn tells_integer(test: &Term, truth: bool, v: TextId) -> bool
    ensures { result ≡ integer_told v.number (term_of test.now, truth) }
{
    tells_integerp(test, truth, v)
        || (tells_natp(test, truth, v) || (is_call_on(test, POSP, v) && truth))
}

/// `(integerp v)` true.
pub(crate) fn tells_integerp(test: &Term, truth: bool, v: TextId) -> bool
    ensures { result ≡ is_true (integerp_of v.number) (term_of test.now, truth) }
{
    is_prim_on(test, Prim::Integerp, v) && truth
}

/// `(natp v)` true.
pub(crate) fn tells_natp(test: &Term, truth: bool, v: TextId) -> bool
    ensures { result ≡ is_true (natp_of v.number) (term_of test.now, truth) }
{
    is_call_on(test, NATP, v) && truth
}

/// `(< 0 v)` true.
pub(crate) fn tells_above_zero(test: &Term, truth: bool, v: TextId) -> bool
    ensures { result ≡ is_true (less_term zero_term (variable v.number)) (term_of test.now, truth) }
{
    is_above_zero(test, v) && truth
}

/// `(< a b)` true.
pub(crate) fn tells_below(test: &Term, truth: bool, a: TextId, b: TextId) -> bool
    ensures { result ≡ is_true (less_term (variable a.number) (variable b.number)) (term_of test.now, truth) }
{
    is_below(test, a, b) && truth
}

/// `(zp (- b a))` false.
pub(crate) fn tells_gap(test: &Term, truth: bool, a: TextId, b: TextId) -> bool
    ensures { result ≡ is_false (zp_gap a.number b.number) (term_of test.now, truth) }
{
    is_zp_gap(test, a, b) && !truth
}
