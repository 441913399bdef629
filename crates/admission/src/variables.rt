//! Terms that are about variables alone, as tests are.

ghost use Rattle.std.specs.Prelude.{◌≡◌};
ghost use Rattle.gl_logic.specs.TermOf.{term_of, terms_of};
ghost use Rattle.gl_logic.specs.Exp.{Var as variable, Prim as prim_of, Call as call_of};
ghost use Rattle.gl_logic.specs.declared.prim.Primitive.TheVariants.{UnaryMinus as minus};
ghost use Rattle.gl_logic.specs.RecursiveCalls.{exp_eq, is_nil_term};
ghost use Rattle.gl_logic.specs.Steps.{is_variable as variable_told, on_variable, with_zero, equal_zero, zero_term, less_term, gap_term, zp_gap};
ghost use Rattle.admission.specs.Arguments.{same_all, one_term, two_terms};

use super::ground::ZP;
use gl_logic::{Prim, Term, TextId, TreeKind};

/// Whether a term is the constant NIL.
pub(crate) fn is_nil(term: &Term) -> bool
    ensures { result ≡ is_nil_term (term_of term.now) }
{
    match term {
        Term::Const(tree) => tree.is_nil(),
        _ => false,
    }
}

/// Whether a term is the variable.
#[tactic(auto, using(crate::proofs::Arguments::eqb_turned))]
pub(crate) fn is_variable(term: &Term, v: TextId) -> bool
    ensures told { result ≡ variable_told v.number (term_of term.now) }
    ensures same { result ≡ exp_eq (variable v.number) (term_of term.now) }
{
    match term {
        Term::Var(name) => name.number == v.number,
        _ => false,
    }
}

/// Whether a term is the literal 0.
pub(crate) fn is_zero(term: &Term) -> bool
    ensures { result ≡ exp_eq zero_term (term_of term.now) }
{
    match term {
        Term::Const(tree) => match tree.kind() {
            TreeKind::Int(i) => i == 0,
            _ => false,
        },
        _ => false,
    }
}

/// Whether the variable is the one argument.
fn is_alone(terms: &[Term], v: TextId) -> bool
    ensures { result ≡ same_all (one_term (variable v.number)) (terms_of terms.now) }
{
    if terms.len() != 1 {
        return false;
    }
    is_variable(&terms[0], v)
}

/// Whether the arguments are the variable and 0.
fn is_with_zero(terms: &[Term], v: TextId) -> bool
    ensures { result ≡ same_all (two_terms (variable v.number) zero_term) (terms_of terms.now) }
{
    if terms.len() != 2 {
        return false;
    }
    is_variable(&terms[0], v) && is_zero(&terms[1])
}

/// Whether a term is the primitive on the variable.
#[tactic(auto, using(crate::proofs::Arguments::prims_same, crate::proofs::Arguments::prims_differ))]
pub(crate) fn is_prim_on(term: &Term, prim: Prim, v: TextId) -> bool
    ensures { result ≡ exp_eq (on_variable (prim_of prim) v.number) (term_of term.now) }
{
    match term {
        Term::Prim(other, terms) => prim == *other && is_alone(terms.as_slice(), v),
        _ => false,
    }
}

/// Whether a term is the call of a definition on the variable.
pub(crate) fn is_call_on(term: &Term, f: u64, v: TextId) -> bool
    ensures { result ≡ exp_eq (on_variable (call_of f) v.number) (term_of term.now) }
{
    match term {
        Term::Call(other, terms) => f == other.number && is_alone(terms.as_slice(), v),
        _ => false,
    }
}

/// Whether a term is the call of a definition on the variable and 0.
pub(crate) fn is_call_with_zero(term: &Term, f: u64, v: TextId) -> bool
    ensures { result ≡ exp_eq (with_zero (call_of f) v.number) (term_of term.now) }
{
    match term {
        Term::Call(other, terms) => f == other.number && is_with_zero(terms.as_slice(), v),
        _ => false,
    }
}

/// Whether the arguments are 0 and the variable.
fn is_behind_zero(terms: &[Term], v: TextId) -> bool
    ensures { result ≡ same_all (two_terms zero_term (variable v.number)) (terms_of terms.now) }
{
    if terms.len() != 2 {
        return false;
    }
    is_zero(&terms[0]) && is_variable(&terms[1], v)
}

/// Whether the arguments are these two variables.
fn are_variables(terms: &[Term], a: TextId, b: TextId) -> bool
    ensures { result ≡ same_all (two_terms (variable a.number) (variable b.number)) (terms_of terms.now) }
{
    if terms.len() != 2 {
        return false;
    }
    is_variable(&terms[0], a) && is_variable(&terms[1], b)
}

/// Whether the arguments are b and `(- a)`.
fn is_less_variable(terms: &[Term], a: TextId, b: TextId) -> bool
    ensures { result ≡ same_all (two_terms (variable b.number) (on_variable (prim_of minus) a.number)) (terms_of terms.now) }
{
    if terms.len() != 2 {
        return false;
    }
    is_variable(&terms[0], b) && is_prim_on(&terms[1], Prim::UnaryMinus, a)
}

/// Whether a term is `(equal v 0)`.
pub(crate) fn is_equal_zero(term: &Term, v: TextId) -> bool
    ensures { result ≡ exp_eq (equal_zero v.number) (term_of term.now) }
{
    match term {
        Term::Prim(Prim::Equal, terms) => is_with_zero(terms.as_slice(), v),
        _ => false,
    }
}

/// Whether a term is `(< 0 v)`.
pub(crate) fn is_above_zero(term: &Term, v: TextId) -> bool
    ensures { result ≡ exp_eq (less_term zero_term (variable v.number)) (term_of term.now) }
{
    match term {
        Term::Prim(Prim::Less, terms) => is_behind_zero(terms.as_slice(), v),
        _ => false,
    }
}

/// Whether a term is `(< a b)`.
pub(crate) fn is_below(term: &Term, a: TextId, b: TextId) -> bool
    ensures { result ≡ exp_eq (less_term (variable a.number) (variable b.number)) (term_of term.now) }
{
    match term {
        Term::Prim(Prim::Less, terms) => are_variables(terms.as_slice(), a, b),
        _ => false,
    }
}

/// Whether a term is `(- b a)`.
fn is_gap(term: &Term, a: TextId, b: TextId) -> bool
    ensures { result ≡ exp_eq (gap_term a.number b.number) (term_of term.now) }
{
    match term {
        Term::Prim(Prim::BinaryPlus, terms) => is_less_variable(terms.as_slice(), a, b),
        _ => false,
    }
}

/// Whether the one argument is `(- b a)`.
fn is_gap_alone(terms: &[Term], a: TextId, b: TextId) -> bool
    ensures { result ≡ same_all (one_term (gap_term a.number b.number)) (terms_of terms.now) }
{
    if terms.len() != 1 {
        return false;
    }
    is_gap(&terms[0], a, b)
}

/// Whether a term is `(zp (- b a))`.
pub(crate) fn is_zp_gap(term: &Term, a: TextId, b: TextId) -> bool
    ensures { result ≡ exp_eq (zp_gap a.number b.number) (term_of term.now) }
{
    match term {
        Term::Call(f, terms) => f.number == ZP && is_gap_alone(terms.as_slice(), a, b),
        _ => false,
    }
}
