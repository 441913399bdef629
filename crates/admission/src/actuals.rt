//! What the actuals of a call are, to a variable.

ghost use Rattle.std.specs.Prelude.{◌≡◌};
ghost use Rattle.std.specs.Option.{option_map};
ghost use Rattle.gl_logic.specs.TermOf.{term_of, terms_of};
ghost use Rattle.gl_logic.specs.Steps.{is_part as part_told, is_part_first, is_proper_part as proper_told, minus_first, minus_literal as minus_told, plus_literal as plus_told, less_args, less_by as less_told, more_args, more_by as more_told, is_divisor as divisor_told, divides_args, is_divided as divided_told, is_prim, actual_of};
ghost use Rattle.gl_logic.specs.declared.prim.Primitive.TheVariants.{Floor as floor, Ash as ash};

use super::variables::is_variable;
use gl_logic::{Names, Prim, Term, TextId, TreeKind};

/// Whether a term is `cdr` on the variable, none or more times, or `car` where `cars` says so.
#[cycle(part)]
fn is_part(term: &Term, cars: bool, v: TextId) -> bool
    ensures { result ≡ part_told cars v.number (term_of term.now) }
{
    match term {
        Term::Var(name) => name.number == v.number,
        Term::Prim(Prim::Cdr, terms) => is_part_alone(terms.as_slice(), cars, v),
        Term::Prim(Prim::Car, terms) => cars && is_part_alone(terms.as_slice(), cars, v),
        _ => false,
    }
}

#[cycle(part)]
fn is_part_alone(terms: &[Term], cars: bool, v: TextId) -> bool
    ensures { result ≡ is_part_first cars v.number (terms_of terms.now) }
{
    if terms.len() != 1 {
        return false;
    }
    is_part(&terms[0], cars, v)
}

/// The same, one or more times.
pub(crate) fn is_proper_part(term: &Term, cars: bool, v: TextId) -> bool
    ensures { result ≡ proper_told cars v.number (term_of term.now) }
{
    !is_variable(term, v) && is_part(term, cars, v)
}

/// k of the literal -k or of `(- k)`, and 0 elsewhere.
fn minus_literal(term: &Term) -> u128
    ensures { result ≡ minus_told (term_of term.now) }
{
    match term {
        Term::Const(tree) => match tree.kind() {
            TreeKind::Int(i) => { if i < 0 { i.unsigned_abs() } else { 0 } }
            _ => 0,
        },
        Term::Prim(Prim::UnaryMinus, terms) => one_literal(terms.as_slice()),
        _ => 0,
    }
}

/// The literal that is the one argument, where it is above 0, and 0 elsewhere.
fn one_literal(terms: &[Term]) -> u128
    ensures { result ≡ minus_first (terms_of terms.now) }
{
    if terms.len() != 1 {
        return 0;
    }
    plus_literal(&terms[0])
}

/// A literal above 0, and 0 elsewhere.
fn plus_literal(term: &Term) -> u128
    ensures { result ≡ plus_told (term_of term.now) }
{
    match term {
        Term::Const(tree) => match tree.kind() {
            TreeKind::Int(i) => { if i < 0 { 0 } else { i.unsigned_abs() } }
            _ => 0,
        },
        _ => 0,
    }
}

/// k of `v - k`, and 0 elsewhere.
pub(crate) fn less_by(term: &Term, v: TextId) -> u128
    ensures { result ≡ less_told v.number (term_of term.now) }
{
    match term {
        Term::Prim(Prim::BinaryPlus, terms) => less_of_two(terms.as_slice(), v),
        _ => 0,
    }
}

fn less_of_two(terms: &[Term], v: TextId) -> u128
    ensures { result ≡ less_args v.number (terms_of terms.now) }
{
    if terms.len() != 2 {
        return 0;
    }
    if is_variable(&terms[0], v) {
        minus_literal(&terms[1])
    } else if is_variable(&terms[1], v) {
        minus_literal(&terms[0])
    } else {
        0
    }
}

/// k of `v + k`, and 0 elsewhere.
pub(crate) fn more_by(term: &Term, v: TextId) -> u128
    ensures { result ≡ more_told v.number (term_of term.now) }
{
    match term {
        Term::Prim(Prim::BinaryPlus, terms) => more_of_two(terms.as_slice(), v),
        _ => 0,
    }
}

fn more_of_two(terms: &[Term], v: TextId) -> u128
    ensures { result ≡ more_args v.number (terms_of terms.now) }
{
    if terms.len() != 2 {
        return 0;
    }
    if is_variable(&terms[0], v) {
        plus_literal(&terms[1])
    } else if is_variable(&terms[1], v) {
        plus_literal(&terms[0])
    } else {
        0
    }
}

/// Whether a term halves the variable at least: `(floor v k)` with 2 <= k, or `(ash v -k)` with 1 <= k.
pub(crate) fn is_divided(term: &Term, v: TextId) -> bool
    ensures { result ≡ divided_told v.number (term_of term.now) }
{
    match term {
        Term::Prim(prim, terms) => divides_two(*prim, terms.as_slice(), v),
        _ => false,
    }
}

fn divides_two(prim: Prim, terms: &[Term], v: TextId) -> bool
    ensures { result ≡ divides_args v.number prim (terms_of terms.now) }
{
    if terms.len() != 2 {
        return false;
    }
    is_variable(&terms[0], v) && is_divisor(prim, &terms[1])
}

fn is_divisor(prim: Prim, term: &Term) -> bool
    ensures { result ≡ divisor_told prim (term_of term.now) }
{
    match term {
        Term::Const(tree) => match tree.kind() {
            TreeKind::Int(i) => {
                if i < 0 {
                    is_ash(prim)
                } else {
                    is_floor(prim) && 2 <= i
                }
            }
            _ => false,
        },
        _ => false,
    }
}

fn is_floor(prim: Prim) -> bool
    ensures { result ≡ is_prim floor prim }
{
    match prim {
        Prim::Floor => true,
        _ => false,
    }
}

fn is_ash(prim: Prim) -> bool
    ensures { result ≡ is_prim ash prim }
{
    match prim {
        Prim::Ash => true,
        _ => false,
    }
}

/// The actual of a formal.
pub(crate) fn actual<'a>(formals: &Names, actuals: &'a [Term], w: TextId) -> Option<&'a Term>
    ensures { option_map (λ t. term_of t.now) result ≡ actual_of formals.now (terms_of actuals.now) w.number }
{
    for i in 0..formals.len() {
        if i as usize >= actuals.len() {
            return None;
        }
        if formals.at(i).number == w.number {
            return Some(&actuals[i as usize]);
        }
    }
    None
}
