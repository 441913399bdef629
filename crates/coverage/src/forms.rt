//! Terms by their form.

ghost use Rattle.std.specs.Prelude.{◌≡◌, eqb, if◌then◌else◌, Some, None};
ghost use Rattle.std.specs.Option.{option_map};
ghost use Rattle.gl_logic.specs.PrimCode.{prim_number};
ghost use Rattle.gl_logic.specs.TermOf.{term_of, terms_of};
ghost use Rattle.coverage.specs.Heads.{arguments_of, only, both, under};

use gl_logic::{Prim, Term};

/// What is called: a primitive, or the ground definition of a number, which it has in every world.
#[derive(Clone, Copy)]
pub(crate) enum Head {
    Primitive(Prim),
    Ground(u64),
}

pub(crate) const EQ: u64 = 3;

pub(crate) const EQL: u64 = 4;

/// `=`
pub(crate) const SAME: u64 = 5;

pub(crate) const NATP: u64 = 9;

pub(crate) const POSP: u64 = 10;

pub(crate) const BOOLEANP: u64 = 21;

pub(crate) const LEN: u64 = 25;

pub(crate) const TRUE_LISTP: u64 = 26;

pub(crate) const NTH: u64 = 28;

pub(crate) const MEMBER_EQUAL: u64 = 31;

/// The arguments of a call of this head; none of any other term.
fn arguments(head: Head, term: &Term) -> Option<&[Term]>
    ensures { option_map (λ ts. terms_of ts.now) result ≡ arguments_of head (term_of term.now) }
{
    match (head, term) {
        (Head::Primitive(p), Term::Prim(q, terms)) => given(is_same(p, *q), terms.as_slice()),
        (Head::Ground(f), Term::Call(g, terms)) => given(g.number == f, terms.as_slice()),
        _ => None,
    }
}

fn given(given: bool, terms: &[Term]) -> Option<&[Term]>
    ensures { option_map (λ ts. ts.now) result ≡ (if given then Some terms.now else None) }
{
    if given { Some(terms) } else { None }
}

fn is_same(p: Prim, q: Prim) -> bool
    ensures { result ≡ eqb (prim_number q) (prim_number p) }
{
    p == q
}

/// The argument of a call of this head that has one; none of any other term.
pub(crate) fn argument(head: Head, term: &Term) -> Option<&Term>
    ensures { option_map (λ t. term_of t.now) result ≡ only (arguments_of head (term_of term.now)) }
{
    match arguments(head, term) {
        Some(terms) => first_alone(terms),
        None => None,
    }
}

fn first_alone(terms: &[Term]) -> Option<&Term>
    ensures { option_map (λ t. term_of t.now) result ≡ only (Some (terms_of terms.now)) }
{
    if terms.len() == 1 {
        Some(&terms[0])
    } else {
        None
    }
}

/// The arguments of a call of this head that has two; none of any other term.
pub(crate) fn two_arguments(head: Head, term: &Term) -> Option<(&Term, &Term)>
    ensures { option_map (λ p. (term_of p.0.now, term_of p.1.now)) result ≡ both (arguments_of head (term_of term.now)) }
{
    match arguments(head, term) {
        Some(terms) => first_two(terms),
        None => None,
    }
}

fn first_two(terms: &[Term]) -> Option<(&Term, &Term)>
    ensures { option_map (λ p. (term_of p.0.now, term_of p.1.now)) result ≡ both (Some (terms_of terms.now)) }
{
    if terms.len() == 2 {
        Some((&terms[0], &terms[1]))
    } else {
        None
    }
}

/// The term under so many `cdr`; none where there are fewer.
pub(crate) fn under(term: &Term, count: u64) -> Option<&Term>
    ensures { option_map (λ t. term_of t.now) result ≡ under count (term_of term.now) }
{
    let mut inner = term;
    let mut left = count;
    while left > 0 {
        match argument(Head::Primitive(Prim::Cdr), inner) {
            Some(first) => inner = first,
            None => return None,
        }
        left -= 1;
    }
    Some(inner)
}
