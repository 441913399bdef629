//! Subjects: the terms that a shape's object goes by.

ghost use Rattle.std.specs.Prelude.{◌≡◌};
ghost use Rattle.std.specs.Option.{option_map};
ghost use Rattle.gl_logic.specs.TermOf.{term_of};
ghost use Rattle.coverage.specs.Heads.{subject_of, passes, list_by_car, list_by_nth};
ghost use Rattle.coverage.specs.Subjects.{is_variable};

use super::forms::{Head, LEN, NTH, argument, two_arguments, under};
use super::literal::{Wanted, is_literal};
use gl_logic::{Prim, Term, TextId};

/// A set of terms.
#[derive(Drop)]
pub(crate) enum Subject<'a> {
    /// The variable alone.
    Variable(TextId),
    /// `(cdr .. s)` with so many `cdr`.
    Behind(u64, &'a Subject<'a>),
    /// `(car s)`
    First(&'a Subject<'a>),
    /// `(car (cdr .. s))` with so many `cdr`, and `(nth 'i s)`.
    Element(u64, &'a Subject<'a>),
    /// `(len s)`
    Length(&'a Subject<'a>),
}

/// Whether a term is of the set.
#[cycle(subject)]
pub(crate) fn is_in(subject: &Subject, term: &Term) -> bool
    ensures { result ≡ subject_of subject.now (term_of term.now) }
{
    match subject {
        Subject::Variable(name) => is_variable(term, *name),
        Subject::Behind(count, inner) => is_found(inner, under(term, *count)),
        Subject::First(inner) => is_found(inner, argument(Head::Primitive(Prim::Car), term)),
        Subject::Element(place, inner) => {
            is_found(inner, list_by_car(term, *place)) || is_found(inner, list_by_nth(term, *place))
        }
        Subject::Length(inner) => is_found(inner, argument(Head::Ground(LEN), term)),
    }
}

/// Whether there is a term, and it is of the set.
#[cycle(subject)]
fn is_found(subject: &Subject, found: Option<&Term>) -> bool
    ensures { result ≡ passes (subject_of subject.now) (option_map (λ t. term_of t.now) found.entry) }
{
    match found {
        Some(term) => is_in(subject, term),
        None => false,
    }
}

/// The list whose element at a place the term is, as `(car (cdr .. s))`.
fn list_by_car(term: &Term, place: u64) -> Option<&Term>
    ensures { option_map (λ t. term_of t.now) result ≡ list_by_car place (term_of term.now) }
{
    match argument(Head::Primitive(Prim::Car), term) {
        Some(t) => under(t, place),
        None => None,
    }
}

/// The list whose element at a place the term is, as `(nth 'i s)`.
fn list_by_nth(term: &Term, place: u64) -> Option<&Term>
    ensures { option_map (λ t. term_of t.now) result ≡ list_by_nth place (term_of term.now) }
{
    match two_arguments(Head::Ground(NTH), term) {
        Some((index, list)) => if is_literal(&Wanted::Number(place), index) {
            Some(list)
        } else {
            None
        },
        None => None,
    }
}

fn is_variable(term: &Term, variable: TextId) -> bool
    ensures { result ≡ is_variable variable.number (term_of term.now) }
{
    match term {
        Term::Var(name) => name.number == variable.number,
        _ => false,
    }
}
