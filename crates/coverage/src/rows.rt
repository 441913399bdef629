//! What one conjunct says of a subject.

ghost use Rattle.std.specs.Prelude.{◌≡◌, map};
ghost use Rattle.std.specs.List.{list_any};
ghost use Rattle.gl_logic.specs.TermOf.{term_of};
ghost use Rattle.gl_logic.specs.declared.prim.Primitive.TheVariants.{Less, Not};
ghost use Rattle.coverage.specs.Forms.{is_int, is_literal, one, two, either_order, is_prim, is_call};
ghost use Rattle.coverage.specs.Rows.{is_number, equals, is_lower, is_upper, is_from, is_to};
ghost use Rattle.coverage.specs.Covered.{is_integer_row, is_boolean_row};
ghost use Rattle.coverage.specs.Heads.{is_headed, subject_of, wanted_of, row_of};

use super::forms::{
    BOOLEANP, EQ, EQL, Head, MEMBER_EQUAL, NATP, POSP, SAME, TRUE_LISTP, argument, two_arguments,
};
use super::literal::{Wanted, is_literal};
use super::subject::{Subject, is_in};
use gl_logic::{Prim, Term, Tree};

/// What a conjunct is to say of a subject.
#[derive(Drop)]
pub(crate) enum Row<'a> {
    /// `(consp s)`
    Consp,
    /// `(true-listp s)`
    TrueListp,
    /// `(integerp s)`, `(natp s)` or `(posp s)`.
    Number,
    /// That it is T or NIL.
    BooleanRow,
    /// That it is an integer of so many bits.
    IntegerRow(usize),
    /// That it is at least the least integer of so many bits.
    Lower(usize),
    /// That it is at most the greatest integer of so many bits.
    Upper(usize),
    /// That it is this object.
    Same(&'a Tree),
    /// That it is this number.
    Length(u64),
}

/// Whether some conjunct says it.
pub(crate) fn says(row: &Row, said: &[&Term], subject: &Subject) -> bool
    ensures { result ≡ list_any (row_of row.now (subject_of subject.now)) (map (λ t. term_of t.now) said.now) }
{
    for term in said {
        if is_row(row, subject, term) {
            return true;
        }
    }
    false
}

fn is_row(row: &Row, subject: &Subject, term: &Term) -> bool
    ensures { result ≡ row_of row.now (subject_of subject.now) (term_of term.now) }
{
    match row {
        Row::Consp => is_one(Head::Primitive(Prim::Consp), subject, term),
        Row::TrueListp => is_one(Head::Ground(TRUE_LISTP), subject, term),
        Row::Number => is_number(subject, term),
        Row::BooleanRow => is_boolean_row(subject, term),
        Row::IntegerRow(count) => is_integer_row(*count, subject, term),
        Row::Lower(count) => is_lower(*count, subject, term),
        Row::Upper(count) => is_upper(*count, subject, term),
        Row::Same(object) => equals(&Wanted::Same(object), subject, term),
        Row::Length(number) => equals(&Wanted::Number(*number), subject, term),
    }
}

/// `(f s)`
fn is_one(head: Head, subject: &Subject, term: &Term) -> bool
    ensures { result ≡ is_headed head (one (subject_of subject.now)) (term_of term.now) }
{
    match argument(head, term) {
        Some(first) => is_in(subject, first),
        None => false,
    }
}

/// `(f s 'x)`
fn is_subject_first(head: Head, subject: &Subject, wanted: &Wanted, term: &Term) -> bool
    ensures { result ≡ is_headed head (two (subject_of subject.now) (is_literal (wanted_of wanted.now))) (term_of term.now) }
{
    match two_arguments(head, term) {
        Some((first, second)) => is_literal(wanted, second) && is_in(subject, first),
        None => false,
    }
}

/// `(f 'x s)`
fn is_literal_first(head: Head, wanted: &Wanted, subject: &Subject, term: &Term) -> bool
    ensures { result ≡ is_headed head (two (is_literal (wanted_of wanted.now)) (subject_of subject.now)) (term_of term.now) }
{
    match two_arguments(head, term) {
        Some((first, second)) => is_literal(wanted, first) && is_in(subject, second),
        None => false,
    }
}

/// `(f s 'x)` or `(f 'x s)`
fn is_either_first(head: Head, subject: &Subject, wanted: &Wanted, term: &Term) -> bool
    ensures { result ≡ is_headed head (either_order (subject_of subject.now) (is_literal (wanted_of wanted.now))) (term_of term.now) }
{
    is_subject_first(head, subject, wanted, term) || is_literal_first(head, wanted, subject, term)
}

fn equals(wanted: &Wanted, subject: &Subject, term: &Term) -> bool
    ensures { result ≡ equals (wanted_of wanted.now) (subject_of subject.now) (term_of term.now) }
{
    is_either_first(Head::Primitive(Prim::Equal), subject, wanted, term)
        || is_either_first(Head::Ground(EQ), subject, wanted, term)
        || is_either_first(Head::Ground(EQL), subject, wanted, term)
        || is_either_first(Head::Ground(SAME), subject, wanted, term)
}

/// `(member-equal s 'l)` with a literal that is wanted.
fn is_member(wanted: &Wanted, subject: &Subject, term: &Term) -> bool
    ensures { result ≡ is_call 31 (two (subject_of subject.now) (is_literal (wanted_of wanted.now))) (term_of term.now) }
{
    is_subject_first(Head::Ground(MEMBER_EQUAL), subject, wanted, term)
}

fn is_number(subject: &Subject, term: &Term) -> bool
    ensures { result ≡ is_number (subject_of subject.now) (term_of term.now) }
{
    is_one(Head::Primitive(Prim::Integerp), subject, term)
        || is_one(Head::Ground(NATP), subject, term)
        || is_one(Head::Ground(POSP), subject, term)
}

fn is_boolean_row(subject: &Subject, term: &Term) -> bool
    ensures { result ≡ is_boolean_row (subject_of subject.now) (term_of term.now) }
{
    is_one(Head::Ground(BOOLEANP), subject, term)
        || equals(&Wanted::Boolean, subject, term)
        || is_member(&Wanted::Booleans, subject, term)
}

fn is_integer_row(count: usize, subject: &Subject, term: &Term) -> bool
    ensures { result ≡ is_integer_row count (subject_of subject.now) (term_of term.now) }
{
    is_literal_first(
        Head::Primitive(Prim::UnsignedByteP),
        &Wanted::Width(0, count),
        subject,
        term,
    ) || is_literal_first(
        Head::Primitive(Prim::SignedByteP),
        &Wanted::Width(1, count),
        subject,
        term,
    ) || equals(&Wanted::Integer(count), subject, term)
        || is_member(&Wanted::Integers(count), subject, term)
}

fn is_lower(count: usize, subject: &Subject, term: &Term) -> bool
    ensures { result ≡ is_lower (is_from count) (subject_of subject.now) (term_of term.now) }
{
    // the lower bounds 0 and 1 are those of every width
    is_one(Head::Ground(NATP), subject, term)
        || is_one(Head::Ground(POSP), subject, term)
        || is_literal_first(
            Head::Primitive(Prim::Less),
            &Wanted::Above(count),
            subject,
            term,
        )
        || is_not_below(count, subject, term)
}

/// `(not (< s 'k))` with k at least the least integer of so many bits.
fn is_not_below(count: usize, subject: &Subject, term: &Term) -> bool
    ensures { result ≡ is_prim Not (one (is_prim Less (two (subject_of subject.now) (is_literal (is_int (is_from count)))))) (term_of term.now) }
{
    match argument(Head::Primitive(Prim::Not), term) {
        Some(inner) => is_subject_first(
            Head::Primitive(Prim::Less),
            subject,
            &Wanted::From(count),
            inner,
        ),
        None => false,
    }
}

fn is_upper(count: usize, subject: &Subject, term: &Term) -> bool
    ensures { result ≡ is_upper (is_to count) (subject_of subject.now) (term_of term.now) }
{
    is_subject_first(
        Head::Primitive(Prim::Less),
        subject,
        &Wanted::Below(count),
        term,
    ) || is_not_above(count, subject, term)
}

/// `(not (< 'k s))` with k at most the greatest integer of so many bits.
fn is_not_above(count: usize, subject: &Subject, term: &Term) -> bool
    ensures { result ≡ is_prim Not (one (is_prim Less (two (is_literal (is_int (is_to count))) (subject_of subject.now)))) (term_of term.now) }
{
    match argument(Head::Primitive(Prim::Not), term) {
        Some(inner) => is_literal_first(
            Head::Primitive(Prim::Less),
            &Wanted::To(count),
            subject,
            inner,
        ),
        None => false,
    }
}
