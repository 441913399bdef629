//! When conjuncts keep a subject within the objects of a shape.

ghost use Rattle.std.specs.Prelude.{◌≡◌, ◌<◌, ◌-◌, ◌+◌, ◌&&◌, ◌||◌, ◌++◌, map, length, drop, IfOk, true};
ghost use Rattle.std.specs.List.{list_any};
ghost use Rattle.gl_logic.specs.TermOf.{term_of};
ghost use Rattle.shape_spec.specs.ShapeOf.{shape_of};
ghost use Rattle.coverage.specs.Conjuncts.{conjuncts};
ghost use Rattle.coverage.specs.Subjects.{car_of, cdr_of, behind};
ghost use Rattle.coverage.specs.Dealt.{terms_in, parts_in};
ghost use Rattle.coverage.specs.Parts.{AreParts};
ghost use Rattle.coverage.specs.Rows.{is_consp};
ghost use Rattle.coverage.specs.Covered.{is_integer_covered, is_covered, are_covered, has_length, by_cases, is_either_with};
ghost use Rattle.coverage.specs.Heads.{subject_of};
ghost use Rattle.coverage.specs.Spines.{chain, end_of, elements_of, spine_of, is_nil_shape};

use super::conjuncts::add_conjuncts;
use super::parts::parts_of;
use super::rows::{Row, says};
use super::spine::{End, Spine, spine_of};
use super::subject::Subject;
use gl_logic::same_terms::are_same;
use gl_logic::{NoMemory, Term};
use shape_spec::Shape;
use std::alloc::Global;

/// Whether the conjuncts keep the subject within the objects of the shape.
#[cycle(covered)]
pub(crate) fn is_covered(
    alloc: Global,
    shape: &Shape,
    said: &[&Term],
    subject: &Subject,
) -> Result<bool, NoMemory>
    ensures { IfOk result (λ b. b ≡ is_covered (terms_in said.now) (subject_of subject.now) (shape_of shape.now)) }
{
    let spine = spine_of(alloc, shape)?;
    is_spine_covered(alloc, &spine, said, subject)
}

/// The same of a spine, from its end to its first element. The conjuncts are dealt out to the elements once,
/// so that an element looks at those alone that speak of it.
#[cycle(covered)]
fn is_spine_covered(
    alloc: Global,
    spine: &Spine,
    said: &[&Term],
    subject: &Subject,
) -> Result<bool, NoMemory>
    ensures { IfOk result (λ b. b ≡ is_covered (terms_in said.now) (subject_of subject.now) (spine_of spine.now)) }
{
    let mut left = spine.elements.len();
    let behind_all = Subject::Behind(left as u64, &*subject);
    let mut covered = is_end_covered(alloc, &spine.end, said, &behind_all)?;
    let parts = parts_of(alloc, said, subject, left)?;
    while left > 0 {
        left -= 1;
        covered = is_cons_covered(alloc, spine, left, covered, parts.as_slice(), said, subject)?;
    }
    Ok(covered)
}

/// The same of what stands from a place of the spine on, where it is known whether what stands behind that
/// place is covered: part by part, or as a list of a stated length.
#[cycle(covered)]
fn is_cons_covered(
    alloc: Global,
    spine: &Spine,
    place: usize,
    rest_covered: bool,
    parts: &[Vec<&Term>],
    said: &[&Term],
    subject: &Subject,
) -> Result<bool, NoMemory>
    requires place { place < length spine.now.elements.items }
    requires rest { rest_covered ≡ is_covered (terms_in said.now) (cdr_of (behind place (subject_of subject.now))) (chain (drop (place + 1) (elements_of spine.now)) (end_of spine.now.«end»)) }
    requires parts { AreParts (length spine.now.elements.items) (subject_of subject.now) (terms_in said.now) (parts_in parts.now) }
    ensures { IfOk result (λ b. b ≡ is_covered (terms_in said.now) (behind place (subject_of subject.now)) (chain (drop place (elements_of spine.now)) (end_of spine.now.«end»))) }
{
    let here = Subject::Behind(place as u64, &*subject);
    if is_covered_by_parts(
        alloc,
        spine.elements[place],
        rest_covered,
        parts[place].as_slice(),
        said,
        &here,
    )? {
        return Ok(true);
    }
    is_list_covered(alloc, spine, place, parts, said, subject)
}

/// A cons part by part, where it is known whether its second part is covered, with the conjuncts that
/// speak of its first part.
#[cycle(covered)]
fn is_covered_by_parts(
    alloc: Global,
    first: &Shape,
    rest_covered: bool,
    part: &[&Term],
    said: &[&Term],
    here: &Subject,
) -> Result<bool, NoMemory>
    ensures { IfOk result (λ b. b ≡ (list_any (is_consp (subject_of here.now)) (terms_in said.now)
        && (is_covered (terms_in part.now) (car_of (subject_of here.now)) (shape_of first.now) && rest_covered))) }
{
    if !rest_covered || !says(&Row::Consp, said, here) {
        return Ok(false);
    }
    let car = Subject::First(&*here);
    is_covered(alloc, first, part, &car)
}

/// Whether the conjuncts state the length of the list from a place of the spine on, and keep each of its
/// elements within its shape.
#[cycle(covered)]
fn is_list_covered(
    alloc: Global,
    spine: &Spine,
    place: usize,
    parts: &[Vec<&Term>],
    said: &[&Term],
    subject: &Subject,
) -> Result<bool, NoMemory>
    requires place { place < length spine.now.elements.items }
    requires parts { AreParts (length spine.now.elements.items) (subject_of subject.now) (terms_in said.now) (parts_in parts.now) }
    ensures { IfOk result (λ b. b ≡ (has_length (terms_in said.now) (behind place (subject_of subject.now)) (length spine.now.elements.items - place)
        && are_covered (terms_in said.now) (behind place (subject_of subject.now)) 0 (chain (drop place (elements_of spine.now)) (end_of spine.now.«end»)))) }
{
    let here = Subject::Behind(place as u64, &*subject);
    if !ends_a_list(&spine.end) || !has_length(said, &here, spine.elements.len() - place) {
        return Ok(false);
    }
    for i in place..spine.elements.len() {
        let element = Subject::Element((i - place) as u64, &here);
        if !is_covered(alloc, spine.elements[i], parts[i].as_slice(), &element)? {
            return Ok(false);
        }
    }
    Ok(true)
}

/// Whether the shape behind conses is the constant NIL.
fn ends_a_list(end: &End) -> bool
    ensures { result ≡ is_nil_shape (end_of «end».now) }
{
    match end {
        End::Constant(object) => object.is_nil(),
        _ => false,
    }
}

/// `(true-listp s)`, and that `(len s)` is this number.
fn has_length(said: &[&Term], subject: &Subject, count: usize) -> bool
    ensures { result ≡ has_length (terms_in said.now) (subject_of subject.now) count }
{
    let length = Subject::Length(&*subject);
    says(&Row::TrueListp, said, subject) && says(&Row::Length(count as u64), said, &length)
}

/// Whether the conjuncts keep the subject within the objects of the shape behind conses.
#[cycle(covered)]
fn is_end_covered(
    alloc: Global,
    end: &End,
    said: &[&Term],
    subject: &Subject,
) -> Result<bool, NoMemory>
    ensures { IfOk result (λ b. b ≡ is_covered (terms_in said.now) (subject_of subject.now) (end_of «end».now)) }
{
    match end {
        End::Boolean(_) => Ok(says(&Row::BooleanRow, said, subject)),
        End::Constant(object) => Ok(says(&Row::Same(object), said, subject)),
        End::Integer(indices) => Ok(is_integer_covered(indices.len(), said, subject)),
        End::Choice(_, first, second) => {
            if is_either_covered(alloc, first, second, said, subject)? {
                return Ok(true);
            }
            is_covered_by_cases(alloc, first, second, said, subject)
        }
    }
}

/// Integers of so many bits: by one conjunct, or by a kind and two bounds.
fn is_integer_covered(count: usize, said: &[&Term], subject: &Subject) -> bool
    ensures { result ≡ is_integer_covered (terms_in said.now) (subject_of subject.now) count }
{
    if says(&Row::IntegerRow(count), said, subject) {
        return true;
    }
    says(&Row::Number, said, subject)
        && says(&Row::Lower(count), said, subject)
        && says(&Row::Upper(count), said, subject)
}

/// Whether one of two shapes covers.
#[cycle(covered)]
fn is_either_covered(
    alloc: Global,
    first: &Shape,
    second: &Shape,
    said: &[&Term],
    subject: &Subject,
) -> Result<bool, NoMemory>
    ensures { IfOk result (λ b. b ≡ (is_covered (terms_in said.now) (subject_of subject.now) (shape_of first.now)
        || is_covered (terms_in said.now) (subject_of subject.now) (shape_of second.now))) }
{
    if is_covered(alloc, first, said, subject)? {
        return Ok(true);
    }
    is_covered(alloc, second, said, subject)
}

/// Whether some conjunct is `(if p p q)` where one of the two shapes covers with the conjuncts of p, and one
/// with those of q.
#[cycle(covered)]
fn is_covered_by_cases<'a>(
    alloc: Global,
    first: &Shape,
    second: &Shape,
    said: &[&'a Term],
    subject: &Subject,
) -> Result<bool, NoMemory>
    ensures { IfOk result (λ b. b ≡ list_any (by_cases (is_either_with (terms_in said.now) (subject_of subject.now) (shape_of first.now) (shape_of second.now)))
        (terms_in said.now)) }
{
    for term in said {
        if is_case_covered(alloc, first, second, said, subject, *term)? {
            return Ok(true);
        }
    }
    Ok(false)
}

/// The same of one conjunct.
#[cycle(covered)]
fn is_case_covered<'a>(
    alloc: Global,
    first: &Shape,
    second: &Shape,
    said: &[&'a Term],
    subject: &Subject,
    term: &'a Term,
) -> Result<bool, NoMemory>
    ensures { IfOk result (λ b. b ≡ by_cases (is_either_with (terms_in said.now) (subject_of subject.now) (shape_of first.now) (shape_of second.now)) (term_of term.now)) }
{
    match term {
        Term::If(p, again, q) => {
            if !are_same(p, again) || !is_covered_with(alloc, first, second, said, subject, p)? {
                return Ok(false);
            }
            is_covered_with(alloc, first, second, said, subject, q)
        }
        _ => Ok(false),
    }
}

/// Whether one of the two shapes covers with the conjuncts of one more term.
#[cycle(covered)]
fn is_covered_with<'a>(
    alloc: Global,
    first: &Shape,
    second: &Shape,
    said: &[&'a Term],
    subject: &Subject,
    term: &'a Term,
) -> Result<bool, NoMemory>
    ensures { IfOk result (λ b. b ≡ is_either_with (terms_in said.now) (subject_of subject.now) (shape_of first.now) (shape_of second.now) (term_of term.now)) }
{
    let mut more = Vec::from_slice(alloc, said)?;
    add_conjuncts(term, &mut more)?;
    is_either_covered(alloc, first, second, more.as_slice(), subject)
}
