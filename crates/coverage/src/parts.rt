//! Conjuncts dealt out to the elements of a list, so that each element looks at those alone that speak of it.

ghost use Rattle.std.specs.Prelude.{◌≡◌, ◌<◌, map, length, eqb, IfSome, IfOk, OnOk};
ghost use Rattle.std.specs.Option.{option_map};
ghost use Rattle.gl_logic.specs.TermOf.{term_of, terms_of};
ghost use Rattle.coverage.specs.Heads.{subject_of};
ghost use Rattle.coverage.specs.Places.{place_of, by_nth, behind_index, index_below, element_in, is_place, is_element};
ghost use Rattle.coverage.specs.Parts.{has_part, any_part, Adds, AreNone, AreParts};
ghost use Rattle.coverage.specs.Dealt.{terms_in, lists_in};

use super::forms::{Head, NTH, argument, two_arguments};
use super::subject::{Subject, is_in};
use gl_logic::{NoMemory, Prim, Term, TreeKind};
use std::alloc::Global;

/// Behind how many conses of the subject's object a term stands, where these are fewer than so many.
fn place_of(term: &Term, subject: &Subject, limit: usize) -> Option<usize>
    ensures place { result ≡ place_of limit (subject_of subject.now) (term_of term.now) }
    ensures within { IfSome result (λ i. i < limit) }
{
    let mut inner = term;
    let mut left = limit;
    while left > 0 {
        if is_in(subject, inner) {
            return Some(limit - left);
        }
        match argument(Head::Primitive(Prim::Cdr), inner) {
            Some(list) => inner = list,
            None => return None,
        }
        left -= 1;
    }
    None
}

/// Which element of the list, of so many at most, a term goes by: `(car (cdr .. s))` or `(nth 'i (cdr .. s))`.
fn element_in(term: &Term, subject: &Subject, limit: usize) -> Option<usize>
    ensures element { result ≡ element_in limit (subject_of subject.now) (term_of term.now) }
    ensures within { IfSome result (λ i. i < limit) }
{
    match argument(Head::Primitive(Prim::Car), term) {
        Some(list) => place_of(list, subject, limit),
        None => element_by_nth(term, subject, limit),
    }
}

fn element_by_nth(term: &Term, subject: &Subject, limit: usize) -> Option<usize>
    ensures element { result ≡ by_nth limit (subject_of subject.now) (term_of term.now) }
    ensures within { IfSome result (λ i. i < limit) }
{
    match two_arguments(Head::Ground(NTH), term) {
        Some((index, list)) => behind_index(index_below(index, limit), list, subject, limit),
        None => None,
    }
}

fn behind_index(index: Option<usize>, list: &Term, subject: &Subject, limit: usize) -> Option<usize>
    requires { IfSome index (λ i. i < limit) }
    ensures element { result ≡ behind_index limit (subject_of subject.now) index (term_of list.now) }
    ensures within { IfSome result (λ i. i < limit) }
{
    match index {
        Some(index) => match place_of(list, subject, limit - index) {
            Some(place) => Some(place + index),
            None => None,
        },
        None => None,
    }
}

/// A literal natural number below a limit.
fn index_below(term: &Term, limit: usize) -> Option<usize>
    ensures index { result ≡ index_below limit (term_of term.now) }
    ensures within { IfSome result (λ i. i < limit) }
{
    match term {
        Term::Const(object) => match object.kind() {
            TreeKind::Int(i) => if 0 <= i && i < limit as i128 {
                Some(i as usize)
            } else {
                None
            },
            _ => None,
        },
        _ => None,
    }
}

/// Puts a conjunct last in the list of an element, where there is one.
fn put<'a>(
    element: Option<usize>,
    conjunct: &'a Term,
    lists: &mut Vec<Vec<&'a Term>>,
) -> Result<(), NoMemory>
    requires { IfSome element (λ i. i < length lists.old.items) }
    ensures { OnOk result (Adds (λ j. is_place j element) (term_of conjunct.now) (lists_in lists.old) (lists_in lists.new)) }
{
    if let Some(place) = element {
        lists[place].push(conjunct)?;
    }
    Ok(())
}

/// Puts a conjunct last in the lists of the elements whose terms stand in a part of it.
#[cycle(deal)]
fn deal<'a>(
    part: &Term,
    conjunct: &'a Term,
    subject: &Subject,
    count: usize,
    lists: &mut Vec<Vec<&'a Term>>,
) -> Result<(), NoMemory>
    requires { length lists.old.items ≡ count }
    ensures { OnOk result (Adds (λ j. has_part (is_element count (subject_of subject.now) j) (term_of part.now)) (term_of conjunct.now) (lists_in lists.old) (lists_in lists.new)) }
{
    match part {
        Term::If(test, then, otherwise) => {
            deal(test, conjunct, subject, count, lists)?;
            deal(then, conjunct, subject, count, lists)?;
            deal(otherwise, conjunct, subject, count, lists)
        }
        Term::Prim(_, terms) => {
            put(element_in(part, subject, count), conjunct, lists)?;
            deal_all(terms.as_slice(), conjunct, subject, count, lists)
        }
        Term::Call(_, terms) => {
            put(element_in(part, subject, count), conjunct, lists)?;
            deal_all(terms.as_slice(), conjunct, subject, count, lists)
        }
        Term::Var(_) | Term::Const(_) | Term::Let(_, _, _) => Ok(()),
    }
}

#[cycle(deal)]
fn deal_all<'a>(
    parts: &[Term],
    conjunct: &'a Term,
    subject: &Subject,
    count: usize,
    lists: &mut Vec<Vec<&'a Term>>,
) -> Result<(), NoMemory>
    requires { length lists.old.items ≡ count }
    ensures { OnOk result (Adds (λ j. any_part (is_element count (subject_of subject.now) j) (terms_of parts.now)) (term_of conjunct.now) (lists_in lists.old) (lists_in lists.new)) }
{
    for part in parts {
        deal(part, conjunct, subject, count, lists)?;
    }
    Ok(())
}

/// So many lists of none.
fn empty_lists<'a>(alloc: Global, count: usize) -> Result<Vec<Vec<&'a Term>>, NoMemory>
    ensures { IfOk result (λ v. AreNone count (lists_in v)) }
{
    let mut lists = Vec::new(alloc);
    for _ in 0..count {
        lists.push(Vec::new(alloc))?;
    }
    Ok(lists)
}

/// The conjuncts, dealt out to the elements of a list of so many.
pub(crate) fn parts_of<'a>(
    alloc: Global,
    said: &[&'a Term],
    subject: &Subject,
    count: usize,
) -> Result<Vec<Vec<&'a Term>>, NoMemory>
    ensures { IfOk result (λ v. AreParts count (subject_of subject.now) (terms_in said.now) (lists_in v)) }
{
    let mut lists = empty_lists(alloc, count)?;
    for term in said {
        deal(term, term, subject, count, &mut lists)?;
    }
    Ok(lists)
}
