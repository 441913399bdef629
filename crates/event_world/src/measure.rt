//! The measures that a definition may state.

ghost use Rattle.std.specs.Prelude.{◌≡◌, pos};
ghost use Rattle.std.specs.Option.{option_map};
ghost use Rattle.gl_logic.specs.Object.{Symbol};
ghost use Rattle.gl_logic.specs.ObjectEq.{object_eq};
ghost use Rattle.gl_logic.specs.Definition.{natural_measure};
ghost use Rattle.event_world.specs.MeasureMeant.{is_formal as formal_is, of_formal as formal_meant, gap_of as gap_meant, of_gap as gap_form_meant, of_part as part_meant, natural_meant, one_more_of, is_one as one_is, ordinal_of, measure_meant};
ghost use Rattle.event_world.specs.PartsOf.{three_in, four_in};

use super::parts::Parts;
use gl_logic::wording::spells;
use gl_logic::{Measure, Natural, TextId, Texts, Tree, TreeKind};

/// Whether an object is this symbol.
fn is_symbol(name: TextId, object: &Tree) -> bool
    ensures { result ≡ object_eq (Symbol name.number) object.now }
{
    match object.kind() {
        TreeKind::Symbol(other) => name.number == other.number,
        _ => false,
    }
}

/// Whether a symbol is one of the formals.
fn is_formal(formals: &Parts<'_>, name: TextId) -> bool
    ensures { result ≡ formal_is formals.now (Symbol name.number) }
{
    let mut left = formals.again();
    while let Some((formal, rest)) = left.first() {
        if is_symbol(name, formal) {
            return true;
        }
        left = rest;
    }
    false
}

/// `(acl2-count v)`, `(len v)` or `(nfix v)`, by its head and its formal.
fn of_formal(texts: &Texts, head: &Tree, name: TextId) -> Option<Natural>
    ensures { result ≡ formal_meant texts.now head.now name.number }
{
    if spells(texts, b"ACL2-COUNT", head) {
        Some(Natural::Count(name))
    } else if spells(texts, b"LEN", head) {
        Some(Natural::Len(name))
    } else if spells(texts, b"NFIX", head) {
        Some(Natural::Nat(name))
    } else {
        None
    }
}

/// The gap of two different formals.
fn gap_of(formals: &Parts<'_>, second: &Tree, first: &Tree) -> Option<Natural>
    ensures { result ≡ gap_meant formals.now second.now first.now }
{
    let (TreeKind::Symbol(b), TreeKind::Symbol(a)) = (second.kind(), first.kind()) else {
        return None;
    };
    if is_formal(formals, a) && is_formal(formals, b) && a.number != b.number {
        Some(Natural::Gap(a, b))
    } else {
        None
    }
}

/// `(nfix (- b a))`, by its head and what stands behind it.
fn of_gap(texts: &Texts, formals: &Parts<'_>, head: &Tree, part: &Tree) -> Option<Natural>
    ensures { result ≡ gap_form_meant texts.now formals.now head.now (three_in part.now) }
{
    let (minus, b, a) = Parts::of(part)?.three()?;
    if spells(texts, b"NFIX", head) && spells(texts, b"-", minus) {
        gap_of(formals, b, a)
    } else {
        None
    }
}

fn of_part(texts: &Texts, formals: &Parts<'_>, head: &Tree, part: &Tree) -> Option<Natural>
    ensures { result ≡ part_meant texts.now formals.now head.now part.now }
{
    match part.kind() {
        TreeKind::Symbol(name) => {
            if is_formal(formals, name) {
                of_formal(texts, head, name)
            } else {
                None
            }
        }
        _ => of_gap(texts, formals, head, part),
    }
}

/// A natural measure over these formals.
fn natural(texts: &Texts, formals: &Parts<'_>, form: &Tree) -> Option<Natural>
    ensures { result ≡ natural_meant texts.now formals.now form.now }
{
    let (head, part) = Parts::of(form)?.two()?;
    of_part(texts, formals, head, part)
}

/// Whether an object is the integer 1.
fn is_one(object: &Tree) -> bool
    ensures { result ≡ one_is object.now }
{
    match object.kind() {
        TreeKind::Int(i) => i == 1,
        _ => false,
    }
}

/// `(+ 1 m)` of a natural measure.
fn one_more(texts: &Texts, formals: &Parts<'_>, form: &Tree) -> Option<Natural>
    ensures { result ≡ one_more_of texts.now formals.now (three_in form.now) }
{
    let (plus, one, part) = Parts::of(form)?.three()?;
    if spells(texts, b"+", plus) && is_one(one) {
        natural(texts, formals, part)
    } else {
        None
    }
}

/// `(make-ord 1 (+ 1 m1) m2)` of natural measures.
fn ordinal(texts: &Texts, formals: &Parts<'_>, form: &Tree) -> Option<Measure>
    ensures { result ≡ ordinal_of texts.now formals.now (four_in form.now) }
{
    let (head, one, first, second) = Parts::of(form)?.four()?;
    if !(spells(texts, b"MAKE-ORD", head) && is_one(one)) {
        return None;
    }
    let first = one_more(texts, formals, first)?;
    let second = natural(texts, formals, second)?;
    Some(Measure::Lex(first, second))
}

fn measure_of(natural: Natural) -> Measure
    ensures { result ≡ natural_measure natural }
{
    match natural {
        Natural::Count(v) => Measure::Count(v),
        Natural::Len(v) => Measure::Len(v),
        Natural::Nat(v) => Measure::Nat(v),
        Natural::Gap(a, b) => Measure::Gap(a, b),
    }
}

/// The measure over these formals that a form states.
pub(crate) fn measure(texts: &Texts, formals: &Parts<'_>, form: &Tree) -> Option<Measure>
    ensures { result ≡ measure_meant texts.now formals.now form.now }
{
    match natural(texts, formals, form) {
        Some(found) => Some(measure_of(found)),
        None => ordinal(texts, formals, form),
    }
}
