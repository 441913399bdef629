//! A natural measure of a caller at a place in its body.

ghost use Rattle.std.specs.Prelude.{◌≡◌, []};
ghost use Rattle.gl_logic.specs.TermOf.{term_of, terms_of};
ghost use Rattle.admission.specs.Parts.{is_bound, part_of, part_with_fact, part_noted, part_below, part_steps, part_stays};

use super::known::{Known, KnownGap};
use super::rows::{count_row, gap_row, gap_stays, len_row, nat_row, stays_row};
use super::variables::is_nil;
use gl_logic::same_terms::are_same;
use gl_logic::{Names, Natural, Prim, Term, TextId};

/// A natural measure, and what is known of its variables at a place.
#[derive(Clone, Copy)]
pub(crate) enum Part {
    Count(TextId, Known),
    Len(TextId, Known),
    Nat(TextId, Known),
    Gap(TextId, TextId, KnownGap),
    /// A let around the place binds a variable of the measure, so that the name is no formal there.
    Hidden,
}

impl Part {
    /// Where no test and no let stands around.
    pub(crate) fn start(natural: Natural) -> Part
        ensures { result ≡ part_of natural [] [] }
    {
        match natural {
            Natural::Count(v) => Part::Count(v, Known::nothing()),
            Natural::Len(v) => Part::Len(v, Known::nothing()),
            Natural::Nat(v) => Part::Nat(v, Known::nothing()),
            Natural::Gap(a, b) => Part::Gap(a, b, KnownGap::nothing()),
        }
    }

    /// With one fact more, which no rule opens.
    pub(crate) fn learn(self, test: &Term, truth: bool) -> Part
        ensures { result ≡ part_with_fact (term_of test.now, truth) self }
    {
        match self {
            Part::Count(v, known) => Part::Count(v, known.learn(v, test, truth)),
            Part::Len(v, known) => Part::Len(v, known.learn(v, test, truth)),
            Part::Nat(v, known) => Part::Nat(v, known.learn(v, test, truth)),
            Part::Gap(a, b, known) => Part::Gap(a, b, known.learn(a, b, test, truth)),
            Part::Hidden => Part::Hidden,
        }
    }

    /// In the body of a let that binds these names.
    pub(crate) fn below(self, names: &Names) -> Part
        ensures { result ≡ part_below names.now self }
    {
        match self {
            Part::Count(v, _) | Part::Len(v, _) | Part::Nat(v, _) => {
                if binds(names, v) { Part::Hidden } else { self }
            }
            Part::Gap(a, b, _) => {
                if binds(names, a) || binds(names, b) {
                    Part::Hidden
                } else {
                    self
                }
            }
            Part::Hidden => Part::Hidden,
        }
    }

    /// Whether the callee's measure of the actuals is below this one.
    pub(crate) fn steps(self, callee: Natural, formals: &Names, actuals: &[Term]) -> bool
        ensures { result ≡ part_steps self callee formals.now (terms_of actuals.now) }
    {
        match (self, callee) {
            (Part::Count(v, known), Natural::Count(w)) => count_row(v, known, formals, actuals, w),
            (Part::Len(v, known), Natural::Len(w)) => len_row(v, known, formals, actuals, w),
            (Part::Nat(v, known), Natural::Nat(w)) => nat_row(v, known, formals, actuals, w),
            (Part::Gap(a, b, known), Natural::Gap(x, y)) => {
                gap_row(a, b, known, formals, actuals, x, y)
            }
            _ => false,
        }
    }

    /// Whether the callee's measure of the actuals is this one.
    pub(crate) fn stays(self, callee: Natural, formals: &Names, actuals: &[Term]) -> bool
        ensures { result ≡ part_stays self callee formals.now (terms_of actuals.now) }
    {
        match (self, callee) {
            (Part::Count(v, _), Natural::Count(w)) => stays_row(v, formals, actuals, w),
            (Part::Len(v, _), Natural::Len(w)) => stays_row(v, formals, actuals, w),
            (Part::Nat(v, _), Natural::Nat(w)) => stays_row(v, formals, actuals, w),
            (Part::Gap(a, b, _), Natural::Gap(x, y)) => gap_stays(a, b, formals, actuals, x, y),
            _ => false,
        }
    }
}

/// Whether a name is among them.
fn binds(names: &Names, v: TextId) -> bool
    ensures { result ≡ is_bound names.now v.number }
{
    names.contains(v)
}

/// With what a test says that is true, or false: `(if a b nil)` that is true says a and b, `(if a a c)` that
/// is false denies a and c, and `(not a)` turns a over.
pub(crate) fn note(part: Part, test: &Term, truth: bool) -> Part
    ensures { result ≡ part_noted (term_of test.now) truth part }
{
    match test {
        Term::If(a, b, c) => {
            if truth && is_nil(c) {
                note(note(part, b, true), a, true)
            } else if !truth && are_same(a, b) {
                note(note(part, c, false), a, false)
            } else {
                part.learn(test, truth)
            }
        }
        Term::Prim(Prim::Not, terms) => {
            if terms.len() == 0 {
                part
            } else {
                note(part, &terms[0], !truth)
            }
        }
        Term::Var(_) => part.learn(test, truth),
        Term::Const(_) => part.learn(test, truth),
        Term::Prim(_, _) => part.learn(test, truth),
        Term::Call(_, _) => part.learn(test, truth),
        Term::Let(_, _, _) => part.learn(test, truth),
    }
}
