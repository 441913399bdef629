//! A caller's measure at a place in its body.

ghost use Rattle.std.specs.Prelude.{◌≡◌, []};
ghost use Rattle.gl_logic.specs.TermOf.{term_of, terms_of};
ghost use Rattle.gl_logic.specs.Definition.{One as one_part, Two as two_parts};
ghost use Rattle.admission.specs.Callers.{caller_of, caller_noted, caller_below, caller_steps, steps_by};

use super::part::{Part, note};
use gl_logic::{Measure, Names, Natural, Term};

/// The parts of a caller's measure, with what is known of each at a place.
#[derive(Clone, Copy)]
pub(crate) enum Caller {
    Unmeasured,
    One(Part),
    // the first decides
    Two(Part, Part),
}

impl Caller {
    /// Where no test and no let stands around.
    pub(crate) fn start(measure: Option<Measure>) -> Caller
        ensures { result ≡ caller_of measure [] [] }
    {
        match measure {
            None => Caller::Unmeasured,
            Some(Measure::Count(v)) => Caller::One(Part::start(Natural::Count(v))),
            Some(Measure::Len(v)) => Caller::One(Part::start(Natural::Len(v))),
            Some(Measure::Nat(v)) => Caller::One(Part::start(Natural::Nat(v))),
            Some(Measure::Gap(a, b)) => Caller::One(Part::start(Natural::Gap(a, b))),
            Some(Measure::Lex(m, k)) => Caller::Two(Part::start(m), Part::start(k)),
        }
    }

    /// Under one test more, which is true or false.
    pub(crate) fn under(self, test: &Term, truth: bool) -> Caller
        ensures { result ≡ caller_noted (term_of test.now) truth self }
    {
        match self {
            Caller::Unmeasured => Caller::Unmeasured,
            Caller::One(part) => Caller::One(note(part, test, truth)),
            Caller::Two(first, second) => {
                Caller::Two(note(first, test, truth), note(second, test, truth))
            }
        }
    }

    /// In the body of a let that binds these names.
    pub(crate) fn below(self, names: &Names) -> Caller
        ensures { result ≡ caller_below names.now self }
    {
        match self {
            Caller::Unmeasured => Caller::Unmeasured,
            Caller::One(part) => Caller::One(part.below(names)),
            Caller::Two(first, second) => Caller::Two(first.below(names), second.below(names)),
        }
    }

    /// Whether a call is a step to the callee's measure, whose formals these are.
    pub(crate) fn steps(self, callee: Option<Measure>, formals: &Names, actuals: &[Term]) -> bool
        ensures { result ≡ caller_steps self callee formals.now (terms_of actuals.now) }
    {
        match callee {
            None => false,
            Some(Measure::Count(v)) => self.steps_to(Natural::Count(v), formals, actuals),
            Some(Measure::Len(v)) => self.steps_to(Natural::Len(v), formals, actuals),
            Some(Measure::Nat(v)) => self.steps_to(Natural::Nat(v), formals, actuals),
            Some(Measure::Gap(a, b)) => self.steps_to(Natural::Gap(a, b), formals, actuals),
            Some(Measure::Lex(m, k)) => self.steps_to_two(m, k, formals, actuals),
        }
    }

    fn steps_to(self, callee: Natural, formals: &Names, actuals: &[Term]) -> bool
        ensures { result ≡ steps_by self (one_part callee) formals.now (terms_of actuals.now) }
    {
        match self {
            Caller::One(part) => part.steps(callee, formals, actuals),
            _ => false,
        }
    }

    fn steps_to_two(
        self,
        first: Natural,
        second: Natural,
        formals: &Names,
        actuals: &[Term],
    ) -> bool
        ensures { result ≡ steps_by self (two_parts first second) formals.now (terms_of actuals.now) }
    {
        match self {
            Caller::Two(part, other) => {
                part.steps(first, formals, actuals)
                    || (part.stays(first, formals, actuals)
                        && other.steps(second, formals, actuals))
            }
            _ => false,
        }
    }
}
