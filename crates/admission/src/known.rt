//! What the tests around a place show of a measure's variables.

ghost use Rattle.std.specs.Prelude.{◌≡◌, []};
ghost use Rattle.gl_logic.specs.TermOf.{term_of};
ghost use Rattle.admission.specs.WhatIsKnown.{known_of, gap_known_of, with_fact, gap_with_fact, known_positive, known_gap};

use super::facts::{
    tells_above_zero, tells_below, tells_cons, tells_gap, tells_integer, tells_integerp,
    tells_natp, tells_nonzero, tells_positive,
};
use gl_logic::{Term, TextId};

/// What is known of one variable.
#[derive(Clone, Copy)]
pub(crate) struct Known {
    pub(crate) cons: bool,
    // by one fact
    pub(crate) positive: bool,
    pub(crate) integerp: bool,
    pub(crate) above_zero: bool,
    pub(crate) natp: bool,
    pub(crate) nonzero: bool,
}

impl Known {
    /// Where no test stands around.
    pub(crate) fn nothing() -> Known
        ensures { result ≡ known_of 0 [] }
    {
        Known {
            cons: false,
            positive: false,
            integerp: false,
            above_zero: false,
            natp: false,
            nonzero: false,
        }
    }

    /// With one test more.
    pub(crate) fn learn(self, v: TextId, test: &Term, truth: bool) -> Known
        ensures { result ≡ with_fact v.number (term_of test.now, truth) self }
    {
        Known {
            cons: tells_cons(test, truth, v) || self.cons,
            positive: tells_positive(test, truth, v) || self.positive,
            integerp: tells_integerp(test, truth, v) || self.integerp,
            above_zero: tells_above_zero(test, truth, v) || self.above_zero,
            natp: tells_natp(test, truth, v) || self.natp,
            nonzero: tells_nonzero(test, truth, v) || self.nonzero,
        }
    }

    /// Whether it is a positive integer.
    pub(crate) fn is_positive(self) -> bool
        ensures { result ≡ known_positive self }
    {
        self.positive || ((self.integerp && self.above_zero) || (self.natp && self.nonzero))
    }
}

/// What is known of two variables a and b, and of `(- b a)`.
#[derive(Clone, Copy)]
pub(crate) struct KnownGap {
    // (- b a) is a positive integer, by one fact
    pub(crate) positive: bool,
    pub(crate) first_integer: bool,
    pub(crate) second_integer: bool,
    // a is below b
    pub(crate) below: bool,
}

impl KnownGap {
    /// Where no test stands around.
    pub(crate) fn nothing() -> KnownGap
        ensures { result ≡ gap_known_of 0 0 [] }
    {
        KnownGap {
            positive: false,
            first_integer: false,
            second_integer: false,
            below: false,
        }
    }

    /// With one test more.
    pub(crate) fn learn(self, a: TextId, b: TextId, test: &Term, truth: bool) -> KnownGap
        ensures { result ≡ gap_with_fact a.number b.number (term_of test.now, truth) self }
    {
        KnownGap {
            positive: tells_gap(test, truth, a, b) || self.positive,
            first_integer: tells_integer(test, truth, a) || self.first_integer,
            second_integer: tells_integer(test, truth, b) || self.second_integer,
            below: tells_below(test, truth, a, b) || self.below,
        }
    }

    /// Whether `(- b a)` is a positive integer.
    pub(crate) fn is_positive(self) -> bool
        ensures { result ≡ known_gap self }
    {
        self.positive || (self.first_integer && (self.second_integer && self.below))
    }
}
