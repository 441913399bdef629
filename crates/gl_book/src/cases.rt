//! Answers to theorems by cases.

ghost use Rattle.std.specs.Prelude.{◌≡◌, ◌<◌, ◌≤◌, ◌+◌, ◌^◌, IfOk, length};
ghost use Rattle.gl_book.specs.Cases.{outcome_of, outcomes_of, settled_of, verdict_from, input_of as input_meant, case_at as case_meant};

use gl_cases::{Outcome, Outcomes, Settled, settle};
use gl_decide::Verdict;
use gl_logic::NoMemory;
use shape_spec::Inputs;
use std::alloc::Global;

/// The answer to a theorem by cases.
#[derive(Drop)]
pub enum CasesVerdict {
    /// The conclusion is met wherever the hypothesis is, and something meets the hypothesis.
    Proved,
    /// Nothing meets the hypothesis.
    Vacuous,
    /// An input that meets the hypothesis and makes the conclusion NIL: that of the first case that is refuted.
    Refuted(Inputs),
    /// An input that meets the hypothesis and is of no case.
    Uncased(Inputs),
    /// That the cases leave nothing out is left undecided.
    Cover(Verdict),
    /// The first case that is left undecided, from 1.
    Case(u32, Verdict),
}

/// What a verdict comes to.
pub(crate) fn outcome(verdict: &Verdict) -> Outcome
    ensures { result ≡ outcome_of verdict.now }
{
    match verdict {
        Verdict::Proved => Outcome::Proved,
        Verdict::Vacuous => Outcome::Vacuous,
        Verdict::Refuted(_) => Outcome::Refuted,
        _ => Outcome::Open,
    }
}

/// What verdicts come to.
fn outcomes(alloc: Global, verdicts: &[Verdict]) -> Result<Outcomes, NoMemory>
    ensures { IfOk result (λ all. all ≡ outcomes_of verdicts.now) }
{
    let mut all = Outcomes::new(alloc);
    for verdict in verdicts {
        all.push(outcome(verdict))?;
    }
    Ok(all)
}

/// The input of a verdict that refutes, and none of another.
fn input_of(alloc: Global, verdict: Verdict) -> Inputs
    ensures { result ≡ input_meant verdict }
{
    match verdict {
        Verdict::Refuted(input) => input,
        other => {
            drop(other);
            Inputs::new(alloc)
        }
    }
}

/// The verdict on the case with a number, from 1.
fn case_at(cases: Vec<Verdict>, number: u32) -> Verdict
    requires some { 1 ≤ number }
    requires within { number ≤ length cases.items }
    ensures { result ≡ case_meant cases.items number }
{
    let mut cases = cases;
    cases.swap_remove(number as usize - 1)
}

/// What the verdicts on the cover and on the cases come to.
pub(crate) fn whole_of(
    alloc: Global,
    cover: Verdict,
    cases: Vec<Verdict>,
) -> Result<CasesVerdict, NoMemory>
    requires { length cases.items + 1 < 2 ^ 32 }
    ensures { IfOk result (λ v. v ≡ verdict_from (settled_of cover cases.items) cover cases.items) }
{
    let Ok(outcomes) = outcomes(alloc, &cases) else {
        drop(cover);
        return Err(NoMemory);
    };
    Ok(match settle(outcome(&cover), &outcomes) {
        Settled::Proved => {
            drop(cover);
            CasesVerdict::Proved
        }
        Settled::Vacuous => {
            drop(cover);
            CasesVerdict::Vacuous
        }
        Settled::Refuted(number) => {
            drop(cover);
            CasesVerdict::Refuted(input_of(alloc, case_at(cases, number)))
        }
        Settled::Uncased => CasesVerdict::Uncased(input_of(alloc, cover)),
        Settled::Cover => CasesVerdict::Cover(cover),
        Settled::Case(number) => {
            drop(cover);
            CasesVerdict::Case(number, case_at(cases, number))
        }
    })
}
