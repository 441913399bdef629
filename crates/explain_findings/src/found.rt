//! What comes of an event, by the answer of the library.

ghost use Rattle.std.specs.Prelude.{◌≡◌, ◌∷◌, map, drop, IfOk, option_copied};
ghost use Rattle.gl_book.specs.declared.answer.Answer.TheVariants as answered;
ghost use Rattle.gl_book.specs.Undecided.{undecided_words as words_meant};
ghost use Rattle.explain_findings.specs.Founds.{IsVerdictOf, IsFound, input_of as input_meant, input_of_open, input_seen, pairs_in};

use crate::forms::printed;
use event_world::Event;
use explain_report::{Cause, Found, Input, Verdict};
use gl_book::{Answer, CasesVerdict, Cause as Lack, undecided_words};
use gl_decide::Verdict as Decided;
use gl_logic::{NoMemory, TextId, Texts, Tree};
use shape_spec::Inputs;
use std::alloc::Global;

/// The verdict on a theorem.
fn verdict_of_theorem(verdict: &Decided) -> Verdict
    ensures { IsVerdictOf (answered.Decided verdict.now) result }
{
    match verdict {
        Decided::Proved => Verdict::Proved,
        Decided::Vacuous => Verdict::Vacuous,
        Decided::Refuted(_) => Verdict::Refuted,
        _ => Verdict::Undecided,
    }
}

/// The verdict on a theorem by cases.
fn verdict_of_cases(verdict: &CasesVerdict) -> Verdict
    ensures { IsVerdictOf (answered.ByCases verdict.now) result }
{
    match verdict {
        CasesVerdict::Proved => Verdict::Proved,
        CasesVerdict::Vacuous => Verdict::Vacuous,
        CasesVerdict::Refuted(_) => Verdict::Refuted,
        CasesVerdict::Uncased(_) | CasesVerdict::Cover(_) | CasesVerdict::Case(_, _) => {
            Verdict::Undecided
        }
    }
}

/// What became of an event with an answer.
fn verdict_of(event: &Event, answer: &Answer) -> Verdict
    ensures { IsVerdictOf answer.now result }
{
    match answer {
        Answer::Decided(verdict) => verdict_of_theorem(verdict),
        Answer::ByCases(verdict) => verdict_of_cases(verdict),
        Answer::Truth(true) => Verdict::Holds,
        Answer::Truth(false) => Verdict::Failed,
        Answer::Undecided(_) => Verdict::Undecided,
        Answer::Value(_) if matches!(event, Event::Value(_)) => Verdict::Value,
        Answer::Value(_) | Answer::Done | Answer::Function(_) => Verdict::Taken,
    }
}

/// Why a term has no value.
fn cause_of_value(cause: Lack) -> Cause {
    match cause {
        Lack::Width => Cause::Width,
        Lack::Steps => Cause::Steps,
        Lack::Cells => Cause::Cells,
        Lack::Size => Cause::Size,
        Lack::Memory => Cause::Memory,
    }
}

/// Why a theorem, or a case with a number, is undecided.
fn cause_of_theorem(case: Option<u32>, verdict: &Decided) -> Option<Cause> {
    match verdict {
        Decided::Uncovered(variable) => Some(Cause::Uncovered(case, *variable)),
        Decided::Clock(_, _) => Some(Cause::Clock),
        Decided::Width(_, _) => Some(Cause::Width),
        Decided::Steps(_, _) => Some(Cause::Steps),
        Decided::Cells(_, _) => Some(Cause::Cells),
        Decided::Nodes(_) => Some(Cause::Nodes),
        Decided::Clauses(_) => Some(Cause::Clauses),
        Decided::Memory => Some(Cause::Memory),
        Decided::Proved | Decided::Vacuous | Decided::Refuted(_) => None,
    }
}

/// Why an answer leaves its event undecided.
fn cause_of(answer: &Answer) -> Option<Cause> {
    match answer {
        Answer::Undecided(cause) => Some(cause_of_value(*cause)),
        Answer::Decided(verdict) => cause_of_theorem(None, verdict),
        Answer::ByCases(CasesVerdict::Uncased(_)) => Some(Cause::Uncased),
        Answer::ByCases(CasesVerdict::Cover(verdict)) => cause_of_theorem(None, verdict),
        Answer::ByCases(CasesVerdict::Case(number, verdict)) => {
            cause_of_theorem(Some(*number), verdict)
        }
        _ => None,
    }
}

/// The input that leaves a theorem undecided.
fn open_input(verdict: &Decided) -> Option<&Inputs>
    ensures { option_copied result ≡ input_of_open verdict.now }
{
    match verdict {
        Decided::Clock(_, input)
        | Decided::Width(_, input)
        | Decided::Steps(_, input)
        | Decided::Cells(_, input) => Some(input),
        _ => None,
    }
}

/// The input that an answer shows.
fn input_of(answer: &Answer) -> Option<&Inputs>
    ensures { option_copied result ≡ input_meant answer.now }
{
    match answer {
        Answer::Decided(Decided::Refuted(input))
        | Answer::ByCases(CasesVerdict::Refuted(input) | CasesVerdict::Uncased(input)) => {
            Some(input)
        }
        Answer::Decided(verdict)
        | Answer::ByCases(CasesVerdict::Cover(verdict) | CasesVerdict::Case(_, verdict)) => {
            open_input(verdict)
        }
        _ => None,
    }
}

/// A variable and its object, with what they are printed as.
pub(crate) fn input_at(
    alloc: Global,
    texts: &Texts,
    variable: TextId,
    object: &Tree,
) -> Result<Input, NoMemory>
    ensures variable { IfOk result (λ i. i.variable ≡ variable) }
    ensures object { IfOk result (λ i. i.object ≡ object.now) }
{
    Ok(Input {
        variable,
        object: object.copy(alloc)?,
        name: texts.text(variable).to_vec(alloc)?,
        text: printed(alloc, object, texts)?,
    })
}

/// The variables of an input with their objects.
fn inputs_in(alloc: Global, texts: &Texts, input: &Inputs) -> Result<Vec<Input>, NoMemory>
    ensures { IfOk result (λ v. input_seen v.items ≡ input.now) }
{
    let mut inputs = Vec::new(alloc);
    for i in 0..input.len() {
        let (variable, object) = input.at(i);
        inputs.push(input_at(alloc, texts, variable, object)?)?;
    }
    Ok(inputs)
}

/// The variables of the input that an answer shows, with their objects.
fn inputs_of(alloc: Global, texts: &Texts, answer: &Answer) -> Result<Vec<Input>, NoMemory>
    ensures { IfOk result (λ v. input_seen v.items ≡ pairs_in (input_meant answer.now)) }
{
    match input_of(answer) {
        Some(input) => inputs_in(alloc, texts, input),
        None => Ok(Vec::new(alloc)),
    }
}

/// The words for what leaves an event undecided.
fn words_of(alloc: Global, texts: &Texts, answer: &Answer) -> Result<Vec<u8>, NoMemory>
    ensures { IfOk result (λ v. v.items ≡ drop 1 (words_meant texts.now answer.now)) }
{
    match undecided_words(alloc, answer, texts)?.as_slice() {
        [_, words @ ..] => Ok(words.to_vec(alloc)?),
        [] => Ok(Vec::new(alloc)),
    }
}

/// What comes of an event with its answer.
pub fn found_of(
    alloc: Global,
    texts: &Texts,
    event: &Event,
    answer: &Answer,
) -> Result<Found, NoMemory>
    // What is said of an event is what the library answered.
    ensures agrees { IfOk result (IsFound texts.now answer.now) }
{
    Ok(Found {
        verdict: verdict_of(event, answer),
        cause: cause_of(answer),
        words: words_of(alloc, texts, answer)?,
        inputs: inputs_of(alloc, texts, answer)?,
    })
}
