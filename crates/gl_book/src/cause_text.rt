//! What leaves an event undecided, in words.

ghost use Rattle.std.specs.Prelude.{◌≡◌, ◌++◌, codes, IfOk, OnOk};
ghost use Rattle.std.specs.Fmt.{decimal};
ghost use Rattle.gl_book.specs.Undecided.{cases_words, undecided_words as words_meant};

use super::answer::Answer;
use super::cases::CasesVerdict;
use super::lines::{add_cause, add_word};
use super::refusal::cause_word;
use gl_logic::{NoMemory, Texts};
use std::alloc::Global;

/// The words that a transcript has behind the name for an answer that leaves an event undecided, each behind a blank; none for
/// another answer.
pub fn undecided_words(alloc: Global, answer: &Answer, texts: &Texts) -> Result<Vec<u8>, NoMemory>
    ensures { IfOk result (λ v. v.items ≡ words_meant texts.now answer.now) }
{
    let mut words = Vec::new(alloc);
    match answer {
        Answer::Decided(verdict) => add_cause(verdict, texts, &mut words)?,
        Answer::ByCases(verdict) => add_cases_words(alloc, verdict, texts, &mut words)?,
        Answer::Undecided(cause) => {
            add_word(b" ", &mut words)?;
            add_word(cause_word(*cause).as_bytes(), &mut words)?;
        }
        Answer::Done | Answer::Function(_) | Answer::Value(_) | Answer::Truth(_) => {}
    }
    Ok(words)
}

/// Adds the words for what leaves a theorem by cases undecided.
fn add_cases_words(
    alloc: Global,
    verdict: &CasesVerdict,
    texts: &Texts,
    words: &mut Vec<u8>,
) -> Result<(), NoMemory>
    ensures { OnOk result (words.new.items ≡ words.old.items ++ cases_words texts.now verdict.now) }
{
    match verdict {
        CasesVerdict::Uncased(_) => add_word(b" uncased", words),
        CasesVerdict::Cover(verdict) => {
            add_word(b" cover", words)?;
            add_cause(verdict, texts, words)
        }
        CasesVerdict::Case(number, verdict) => {
            let part = format!(in alloc; " case {number}")?;
            add_word(part.as_bytes(), words)?;
            add_cause(verdict, texts, words)
        }
        CasesVerdict::Proved | CasesVerdict::Vacuous | CasesVerdict::Refuted(_) => Ok(()),
    }
}
