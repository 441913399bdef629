//! The words of a measure.

ghost use Rattle.std.specs.Prelude.{◌≡◌, ◌++◌, OnOk, IfOk};
ghost use Rattle.gl_book.specs.Lines.{about, natural_words, measure_words, stated_measure as words_of_stated};

use gl_logic::{Measure, Natural, NoMemory, TextId, Texts};
use std::alloc::Global;

/// A blank and a measure's words; nothing where there is no measure.
pub fn stated_measure(
    alloc: Global,
    measure: Option<Measure>,
    texts: &Texts,
) -> Result<Vec<u8>, NoMemory>
    ensures { IfOk result (λ v. v.items ≡ words_of_stated texts.now measure) }
{
    let mut words = Vec::new(alloc);
    if let Some(measure) = measure {
        words.push(b' ')?;
        add_measure(measure, texts, &mut words)?;
    }
    Ok(words)
}

/// Adds a measure as a book writes it.
fn add_measure(measure: Measure, texts: &Texts, words: &mut Vec<u8>) -> Result<(), NoMemory>
    ensures { OnOk result (words.new.items ≡ words.old.items ++ measure_words texts.now measure) }
{
    match measure {
        Measure::Count(v) => add_natural(Natural::Count(v), texts, words),
        Measure::Len(v) => add_natural(Natural::Len(v), texts, words),
        Measure::Nat(v) => add_natural(Natural::Nat(v), texts, words),
        Measure::Gap(a, b) => add_natural(Natural::Gap(a, b), texts, words),
        Measure::Lex(first, second) => add_pair(first, second, texts, words),
    }
}

/// Two natural numbers of which the first decides.
fn add_pair(
    first: Natural,
    second: Natural,
    texts: &Texts,
    words: &mut Vec<u8>,
) -> Result<(), NoMemory>
    ensures { OnOk result (words.new.items ≡ words.old.items ++ measure_words texts.now (Measure.Lex first second)) }
{
    words.extend_from_slice(b"(MAKE-ORD 1 (+ 1 ")?;
    add_natural(first, texts, words)?;
    words.extend_from_slice(b") ")?;
    add_natural(second, texts, words)?;
    words.extend_from_slice(b")")?;
    Ok(())
}

/// Adds a natural measure as a book writes it.
fn add_natural(natural: Natural, texts: &Texts, words: &mut Vec<u8>) -> Result<(), NoMemory>
    ensures { OnOk result (words.new.items ≡ words.old.items ++ natural_words texts.now natural) }
{
    match natural {
        Natural::Count(v) => add_about(b"(ACL2-COUNT ", v, b")", texts, words),
        Natural::Len(v) => add_about(b"(LEN ", v, b")", texts, words),
        Natural::Nat(v) => add_about(b"(NFIX ", v, b")", texts, words),
        Natural::Gap(a, b) => {
            add_about(b"(NFIX (- ", b, b" ", texts, words)?;
            add_about(b"", a, b"))", texts, words)
        }
    }
}

/// The name of a variable between words.
fn add_about(
    before: &[u8],
    variable: TextId,
    after: &[u8],
    texts: &Texts,
    words: &mut Vec<u8>,
) -> Result<(), NoMemory>
    ensures { OnOk result (words.new.items ≡ words.old.items ++ about texts.now before.now variable.number after.now) }
{
    words.extend_from_slice(before)?;
    words.extend_from_slice(texts.text(variable))?;
    words.extend_from_slice(after)?;
    Ok(())
}
