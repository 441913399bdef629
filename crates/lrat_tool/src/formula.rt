//! Formulas as DIMACS writes them.

ghost use Rattle.std.specs.Prelude.{◌≡◌, ◌≤◌, ◌<◌, ◌&&◌, ◌==◌, true, not, nat_lt, ℕ, ℤ, List, [], ◌∷◌, Ok, Err, Some, IfOk, IfErr, IfNone, IfSome, OnOk, OnErr, length, bytes_eq, codes, is_some, if◌then◌else◌};
ghost use Rattle.lrat_tool.specs.Bad.{IfAt};
ghost use Rattle.lrat_tool.specs.Places.{IsLineIn, IsSpanIn, word_of};
ghost use Rattle.lrat_tool.specs.Flat.{FlatSeen};
ghost use Rattle.lrat_tool.specs.Numbers.{integer_within, natural_within};
ghost use Rattle.lrat_tool.specs.Formulas.{Token, formula_meant, last_line};
ghost use Rattle.lrat_tool.specs.Reading.{HasHeader, NumberRead, StopsAt, WordRead, flat_with, formula_in, is_number, literal_here, spells, token_at, tokens_left};

use super::bad_text::BadText;
use super::flat::Clauses;
use super::lines::{Line, Span, last_line, line_at, next_word};
use super::number::{integer, natural};
use gl_logic::NoMemory;
use std::alloc::Global;

/// The greatest variable that a formula may have.
const MOST_VARIABLES: u32 = 10_000_000;

/// The clauses that a formula may have.
const MOST_CLAUSES: u32 = 100_000_000;

/// What a formula's header says.
#[derive(Clone, Copy, Debug, PartialEq, Eq)]
pub(crate) struct Header {
    /// The line that it stands on.
    pub line: u32,
    /// No variable is greater.
    pub variables: u32,
    /// How many clauses there are.
    pub clauses: u32,
}

/// The next token: the next word of a line, or of the lines behind it. It is then read.
fn next_token(text: &[u8], at: &mut Line) -> Option<Span>
    requires small { length text.now < 4294967295 }
    requires within { IsLineIn at.old (length text.now) }
    ensures none { IfNone result (tokens_left text.now at.old ≡ []) }
    ensures some { IfSome result (λ s. tokens_left text.now at.old ≡ token_at text.now at.new s ∷ tokens_left text.now at.new) }
    ensures span { IfSome result (λ s. IsSpanIn s (length text.now)) }
    ensures further { IfSome result (λ s. at.old.begin < at.new.begin) }
    ensures within { IsLineIn at.new (length text.now) }
{
    loop {
        if let Some(word) = next_word(text, at) {
            return Some(word);
        }
        if at.end == text.len() {
            return None;
        }
        *at = line_at(text, at.end + 1, at.number + 1);
    }
}

/// Reads a word on a line.
fn read_word(text: &[u8], at: &mut Line, line: u32, word: &[u8]) -> Result<(), u32>
    requires small { length text.now < 4294967295 }
    requires within { IsLineIn at.old (length text.now) }
    ensures ok { IfOk result (λ _. WordRead (tokens_left text.now at.old) (tokens_left text.now at.new) line word.now) }
    ensures bad { IfErr result (StopsAt (last_line text.now) (tokens_left text.now at.old) (spells line word.now)) }
    ensures within { IsLineIn at.new (length text.now) }
{
    let Some(span) = next_token(text, at) else {
        return Err(last_line(text));
    };
    if at.number == line && span.word(text) == word {
        Ok(())
    } else {
        Err(at.number)
    }
}

/// Reads a number on a line, which is at most so great.
fn read_number(text: &[u8], at: &mut Line, line: u32, most: u32) -> Result<u32, u32>
    requires small { length text.now < 4294967295 }
    requires within { IsLineIn at.old (length text.now) }
    ensures ok { IfOk result (NumberRead (tokens_left text.now at.old) (tokens_left text.now at.new) line most) }
    ensures most { IfOk result (λ n. n ≤ most) }
    ensures bad { IfErr result (StopsAt (last_line text.now) (tokens_left text.now at.old) (is_number line most)) }
    ensures within { IsLineIn at.new (length text.now) }
{
    let Some(span) = next_token(text, at) else {
        return Err(last_line(text));
    };
    if at.number != line {
        return Err(at.number);
    }
    match natural(span.word(text), most) {
        Some(n) => Ok(n),
        None => Err(at.number),
    }
}

/// Reads the header.
fn read_header(text: &[u8], at: &mut Line) -> Result<Header, u32>
    requires small { length text.now < 4294967295 }
    requires within { IsLineIn at.old (length text.now) }
    ensures ok { IfOk result (HasHeader (tokens_left text.now at.old) (tokens_left text.now at.new)) }
    ensures few { IfOk result (λ h. h.variables ≤ 10000000) }
    ensures bad { IfErr result (λ n. formula_in text.now (tokens_left text.now at.old) ≡ Err n) }
    ensures within { IsLineIn at.new (length text.now) }
{
    let Some(first) = next_token(text, at) else {
        return Err(last_line(text));
    };
    let line = at.number;
    if first.word(text) != b"p".as_slice() {
        return Err(line);
    }
    read_word(text, at, line, b"cnf".as_slice())?;
    let variables = read_number(text, at, line, MOST_VARIABLES)?;
    let clauses = read_number(text, at, line, MOST_CLAUSES)?;
    Ok(Header {
        line,
        variables,
        clauses,
    })
}

/// The literal of a word behind the header and so many clauses, where it may stand there.
fn literal_at(header: Header, number: u32, ended: usize, word: &[u8]) -> Option<i32>
    requires { header.variables ≤ 10000000 }
    ensures { result ≡ literal_here header ended (record { line = number; word = word.now }) }
{
    if number != header.line && ended < header.clauses as usize {
        integer(word, header.variables)
    } else {
        None
    }
}

/// Puts a literal last; 0 ends the clause.
fn put(clauses: &mut Clauses, literal: i32) -> Result<(), NoMemory>
    ensures { OnOk result (clauses.new ≡ flat_with clauses.old literal) }
{
    if literal == 0 {
        clauses.end()
    } else {
        clauses.push(literal)
    }
}

/// Reads the clauses behind a header.
fn read_clauses(
    alloc: Global,
    text: &[u8],
    at: &mut Line,
    header: Header,
) -> Result<Clauses, BadText>
    requires small { length text.now < 4294967295 }
    requires within { IsLineIn at.old (length text.now) }
    requires few { header.variables ≤ 10000000 }
    ensures ok { (all : List Token) → HasHeader all (tokens_left text.now at.old) header → IfOk result (λ f. formula_in text.now all ≡ Ok f.lists) }
    ensures bad { (all : List Token) → HasHeader all (tokens_left text.now at.old) header → IfErr result (IfAt (λ n. formula_in text.now all ≡ Err n)) }
{
    let Ok(mut clauses) = Clauses::new(alloc) else {
        return Err(BadText::Memory);
    };
    while let Some(span) = next_token(text, at) {
        let Some(literal) = literal_at(header, at.number, clauses.len(), span.word(text)) else {
            return Err(BadText::At(at.number));
        };
        let Ok(()) = put(&mut clauses, literal) else {
            return Err(BadText::Memory);
        };
    }
    if clauses.len() == header.clauses as usize {
        Ok(clauses)
    } else {
        Err(BadText::At(last_line(text)))
    }
}

/// The clauses of a text in DIMACS.
pub(crate) fn read_formula(alloc: Global, text: &[u8]) -> Result<Clauses, BadText>
    requires { length text.now < 4294967295 }
    ensures ok { IfOk result (λ f. formula_meant text.now ≡ Ok f.lists) }
    ensures bad { IfErr result (IfAt (λ n. formula_meant text.now ≡ Err n)) }
{
    let mut at = line_at(text, 0, 1);
    match read_header(text, &mut at) {
        Ok(header) => read_clauses(alloc, text, &mut at, header),
        Err(line) => Err(BadText::At(line)),
    }
}
