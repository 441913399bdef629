//! Logs of clauses with hints, as LRAT writes them.

ghost use Rattle.std.specs.Prelude.{◌≡◌, ◌≤◌, ◌<◌, ◌+◌, ◌^◌, ◌&&◌, true, false, ℕ, List, [], ◌∷◌, ◌++◌, Ok, Err, Some, IfOk, IfErr, OnOk, length, is_some, option_and_then};
ghost use Rattle.lrat_tool.specs.Bad.{IfAt};
ghost use Rattle.lrat_tool.specs.Places.{IsLineIn, rest_of};
ghost use Rattle.lrat_tool.specs.Numbers.{natural_within};
ghost use Rattle.lrat_tool.specs.Logs.{LogEntry, after, are_ids, log_meant, most_id};
ghost use Rattle.lrat_tool.specs.Held.{HasEntry, HintsRead, IsHeld, LineRead, LiteralsRead, entry_line, last_id, line_meant};

use super::bad_text::BadText;
use super::flat::Clauses;
use super::hint_lists::HintLists;
use super::lines::{Line, line_at, next_word};
use super::number::{integer, is_zero, natural, read_hint};
use gl_logic::NoMemory;
use std::alloc::Global;

/// The greatest variable of a literal.
const MOST_LITERAL: u32 = 2_147_483_647;

/// The entries of a log, in order. A hint is held as the number of the clause that it names, or 0 where none can have its number.
#[derive(Drop)]
pub(crate) struct Log {
    pub clauses: Clauses,
    pub hints: HintLists,
    /// Their numbers.
    pub ids: Vec<u32>,
    /// The lines on which they stand.
    pub lines: Vec<u32>,
    /// Whether a hint is below 0.
    pub rats: Vec<bool>,
}

/// No entries.
pub(crate) fn no_entries(alloc: Global) -> Result<Log, NoMemory>
    ensures { (first : ℕ) → IfOk result (λ log. IsHeld first [] log) }
{
    let clauses = Clauses::new(alloc)?;
    let hints = HintLists::new(alloc)?;
    Ok(Log {
        clauses,
        hints,
        ids: Vec::new(alloc),
        lines: Vec::new(alloc),
        rats: Vec::new(alloc),
    })
}

/// Reads literals up to a 0.
fn read_literals(clauses: &mut Clauses, text: &[u8], line: &mut Line) -> Result<bool, NoMemory>
    requires { IsLineIn line.old (length text.now) }
    ensures read { IfOk result (LiteralsRead clauses.old clauses.new (rest_of text.now line.old) (rest_of text.now line.new)) }
    ensures within { IsLineIn line.new (length text.now) }
    ensures number { line.new.number ≡ line.old.number }
{
    while let Some(span) = next_word(text, line) {
        let word = span.word(text);
        if is_zero(word) {
            return Ok(true);
        }
        let Some(literal) = integer(word, MOST_LITERAL) else {
            return Ok(false);
        };
        clauses.push(literal)?;
    }
    Ok(false)
}

/// Reads hints up to a 0. Tells whether one is below 0.
fn read_hints(hints: &mut HintLists, text: &[u8], line: &mut Line) -> Result<Option<bool>, NoMemory>
    requires { IsLineIn line.old (length text.now) }
    ensures read { IfOk result (HintsRead hints.old hints.new (rest_of text.now line.old) (rest_of text.now line.new)) }
    ensures within { IsLineIn line.new (length text.now) }
    ensures number { line.new.number ≡ line.old.number }
{
    let mut below = false;
    while let Some(span) = next_word(text, line) {
        let word = span.word(text);
        if is_zero(word) {
            return Ok(Some(below));
        }
        let Some(hint) = read_hint(word) else {
            return Ok(None);
        };
        below = hint.or_below(below);
        hints.push(hint.held())?;
    }
    Ok(None)
}

/// Ends an entry.
pub(crate) fn end_entry(log: &mut Log, id: u32, line: u32, below: bool) -> Result<(), NoMemory>
    ensures { OnOk result (HasEntry log.old id line below log.new) }
{
    log.clauses.end()?;
    log.hints.end()?;
    log.ids.push(id)?;
    log.lines.push(line)?;
    log.rats.push(below)?;
    Ok(())
}

/// Reads the literals and the hints of an entry.
fn read_entry(log: &mut Log, first: u32, text: &[u8], line: Line, id: u32) -> Result<bool, NoMemory>
    requires within { IsLineIn line (length text.now) }
    requires later { last_id first log.old.ids.items < id }
    ensures { (es : List LogEntry) → IsHeld first es log.old → IfOk result (LineRead first es log.new (entry_line text.now line id)) }
{
    let mut line = line;
    if !read_literals(&mut log.clauses, text, &mut line)? {
        return Ok(false);
    }
    let Some(below) = read_hints(&mut log.hints, text, &mut line)? else {
        return Ok(false);
    };
    if let Some(_) = next_word(text, &mut line) {
        return Ok(false);
    }
    end_entry(log, id, line.number, below)?;
    Ok(true)
}

/// Whether numbers stand up to a 0, which is the last word.
fn are_ids(text: &[u8], line: Line) -> bool
    requires { IsLineIn line (length text.now) }
    ensures { result ≡ are_ids (rest_of text.now line) }
{
    let mut line = line;
    while let Some(span) = next_word(text, &mut line) {
        let word = span.word(text);
        if is_zero(word) {
            return next_word(text, &mut line).is_none();
        }
        if natural(word, u32::MAX).is_none() {
            return false;
        }
    }
    false
}

/// The number of an entry behind these, which is greater than theirs.
fn next_id(ids: &[u32], first: u32, word: &[u8]) -> Option<u32>
    ensures { result ≡ option_and_then (after (last_id first ids.now)) (natural_within most_id word.now) }
{
    let last = last_of(ids, first);
    match natural(word, u32::MAX) {
        Some(id) if last < id => Some(id),
        _ => None,
    }
}

/// The last number.
pub(crate) fn last_of(ids: &[u32], first: u32) -> u32
    ensures { result ≡ last_id first ids.now }
{
    match ids {
        [] => first,
        [.., last] => *last,
    }
}

/// Reads a line: nothing, an entry or a deletion. Tells whether it is well-formed.
fn read_line(log: &mut Log, first: u32, text: &[u8], line: Line) -> Result<bool, NoMemory>
    requires { IsLineIn line (length text.now) }
    ensures { (es : List LogEntry) → IsHeld first es log.old → IfOk result (LineRead first es log.new (line_meant text.now line (last_id first log.old.ids.items))) }
{
    let mut behind = line;
    let Some(id) = next_word(text, &mut behind) else {
        return Ok(true);
    };
    let mut ahead = behind;
    let Some(second) = next_word(text, &mut ahead) else {
        return Ok(false);
    };
    if second.word(text) == b"d".as_slice() {
        return Ok(natural(id.word(text), u32::MAX).is_some() && are_ids(text, ahead));
    }
    match next_id(log.ids.as_slice(), first, id.word(text)) {
        None => Ok(false),
        Some(id) => read_entry(log, first, text, behind, id),
    }
}

/// The entries of a log behind so many first clauses.
pub(crate) fn read_log(alloc: Global, text: &[u8], first: u32) -> Result<Log, BadText>
    requires { length text.now < 4294967295 }
    ensures ok { IfOk result (λ log. (es : List LogEntry) × (log_meant first text.now ≡ Ok es) × IsHeld first es log) }
    ensures bad { IfErr result (IfAt (λ n. log_meant first text.now ≡ Err n)) }
{
    let Ok(mut log) = no_entries(alloc) else {
        return Err(BadText::Memory);
    };
    let mut number: u64 = 1;
    let mut at = 0;
    while at <= text.len() {
        let line = line_at(text, at, number as u32);
        let Ok(fine) = read_line(&mut log, first, text, line) else {
            return Err(BadText::Memory);
        };
        if !fine {
            return Err(BadText::At(line.number));
        }
        at = line.end + 1;
        number += 1;
    }
    Ok(log)
}
