//! The judgement by its definition, word by word, on lists of lists. It is slow, and shares nothing with the calls that it is
//! compared with.

use lrat_tool::Judgement;
use std::alloc::Global;
use std::mem;
use std::process::Abort;

/// A word, and the number of its line from 1.
#[derive(Drop)]
struct Word {
    line: u32,
    bytes: Vec<u8>,
}

/// A line of a log that is no deletion.
#[derive(Drop)]
struct Entry {
    line: u32,
    id: i64,
    clause: Vec<i64>,
    hints: Vec<i64>,
}

fn put<T: Drop>(rt: &impl Abort, list: &mut Vec<T>, item: T) {
    assert!(rt; list.push(item).is_ok());
}

/// The words of each line, which has none where its first byte is c.
fn lines(rt: &impl Abort, alloc: Global, text: &[u8]) -> Vec<Vec<Word>> {
    let mut lines = Vec::new(alloc);
    let mut words = Vec::new(alloc);
    let mut bytes = Vec::new(alloc);
    let mut line: u32 = 1;
    let mut begins = true;
    let mut is_comment = false;
    for byte in text {
        is_comment = is_comment || (begins && *byte == b'c');
        begins = *byte == b'\n';
        if *byte == b' ' || *byte == b'\t' || *byte == b'\r' || begins {
            end_word(rt, alloc, &mut words, &mut bytes, line);
        } else if !is_comment {
            put(rt, &mut bytes, *byte);
        }
        if begins {
            put(rt, &mut lines, mem::replace(&mut words, Vec::new(alloc)));
            line = line.saturating_add(1);
            is_comment = false;
        }
    }
    end_word(rt, alloc, &mut words, &mut bytes, line);
    put(rt, &mut lines, words);
    lines
}

fn end_word(rt: &impl Abort, alloc: Global, words: &mut Vec<Word>, bytes: &mut Vec<u8>, line: u32) {
    if !bytes.is_empty() {
        let bytes = mem::replace(bytes, Vec::new(alloc));
        put(rt, words, Word { line, bytes });
    }
}

/// The number of digits without a leading zero. One that is too great for 64 bits is the greatest there.
fn natural(word: &[u8]) -> Option<i64> {
    if word.is_empty() || (word.len() > 1 && word[0] == b'0') {
        return None;
    }
    let mut value: i64 = 0;
    for byte in word {
        if *byte < b'0' || *byte > b'9' {
            return None;
        }
        value = value
            .saturating_mul(10)
            .saturating_add(i64::from(*byte - b'0'));
    }
    Some(value)
}

fn opposite(number: i64) -> i64 {
    0i64.saturating_sub(number)
}

fn integer(word: &[u8]) -> Option<i64> {
    match word {
        [b'-', size @ ..] => match natural(size) {
            None | Some(0) => None,
            Some(value) => Some(opposite(value)),
        },
        _ => natural(word),
    }
}

fn natural_within(word: &[u8], most: i64) -> Option<i64> {
    match natural(word) {
        Some(value) if value <= most => Some(value),
        _ => None,
    }
}

fn integer_within(word: &[u8], most: i64) -> Option<i64> {
    match integer(word) {
        Some(value) if value <= most && opposite(value) <= most => Some(value),
        _ => None,
    }
}

/// The clauses of a formula, or the line that is bad.
fn formula(rt: &impl Abort, alloc: Global, text: &[u8]) -> Result<Vec<Vec<i64>>, u32> {
    let lines = lines(rt, alloc, text);
    let mut clauses = Vec::new(alloc);
    let mut clause = Vec::new(alloc);
    let mut place: u32 = 0;
    let mut header: u32 = 0;
    let mut variables = 0;
    let mut count = 0;
    let mut last: u32 = 0;
    for words in &lines {
        last = last.saturating_add(1);
        for word in words {
            let bytes = word.bytes.as_slice();
            let value = if place == 0 {
                header = word.line;
                if bytes == b"p".as_slice() {
                    Some(0)
                } else {
                    None
                }
            } else if place == 1 {
                if bytes == b"cnf".as_slice() {
                    Some(0)
                } else {
                    None
                }
            } else if place == 2 {
                natural_within(bytes, 10_000_000)
            } else if place == 3 {
                natural_within(bytes, 100_000_000)
            } else if (clauses.len() as i64) < count {
                integer_within(bytes, variables)
            } else {
                None
            };
            let Some(value) = value else {
                return Err(word.line);
            };
            if (place < 4) != (word.line == header) {
                return Err(word.line);
            }
            if place == 2 {
                variables = value;
            } else if place == 3 {
                count = value;
            } else if place == 4 && value != 0 {
                put(rt, &mut clause, value);
            } else if place == 4 {
                put(rt, &mut clauses, mem::replace(&mut clause, Vec::new(alloc)));
            }
            if place < 4 {
                place += 1;
            }
        }
    }
    if place == 4 && clauses.len() as i64 == count {
        Ok(clauses)
    } else {
        Err(last)
    }
}

/// The numbers up to a 0, which are integers of at most this size, and how many words they and the 0 are.
fn to_zero(rt: &impl Abort, alloc: Global, words: &[Word], most: i64) -> Option<(Vec<i64>, usize)> {
    let mut numbers = Vec::new(alloc);
    for place in 0..words.len() {
        let value = integer_within(words[place].bytes.as_slice(), most)?;
        if value == 0 {
            return Some((numbers, place + 1));
        }
        put(rt, &mut numbers, value);
    }
    None
}

/// The entry that words say.
fn entry_said(rt: &impl Abort, alloc: Global, words: &[Word], last: i64) -> Option<Entry> {
    let [id, rest @ ..] = words else {
        return None;
    };
    let line = id.line;
    let id = natural_within(id.bytes.as_slice(), 4_294_967_295)?;
    let (clause, many) = to_zero(rt, alloc, rest, 2_147_483_647)?;
    if many > rest.len() {
        return None;
    }
    let behind = &rest[many..];
    let (hints, many) = to_zero(rt, alloc, behind, i64::MAX)?;
    if id > last && many == behind.len() {
        Some(Entry {
            line,
            id,
            clause,
            hints,
        })
    } else {
        None
    }
}

/// Whether words are a deletion.
fn is_deletion(words: &[Word]) -> bool {
    let [id, _, rest @ .., zero] = words else {
        return false;
    };
    for word in rest {
        match natural_within(word.bytes.as_slice(), 4_294_967_295) {
            None | Some(0) => return false,
            Some(_) => {}
        }
    }
    zero.bytes.as_slice() == b"0".as_slice()
        && natural_within(id.bytes.as_slice(), 4_294_967_295).is_some()
}

/// The entries of a log behind so many clauses, or the line that is bad.
fn entries(rt: &impl Abort, alloc: Global, text: &[u8], first: i64) -> Result<Vec<Entry>, u32> {
    let lines = lines(rt, alloc, text);
    let mut entries = Vec::new(alloc);
    let mut last = first;
    for words in &lines {
        match words.as_slice() {
            [] => {}
            [word] => return Err(word.line),
            [word, second, ..] if second.bytes.as_slice() == b"d".as_slice() => {
                if !is_deletion(words) {
                    return Err(word.line);
                }
            }
            [word, ..] => {
                let Some(entry) = entry_said(rt, alloc, words, last) else {
                    return Err(word.line);
                };
                last = entry.id;
                put(rt, &mut entries, entry);
            }
        }
    }
    Ok(entries)
}

fn is_among(numbers: &[i64], number: i64) -> bool {
    for other in numbers {
        if *other == number {
            return true;
        }
    }
    false
}

/// The clause that a hint names among the first ones and those of the entries before.
fn named<'a>(formula: &'a [Vec<i64>], before: &'a [Entry], hint: i64) -> Option<&'a [i64]> {
    if hint >= 1 {
        if let Some(clause) = formula.get((hint - 1) as usize) {
            return Some(clause.as_slice());
        }
    }
    for entry in before {
        if entry.id == hint {
            return Some(entry.clause.as_slice());
        }
    }
    None
}

/// What a clause leaves where these numbers are true: nothing (0), one number that has no value, or no such (none).
fn left(known: &[i64], clause: &[i64]) -> Option<i64> {
    let mut open = 0;
    for literal in clause {
        if is_among(known, opposite(*literal)) {
            continue;
        }
        if is_among(known, *literal) || (open != 0 && open != *literal) {
            return None;
        }
        open = *literal;
    }
    Some(open)
}

fn is_shown(
    rt: &impl Abort,
    alloc: Global,
    formula: &[Vec<i64>],
    before: &[Entry],
    entry: &Entry,
) -> bool {
    let mut known = Vec::new(alloc);
    for literal in &entry.clause {
        if is_among(entry.clause.as_slice(), opposite(*literal)) {
            return true;
        }
        put(rt, &mut known, opposite(*literal));
    }
    for hint in &entry.hints {
        let Some(clause) = named(formula, before, *hint) else {
            return false;
        };
        match left(known.as_slice(), clause) {
            None => return false,
            Some(0) => return true,
            Some(literal) => put(rt, &mut known, literal),
        }
    }
    false
}

/// Whether a number is below 0.
fn is_one_below(numbers: &[i64]) -> bool {
    for number in numbers {
        if *number < 0 {
            return true;
        }
    }
    false
}

/// The judgement on two texts.
pub fn plainly_judged(rt: &impl Abort, alloc: Global, cnf: &[u8], log: &[u8]) -> Judgement {
    let formula = match formula(rt, alloc, cnf) {
        Ok(formula) => formula,
        Err(line) => return Judgement::BadCnf(line),
    };
    let entries = match entries(rt, alloc, log, formula.len() as i64) {
        Ok(entries) => entries,
        Err(line) => return Judgement::BadLog(line),
    };
    for place in 0..entries.len() {
        let entry = &entries[place];
        if is_one_below(entry.hints.as_slice()) {
            return Judgement::Rat(entry.line);
        }
        if !is_shown(rt, alloc, formula.as_slice(), &entries[..place], entry) {
            return Judgement::NotShown(entry.line);
        }
        if entry.clause.is_empty() {
            return Judgement::Verified;
        }
    }
    Judgement::NoRefutation
}
