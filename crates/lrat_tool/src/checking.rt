//! The judgement on a formula and a log.

ghost use Rattle.std.specs.Prelude.{◌≡◌, ◌≤◌, ◌<◌, ◌+◌, ◌^◌, ℕ, List, Bool, true, length, get_or, false, All, Ok, IfOk, OnOk, if◌then◌else◌};
ghost use Rattle.std.specs.List.{list_any};
ghost use Rattle.cnf_rup.specs.Books.{is_empty};
ghost use Rattle.cnf_rup.specs.Marked.{AreWithin};
ghost use Rattle.lrat_tool.specs.Formulas.{formula_meant};
ghost use Rattle.lrat_tool.specs.Held.{IsHeld, fault_at};
ghost use Rattle.lrat_tool.specs.Judgements.{judged, judgement};
ghost use Rattle.lrat_tool.specs.Logs.{LogEntry};
ghost use Rattle.lrat_tool.specs.Models.{HasNoModel};
ghost use Rattle.lrat_tool.specs.Pieces.{AreNumbered, Follow, IsFoundAmong, log_seen};
ghost use Rattle.lrat_tool.specs.Ranks.{AreRenamed};
ghost use Rattle.lrat_tool.specs.Ends.{to_empty};

use super::bad_text::BadText;
use super::flat::Clauses;
use super::formula::read_formula;
use super::found::Found;
use super::hint_lists::HintLists;
use super::joining::read_log_by;
use super::judgement::Judgement;
use super::log::Log;
use super::piece::Piece;
use super::pieces::first_wrong_entry;
use super::ranks::Ranks;
use gl_logic::NoMemory;
use std::alloc::Global;
use std::thread::Threads;

/// How many clauses there are up to the first empty one, that one included.
fn end_of(clauses: &Clauses) -> usize
    ensures value { result ≡ to_empty clauses.now.lists }
    ensures within { result ≤ length clauses.now.lists }
{
    for k in 0..clauses.len() {
        if clauses.at(k).is_empty() {
            return k + 1;
        }
    }
    clauses.len()
}

/// Whether one of so many clauses, up to the first empty one, is empty.
fn is_refuted(clauses: &Clauses, end: usize) -> bool
    requires { end ≡ to_empty clauses.now.lists }
    ensures { result ≡ list_any is_empty clauses.now.lists }
{
    end > 0 && clauses.at(end - 1).is_empty()
}

/// The room that the literals of a clause need in a trail, and this much at least.
fn room_of_clause(clause: &[i32], least: usize) -> usize
    requires { least < 2 ^ 33 }
    ensures least { least ≤ result }
    ensures within { AreWithin result clause.now }
    ensures most { result < 2 ^ 33 }
{
    let mut room = least;
    for literal in clause {
        let needed = 2 * (literal.unsigned_abs() as usize) + 1;
        room = room.max(needed);
    }
    room
}

/// The room that the literals of clauses need in a trail, and this much at least.
fn room_of(clauses: &Clauses, least: usize) -> usize
    requires { least < 2 ^ 33 }
    ensures least { least ≤ result }
    ensures within { All (AreWithin result) clauses.now.lists }
    ensures most { result < 2 ^ 33 }
{
    let mut room = least;
    for k in 0..clauses.len() {
        room = room_of_clause(clauses.at(k), room);
    }
    room
}

/// The first entry from these bounds that has so many hints before it, or the end.
fn behind_hints(hints: &HintLists, first: u32, end: u32, many: u64) -> u32
    requires { first ≤ end }
    ensures first { first ≤ result }
    ensures end { result ≤ end }
{
    let mut at = first;
    while at < end && u64::from(hints.before(at as usize)) < many {
        at += 1;
    }
    at
}

/// As many pieces of so many entries as there are workers, each with about as many hints.
fn pieces_of(
    alloc: Global,
    hints: &HintLists,
    end: u32,
    workers: u32,
) -> Result<Vec<Piece>, NoMemory>
    requires { 1 ≤ workers }
    ensures { IfOk result (λ v. Follow 0 v.items end) }
{
    let total = u64::from(hints.before(end as usize));
    let mut pieces = Vec::new(alloc);
    let mut first = 0;
    for done in 1..workers {
        let next = behind_hints(
            hints,
            first,
            end,
            total * u64::from(done) / u64::from(workers),
        );
        pieces.push(Piece { first, end: next })?;
        first = next;
    }
    pieces.push(Piece { first, end })?;
    Ok(pieces)
}

/// Numbers the variables of clauses anew where the greatest is above ten times the literals: the marks of a trail take room
/// in proportion to it.
fn rename(alloc: Global, formula: &mut Clauses, clauses: &mut Clauses) -> Result<(), NoMemory>
    ensures { OnOk result (AreRenamed formula.old.lists clauses.old.lists formula.new.lists clauses.new.lists) }
{
    let literals = formula
        .literal_count()
        .saturating_add(clauses.literal_count());
    if room_of(clauses, room_of(formula, 0)) / 20 <= literals {
        return Ok(());
    }
    let mut ranks = Ranks::new(alloc);
    formula.rename(alloc, &mut ranks)?;
    clauses.rename(alloc, &mut ranks)
}

/// The first of so many entries that is wrong. Variables are numbered anew where they are great.
fn first_wrong<R: Threads + Sync>(
    rt: &R,
    alloc: Global,
    formula: &mut Clauses,
    log: &mut Log,
    pieces: Vec<Piece>,
    end: u32,
) -> Found
    requires pieces { Follow 0 pieces.items end }
    requires end { end ≤ length log.old.clauses.lists }
    requires hints { length log.old.hints.lists ≡ length log.old.clauses.lists }
    requires rats { length log.old.rats.items ≡ length log.old.clauses.lists }
    requires numbered { AreNumbered formula.old log.old }
    ensures found { IsFoundAmong (log_seen formula.old log.old) 0 end result }
    ensures rats { log.new.rats ≡ log.old.rats }
    ensures lines { log.new.lines ≡ log.old.lines }
{
    let Ok(()) = rename(alloc, formula, &mut log.clauses) else {
        return Found::Memory;
    };
    let room = room_of(&log.clauses, room_of(formula, 0));
    if room > u32::MAX as usize {
        return Found::Memory;
    }
    first_wrong_entry(rt, alloc, formula, log, room, pieces, end)
}

/// What is wrong with an entry that is.
fn wrong_with(log: &Log, k: usize) -> Judgement
    requires rats { k < length log.now.rats.items }
    requires lines { k < length log.now.lines.items }
    ensures { result ≡ fault_at log.now k }
{
    if log.rats[k] {
        Judgement::Rat(log.lines[k])
    } else {
        Judgement::NotShown(log.lines[k])
    }
}

/// What is said of entries behind a formula.
fn judge_entries<R: Threads + Sync>(
    rt: &R,
    alloc: Global,
    formula: &mut Clauses,
    log: &mut Log,
    workers: u32,
) -> Result<Judgement, NoMemory>
    requires held { (es : List LogEntry) × IsHeld (length formula.old.lists) es log.old }
    requires few { length formula.old.lists < 4294967296 }
    requires workers { 1 ≤ workers }
    ensures { (es : List LogEntry) → IsHeld (length formula.old.lists) es log.old → IfOk result (λ j. j ≡ judged formula.old.lists es) }
{
    let end = end_of(&log.clauses);
    let refuted = is_refuted(&log.clauses, end);
    let Ok(count) = u32::try_from(end) else {
        return Err(NoMemory);
    };
    let pieces = pieces_of(alloc, &log.hints, count, workers)?;
    match first_wrong(rt, alloc, formula, log, pieces, count) {
        Found::Memory => Err(NoMemory),
        Found::At(k) => Ok(wrong_with(log, k as usize)),
        Found::None => Ok(if refuted {
            Judgement::Verified
        } else {
            Judgement::NoRefutation
        }),
    }
}

/// What is said of two texts.
fn judge_texts<R: Threads + Sync>(
    rt: &R,
    alloc: Global,
    cnf: &[u8],
    log: &[u8],
    workers: u32,
) -> Result<Judgement, NoMemory>
    requires cnf { length cnf.now < 4294967295 }
    requires log { length log.now < 4294967295 }
    requires workers { 1 ≤ workers }
    ensures { IfOk result (λ j. j ≡ judgement cnf.now log.now) }
{
    let mut formula = match read_formula(alloc, cnf) {
        Ok(formula) => formula,
        Err(BadText::At(line)) => return Ok(Judgement::BadCnf(line)),
        Err(BadText::Memory) => return Err(NoMemory),
    };
    let Ok(first) = u32::try_from(formula.len()) else {
        return Err(NoMemory);
    };
    let mut entries = match read_log_by(rt, alloc, log, first, workers) {
        Ok(entries) => entries,
        Err(BadText::At(line)) => return Ok(Judgement::BadLog(line)),
        Err(BadText::Memory) => return Err(NoMemory),
    };
    judge_entries(rt, alloc, &mut formula, &mut entries, workers)
}

/// The judgement on a text of a formula in DIMACS and a text of a log in LRAT, by so many workers, which changes nothing
/// of the answer. The time is in proportion to the bytes, and to the literals of the clauses that hints name.
pub fn judge<R: Threads + Sync>(
    rt: &R,
    alloc: Global,
    cnf: &[u8],
    log: &[u8],
    workers: u32,
) -> Result<Judgement, NoMemory>
    requires cnf { length cnf.now < 4294967295 }
    requires log { length log.now < 4294967295 }
    requires one { 1 ≤ workers }
    requires eight { workers ≤ 8 }
    ensures judged { IfOk result (λ j. j ≡ judgement cnf.now log.now) }
    ensures sound { result ≡ Ok Judgement.Verified → IfOk (formula_meant cnf.now) HasNoModel }
{
    judge_texts(rt, alloc, cnf, log, workers)
}
