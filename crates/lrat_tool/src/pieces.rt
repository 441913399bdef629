//! Entries of a log, checked by any number of workers.

ghost use Rattle.std.specs.Prelude.{◌≡◌, ◌≤◌, ◌<◌, ◌^◌, ◌-◌, ℕ, ℤ, List, [], ◌++◌, length, take, get_or, All, IfOk, option_map, is_none, vec_len, slice_index_or};
ghost use Rattle.cnf_rup.specs.Marked.{AreWithin, IsOpenUnit};
ghost use Rattle.cnf_rup.specs.Shown.{clause_at};
ghost use Rattle.lrat_tool.specs.Pieces.{AreChecked, AreNumbered, EachFound, Follow, IsFoundAmong, IsFoundOf, is_right_at, joined_of, log_seen, place_at, stop_of, turn_for, unshown_at};

use super::flat::Clauses;
use super::found::Found;
use super::log::Log;
use super::piece::Piece;
use super::places::place_of;
use cnf_rup::check::{is_one_true, take_as_false, turn};
use cnf_rup::clause_status::ClauseStatus;
use cnf_rup::trail::Trail;
use gl_logic::NoMemory;
use std::alloc::{AllocError, Global};
use std::thread::{self, Threads};

/// A clause by its place: of the formula, or of so many clauses behind it.
fn clause_named<'a>(
    formula: &'a Clauses,
    clauses: &'a Clauses,
    before: usize,
    place: u32,
) -> Option<&'a [i32]>
    requires { before ≤ length clauses.now.lists }
    ensures { option_map (λ c. c.now) result ≡ clause_at (formula.now.lists ++ take before clauses.now.lists) place }
{
    if place == 0 {
        return None;
    }
    let place = place as usize - 1;
    if place < formula.len() {
        return Some(formula.at(place));
    }
    let place = place - formula.len();
    if place < before {
        Some(clauses.at(place))
    } else {
        None
    }
}

/// The place of the clause that a hint names, of the formula's and so many behind them.
fn place_named(formula: &Clauses, log: &Log, k: usize, hint: u32) -> u32
    requires within { k ≤ length log.now.clauses.lists }
    requires numbered { AreNumbered formula.now log.now }
    ensures { result ≡ place_at (log_seen formula.now log.now) k hint }
{
    let ids = log.ids.as_slice();
    place_of(&ids[..k], formula.len() as u32, hint)
}

/// What the clause is that a hint names.
fn status_named(trail: &Trail, formula: &Clauses, log: &Log, k: usize, hint: u32) -> ClauseStatus
    requires within { k ≤ length log.now.clauses.lists }
    requires checked { AreChecked trail.now.room formula.now log.now }
    ensures turn { result ≡ turn_for (log_seen formula.now log.now) k trail.now.literals hint }
    ensures unit { (l : ℤ) → result ≡ ClauseStatus.Unit l → IsOpenUnit trail.now.room trail.now.literals l }
{
    let place = place_named(formula, log, k, hint);
    match clause_named(formula, &log.clauses, k, place) {
        None => ClauseStatus::Neither,
        Some(clause) => turn(trail, clause),
    }
}

/// Whether hints come to a conflict.
fn follow(
    trail: &mut Trail,
    formula: &Clauses,
    log: &Log,
    k: usize,
    hints: &[u32],
) -> Result<bool, NoMemory>
    requires within { k ≤ length log.now.clauses.lists }
    requires checked { AreChecked trail.old.room formula.now log.now }
    ensures shown { IfOk result (λ r. r ≡ is_none (stop_of (log_seen formula.now log.now) k trail.old.literals 0 hints.now)) }
    ensures room { trail.new.room ≡ trail.old.room }
{
    for hint in hints {
        match status_named(trail, formula, log, k, *hint) {
            ClauseStatus::Conflict => return Ok(true),
            ClauseStatus::Unit(literal) => trail.set(literal)?,
            ClauseStatus::Neither => return Ok(false),
        }
    }
    Ok(false)
}

/// Whether hints show a clause from those before it.
fn is_shown(trail: &mut Trail, formula: &Clauses, log: &Log, k: usize) -> Result<bool, NoMemory>
    requires within { k < length log.now.clauses.lists }
    requires checked { AreChecked trail.old.room formula.now log.now }
    ensures shown { IfOk result (λ r. r ≡ is_none (unshown_at (log_seen formula.now log.now) k)) }
    ensures room { trail.new.room ≡ trail.old.room }
{
    trail.clear();
    let clause = log.clauses.at(k);
    take_as_false(trail, clause)?;
    if is_one_true(trail, clause) {
        return Ok(true);
    }
    follow(trail, formula, log, k, log.hints.at(k))
}

/// Whether an entry has no hint below 0, and its hints show it from the clauses before it.
fn is_right(trail: &mut Trail, formula: &Clauses, log: &Log, k: usize) -> Result<bool, NoMemory>
    requires within { k < length log.now.clauses.lists }
    requires checked { AreChecked trail.old.room formula.now log.now }
    ensures right { IfOk result (λ r. r ≡ is_right_at (log_seen formula.now log.now) k) }
    ensures room { trail.new.room ≡ trail.old.room }
{
    if log.rats[k] {
        return Ok(false);
    }
    is_shown(trail, formula, log, k)
}

/// Checks the entries of a piece, up to the first that is wrong.
fn check_piece(alloc: Global, formula: &Clauses, log: &Log, room: usize, piece: Piece) -> Found
    requires end { piece.end ≤ length log.now.clauses.lists }
    requires checked { AreChecked room formula.now log.now }
    ensures { IsFoundOf (log_seen formula.now log.now) piece result }
{
    let mut trail = Trail::new(alloc);
    let Ok(()) = trail.widen(room) else {
        return Found::Memory;
    };
    for k in piece.first..piece.end {
        match is_right(&mut trail, formula, log, k as usize) {
            Ok(true) => {}
            Ok(false) => return Found::At(k),
            Err(_) => return Found::Memory,
        }
    }
    Found::None
}

/// The first answer that is one.
fn joined(answers: &[Found]) -> Found
    ensures { result ≡ joined_of answers.now }
{
    for answer in answers {
        match answer {
            Found::None => {}
            Found::At(k) => return Found::At(*k),
            Found::Memory => return Found::Memory,
        }
    }
    Found::None
}

/// What is found of the entries of each piece, each by a worker.
fn answers<R: Threads + Sync>(
    rt: &R,
    alloc: Global,
    formula: &Clauses,
    log: &Log,
    room: usize,
    pieces: Vec<Piece>,
    end: u32,
) -> Result<Vec<Found>, AllocError>
    requires pieces { Follow 0 pieces.items end }
    requires end { end ≤ length log.now.clauses.lists }
    requires checked { AreChecked room formula.now log.now }
    ensures count { IfOk result (λ v. vec_len v ≡ vec_len pieces) }
    ensures each { IfOk result (λ v. EachFound (log_seen formula.now log.now) pieces.items v.items) }
{
    let each = |piece: Piece| -> Found
        requires { (piece.end ≤ length log.now.clauses.lists) × AreChecked room formula.now log.now }
        ensures { IsFoundOf (log_seen formula.entry.now log.entry.now) piece result }
    { check_piece(alloc, formula, log, room, piece) };
    // Read for what it tells of the pieces: they end within the log.
    let _end = end;
    thread::map_vec(rt, pieces, &each)
}

/// The first of so many entries that is wrong, whatever the pieces.
pub(crate) fn first_wrong_entry<R: Threads + Sync>(
    rt: &R,
    alloc: Global,
    formula: &Clauses,
    log: &Log,
    room: usize,
    pieces: Vec<Piece>,
    end: u32,
) -> Found
    requires pieces { Follow 0 pieces.items end }
    requires end { end ≤ length log.now.clauses.lists }
    requires checked { AreChecked room formula.now log.now }
    ensures { IsFoundAmong (log_seen formula.now log.now) 0 end result }
{
    match answers(rt, alloc, formula, log, room, pieces, end) {
        Ok(answers) => joined(answers.as_slice()),
        Err(_) => Found::Memory,
    }
}
