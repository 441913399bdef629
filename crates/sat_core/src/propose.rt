//! Clauses that are proposed to the book, which takes those that their hints show.

ghost use Rattle.std.specs.Prelude.{◌≡◌, ◌<◌, true, false, length, All, IfOk, OnOk};
ghost use Rattle.cnf_rup.specs.Literals.{IsClause};
ghost use Rattle.sat_core.specs.Decisions.{LearnsOne};

use super::analysis::Fixed;
use super::eliminate::Pair;
use super::literal::Literal;
use super::search::{Event, Search};
use cnf_rup::{Clause, ClauseBook, Hints, Learn};
use gl_logic::NoMemory;
use std::alloc::Global;

/// A clause of the search, in the book's variables. A number that is no literal is left out.
fn clause_of(alloc: Global, search: &Search, literals: &[Literal]) -> Result<Clause, NoMemory>
    ensures { IfOk result (λ c. IsClause c) }
{
    let mut clause = Clause::new(alloc);
    for literal in literals {
        let named = search.names.literal(*literal);
        if named != 0 && named != i32::MIN {
            clause.push(named)?;
        }
    }
    Ok(clause)
}

/// The number in the book of the clause that is a literal's reason; 0 where there is none.
fn reason_at(search: &Search, place: u32) -> u32 {
    match search.trail.literals().get(place as usize) {
        None => 0,
        Some(literal) => match search.trail.fact(literal.variable()).reason {
            None => 0,
            Some(reason) => reason.wrapping_add(1),
        },
    }
}

/// The hints that the search has found: the reasons in the order of the trail, and the conflict.
fn hints_of(alloc: Global, search: &Search, conflict: u32) -> Result<Hints, NoMemory>
    ensures { IfOk result (λ h. All (λ n. 0 < n) h) }
{
    let mut hints = Hints::new(alloc);
    for place in search.analysis.places() {
        let reason = reason_at(search, *place);
        if reason != 0 {
            hints.push(reason)?;
        }
    }
    if conflict < u32::MAX {
        hints.push(conflict + 1)?;
    }
    Ok(hints)
}

/// Proposes the clause that the search has found. Whether it was taken.
fn propose(
    alloc: Global,
    search: &Search,
    conflict: u32,
    book: &mut ClauseBook,
) -> Result<bool, NoMemory>
    requires { length book.old.entries < 4294967295 }
    ensures taken { IfOk result (λ t. t ≡ true → LearnsOne book.old book.new) }
    ensures refused { IfOk result (λ t. t ≡ false → book.new ≡ book.old) }
{
    let clause = clause_of(alloc, search, search.analysis.literals())?;
    let hints = hints_of(alloc, search, conflict)?;
    match book.learn(&clause, &hints)? {
        Learn::Taken(_) => Ok(true),
        Learn::NotShown(_) => Ok(false),
    }
}

/// Learns a clause that is true under every assignment, which any hints show. A right search never comes to it: it is there
/// so that a wrong one ends too.
fn learn_tautology(alloc: Global, book: &mut ClauseBook) -> Result<(), NoMemory>
    requires { length book.old.entries < 4294967295 }
    ensures { OnOk result (LearnsOne book.old book.new) }
{
    let mut clause = Clause::new(alloc);
    clause.push(1)?;
    clause.push(-1)?;
    let _taken = book.learn(&clause, &Hints::new(alloc))?;
    Ok(())
}

/// Learns what a conflict shows: the clause of the first unique implication point, or where its hints don't show it that of
/// the decisions. Whether one of the two was taken.
fn learn_conflict(
    alloc: Global,
    search: &mut Search,
    conflict: u32,
    book: &mut ClauseBook,
) -> Result<bool, NoMemory>
    requires { length book.old.entries < 4294967295 }
    ensures taken { IfOk result (λ t. t ≡ true → LearnsOne book.old book.new) }
    ensures refused { IfOk result (λ t. t ≡ false → book.new ≡ book.old) }
{
    if let Some(level) = search.analyse(conflict)? {
        if propose(alloc, search, conflict, book)? {
            search.take_in(level)?;
            return Ok(true);
        }
    }
    let level = search.blame_decisions()?;
    if propose(alloc, search, conflict, book)? {
        search.take_in(level)?;
        return Ok(true);
    }
    Ok(false)
}

/// The hints of a resolvent: the two clauses.
fn hints_of_pair(alloc: Global, pair: Pair) -> Result<Hints, NoMemory>
    ensures { IfOk result (λ h. All (λ n. 0 < n) h) }
{
    let mut hints = Hints::new(alloc);
    if pair.definition < u32::MAX && pair.other < u32::MAX {
        hints.push(pair.definition + 1)?;
        hints.push(pair.other + 1)?;
    }
    Ok(hints)
}

/// Learns the resolvent that the search has made, of these clauses. Whether it was taken.
fn learn_resolvent(
    alloc: Global,
    search: &mut Search,
    pair: Pair,
    book: &mut ClauseBook,
) -> Result<bool, NoMemory>
    requires { length book.old.entries < 4294967295 }
    ensures taken { IfOk result (λ t. t ≡ true → LearnsOne book.old book.new) }
    ensures refused { IfOk result (λ t. t ≡ false → book.new ≡ book.old) }
{
    let clause = clause_of(alloc, search, search.resolvent())?;
    let hints = hints_of_pair(alloc, pair)?;
    match book.learn(&clause, &hints)? {
        Learn::Taken(_) => {
            search.take_resolvent(pair)?;
            Ok(true)
        }
        Learn::NotShown(_) => Ok(false),
    }
}

/// Learns the unit clause of a literal of level 0. Whether it was taken.
fn learn_fixed(
    alloc: Global,
    search: &mut Search,
    fixed: Fixed,
    book: &mut ClauseBook,
) -> Result<bool, NoMemory>
    requires { length book.old.entries < 4294967295 }
    ensures taken { IfOk result (λ t. t ≡ true → LearnsOne book.old book.new) }
    ensures refused { IfOk result (λ t. t ≡ false → book.new ≡ book.old) }
{
    if search.blame_reason(fixed)? && propose(alloc, search, fixed.reason, book)? {
        search.take_fixed(fixed)?;
        return Ok(true);
    }
    Ok(false)
}

/// Learns one clause: what the search has come to.
pub fn learn_next(
    alloc: Global,
    search: &mut Search,
    event: Event,
    book: &mut ClauseBook,
) -> Result<(), NoMemory>
    requires { length book.old.entries < 4294967295 }
    ensures { OnOk result (LearnsOne book.old book.new) }
{
    let taken = match event {
        Event::Conflict(conflict) => learn_conflict(alloc, search, conflict, book)?,
        Event::Resolvent(pair) => learn_resolvent(alloc, search, pair, book)?,
        Event::Fixed(fixed) => learn_fixed(alloc, search, fixed, book)?,
        Event::Model => false,
    };
    if taken {
        return Ok(());
    }
    learn_tautology(alloc, book)?;
    search.begin_again()
}
