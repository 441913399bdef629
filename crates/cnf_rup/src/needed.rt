//! The clauses of a book that the empty clause needs.

ghost use Rattle.std.specs.Prelude.{◌≡◌, ◌≤◌, ◌<◌, ◌+◌, true, length, All, IfOk, IfSome};
ghost use Rattle.cnf_rup.specs.Books.{IsBook};
ghost use Rattle.cnf_rup.specs.Literals.{IsClause};
ghost use Rattle.cnf_rup.specs.Refutations.{IsRefutation};
ghost use Rattle.cnf_rup.specs.Trimmed.{IsShorter, IsTrimmed, LearnsClause};

use super::book::{ClauseBook, Learn};
use super::clause::{Entry, Hints};
use gl_logic::NoMemory;
use std::alloc::Global;

/// The number of the first empty clause; 0 where there is none.
fn first_empty(book: &ClauseBook) -> u32
    ensures { result ≤ length book.now.entries }
{
    for place in 0..book.count() {
        if book.clause(place + 1).len() == 0 {
            return place + 1;
        }
    }
    0
}

/// Marks the clauses that these hints name.
fn mark_named(needed: &mut Vec<bool>, hints: &[u32])
    ensures { length needed.new.items ≡ length needed.old.items }
{
    for hint in hints {
        let number = *hint as usize;
        if number < needed.len() {
            needed[number] = true;
        }
    }
}

/// A mark for each number of a clause, that is set where the first empty clause needs it: where it is that clause, or a hint
/// of a clause that is needed names it.
fn marks_of(alloc: Global, book: &ClauseBook) -> Result<Vec<bool>, NoMemory>
    ensures { IfOk result (λ n. length n.items ≡ length book.now.entries + 1) }
{
    let last = first_empty(book);
    let mut needed = vec![in alloc; false; book.count() as usize + 1]?;
    needed[last as usize] = true;
    for place in (0..last).rev() {
        if needed[place as usize + 1] {
            mark_named(&mut needed, book.entry(place + 1).hints.as_slice());
        }
    }
    Ok(needed)
}

/// The hints by the new numbers of the clauses that they name. One that names none is left out.
fn renumbered(alloc: Global, hints: &[u32], numbers: &[u32]) -> Result<Hints, NoMemory>
    ensures { IfOk result (λ h. All (λ n. 0 < n) h) }
{
    let mut again = Hints::new(alloc);
    for hint in hints {
        if let Some(number) = numbers.get(*hint as usize) {
            if *number != 0 {
                again.push(*number)?;
            }
        }
    }
    Ok(again)
}

/// Learns the clause of an entry, by its hints under their new numbers. Whether it was taken.
fn learn_again(
    alloc: Global,
    entry: &Entry,
    numbers: &[u32],
    shorter: &mut ClauseBook,
) -> Result<bool, NoMemory>
    requires room { length shorter.old.entries < 4294967295 }
    requires clause { IsClause entry.now.clause }
    ensures { IfOk result (λ t. t ≡ true → LearnsClause shorter.old shorter.new entry.now.clause) }
{
    let hints = renumbered(alloc, entry.hints.as_slice(), numbers)?;
    match shorter.learn(&entry.clause, &hints)? {
        Learn::Taken(_) => Ok(true),
        Learn::NotShown(_) => Ok(false),
    }
}

/// The numbers of the first clauses, which stay, each at its own place.
fn first_numbers(alloc: Global, count: u32) -> Result<Vec<u32>, NoMemory> {
    let mut numbers = Vec::new(alloc);
    for number in 0..count {
        numbers.push(number)?;
    }
    numbers.push(count)?;
    Ok(numbers)
}

/// A book of the same first clauses that has learned those that have a mark. None where one of them is not taken.
fn shorter_book(
    alloc: Global,
    book: &ClauseBook,
    needed: &[bool],
) -> Result<Option<ClauseBook>, NoMemory>
    requires { length needed.now ≡ length book.now.entries + 1 }
    ensures { IfOk result (λ r. IfSome r (λ b. IsShorter book.now b)) }
{
    let mut shorter = book.beginning()?;
    let mut numbers = first_numbers(alloc, book.first_count())?;
    for place in book.first_count()..book.count() {
        let entry = book.entry(place + 1);
        if !needed[place as usize + 1] {
            numbers.push(0)?;
            continue;
        }
        if !learn_again(alloc, entry, &numbers, &mut shorter)? {
            return Ok(None);
        }
        numbers.push(shorter.count())?;
    }
    Ok(Some(shorter))
}

/// The shorter book, where it comes out.
fn tried(alloc: Global, book: &ClauseBook) -> Result<Option<ClauseBook>, NoMemory>
    ensures { IfOk result (λ r. IfSome r (λ b. IsTrimmed book.now b)) }
{
    if !book.empty_shown() {
        return Ok(None);
    }
    let needed = marks_of(alloc, book)?;
    match shorter_book(alloc, book, &needed)? {
        Some(shorter) if shorter.empty_shown() => Ok(Some(shorter)),
        _ => Ok(None),
    }
}

/// The book without the clauses that its first empty clause does not need: a learned clause stays where that clause's hints
/// name it, or those of a clause that stays. Each is learned once more, by the same hints under their new numbers, so the
/// book that comes of it is checked like any other. Where there is no empty clause, a clause is refused or memory runs out,
/// it is the same book.
///
/// The time is that of the checks of the clauses that stay, and in proportion to the entries.
#[tactic(auto, using(crate::proofs::Trims::trimmed_refutes, crate::proofs::Trims::trimmed_same))]
pub fn trimmed(alloc: Global, book: ClauseBook) -> ClauseBook
    ensures trimmed { IsTrimmed book result }
    ensures book { IsBook result }
    ensures refutes { IsRefutation book → IsRefutation result }
{
    // Read for what it tells of the book, and below of the shorter one: each clause follows from the first ones.
    let _count = book.count();
    match tried(alloc, &book) {
        Ok(Some(shorter)) => {
            let _count = shorter.count();
            shorter
        }
        _ => book,
    }
}
