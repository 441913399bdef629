//! The book.

ghost use Rattle.std.specs.Prelude.{◌≡◌, ◌≤◌, ◌<◌, ◌+◌, ◌-◌, ◌^◌, [], All, length, take, slice_get, get_or, Some, IfOk, OnOk, OnErr, ◌++◌, ◌∷◌, ◌||◌};
ghost use Rattle.cnf_rup.specs.Literals.{IsClause, IsUpTo};
ghost use Rattle.cnf_rup.specs.Marked.{AreWithin};
ghost use Rattle.cnf_rup.specs.Books.{AllFollow, IsAnswer, IsBook, clauses_of, holds_empty, is_empty};

use super::check::check;
use super::clause::{Clause, Entry, Hints};
use super::trail::Trail;
use gl_logic::NoMemory;
use std::alloc::Global;
use std::marker::Model;

/// What came of a clause that was proposed.
#[derive(Clone, Copy, Debug, PartialEq, Eq)]
pub enum Learn {
    /// The hints show the clause, and it has this number in the book.
    Taken(u32),
    /// They don't. The hint at this place, from 0, is the first that names no clause or is not unit at its turn; or this is
    /// the count of hints, and each is unit.
    NotShown(u32),
}

/// A list of clauses, numbered from 1. Behind the first ones each was shown by its hints from those before it.
#[derive(Drop)]
pub struct ClauseBook {
    alloc: Global,
    entries: Vec<Entry>,
    /// How many clauses were there at first.
    first: u32,
    /// Whether the empty clause is among them.
    empty: bool,
    trail: Trail,
}

impl Model for ClauseBook {
    ghost use Rattle.std.specs.Prelude.{◌≡◌, All};
    ghost use Rattle.cnf_rup.specs.Marked.{AreWithin};
    ghost use Rattle.cnf_rup.specs.Books.{BookSeen, IsBook, holds_empty};

    ghost Value = { BookSeen };

    ghost view = { λ b. record { entries = b.entries.items; first = b.first } };

    ghost invariant = { λ b. IsBook (record { entries = b.entries.items; first = b.first }) × (b.empty ≡ holds_empty b.entries.items) × All (λ e. AreWithin b.trail.room e.clause) b.entries.items };
}

impl ClauseBook {
    /// A book of these entries, whose variables are at most `variables`. All are first clauses.
    pub(crate) fn of(
        alloc: Global,
        entries: Vec<Entry>,
        variables: u32,
    ) -> Result<ClauseBook, NoMemory>
        requires small { length entries.items < 2 ^ 32 }
        requires variables { variables < 2 ^ 31 }
        requires clauses { All (λ e. IsClause e.clause) entries.items }
        requires within { All (λ e. IsUpTo variables e.clause) entries.items }
        requires bare { All (λ e. e.hints ≡ []) entries.items }
        ensures { IfOk result (λ b. b ≡ record { entries = entries.items; first = length entries.items }) }
    {
        let mut trail = Trail::new(alloc);
        trail.widen(2 * variables as usize + 1)?;
        let empty = holds_empty(&entries);
        Ok(ClauseBook {
            alloc,
            first: entries.len() as u32,
            entries,
            empty,
            trail,
        })
    }

    /// A book of the same first clauses, which has learned none.
    pub(crate) fn beginning(&self) -> Result<ClauseBook, NoMemory>
        ensures { IfOk result (λ b. b ≡ record { entries = take self.now.first self.now.entries; first = self.now.first }) }
    {
        let entries = copies(self.alloc, &self.entries, self.first)?;
        let mut trail = Trail::new(self.alloc);
        trail.widen(self.trail.room())?;
        let empty = holds_empty(&entries);
        Ok(ClauseBook {
            alloc: self.alloc,
            first: self.first,
            entries,
            empty,
            trail,
        })
    }

    /// Takes a clause exactly where the hints show it.
    ///
    /// The clause's literals are taken as false. Then each hint in turn has to name a clause of the book that has all its
    /// literals false, which ends the check, or all but one, which has no value yet and is taken as true. A clause with a
    /// literal and its complement is taken in any case. The time is in proportion to the literals of the clause and of the
    /// clauses that the hints name, and once to a greatest variable that is new to the book. Where memory runs out the book
    /// is as before.
    pub fn learn(&mut self, clause: &Clause, hints: &Hints) -> Result<Learn, NoMemory>
        requires room { length self.old.entries < 4294967295 }
        requires clause { IsClause clause.now }
        requires hints { All (λ h. 0 < h) hints.now }
        ensures answer { IfOk result (λ r. IsAnswer self.old self.new (record { clause = clause.now; hints = hints.now }) r) }
        ensures refused { OnErr result (self.new ≡ self.old) }
    {
        let literals = clause.as_slice();
        self.trail.widen(marks_for(literals))?;
        if let Some(place) = check(&mut self.trail, &self.entries, literals, hints.as_slice())? {
            return Ok(Learn::NotShown(place));
        }
        push_copy(self.alloc, &mut self.entries, clause, hints)?;
        self.empty = empty_with(self.empty, clause);
        Ok(Learn::Taken(self.entries.len() as u32))
    }

    /// Whether the empty clause is in the book. Then nothing satisfies the first clauses.
    pub fn empty_shown(&self) -> bool
        ensures { result ≡ holds_empty self.now.entries }
    {
        self.empty
    }

    /// How many clauses there are. Each one follows from the first ones.
    pub fn count(&self) -> u32
        ensures count { result ≡ length self.now.entries }
        ensures book { IsBook self.now }
        ensures follow { AllFollow self.now }
    {
        // Read for what it tells of the entries: each follows from the first ones.
        let _first = self.first;
        self.entries.len() as u32
    }

    /// How many clauses there were at first.
    pub fn first_count(&self) -> u32
        ensures first { result ≡ self.now.first }
        ensures within { result ≤ length self.now.entries }
    {
        // Read for what it tells of the entries: the first ones are among them.
        let _count = self.entries.len();
        self.first
    }

    /// The clause of this number, from 1 to the count.
    pub fn clause(&self, id: u32) -> &Clause
        requires some { 1 ≤ id }
        requires within { id ≤ length self.now.entries }
        ensures { slice_get (clauses_of self.now.entries) (id - 1) ≡ Some result.now }
    {
        &self.entries[id as usize - 1].clause
    }

    /// The clause of this number with its hints, from 1 to the count.
    pub fn entry(&self, id: u32) -> &Entry
        requires some { 1 ≤ id }
        requires within { id ≤ length self.now.entries }
        ensures { slice_get self.now.entries (id - 1) ≡ Some result.now }
    {
        &self.entries[id as usize - 1]
    }
}

/// Whether the empty clause is among the entries.
fn holds_empty(entries: &[Entry]) -> bool
    ensures { result ≡ holds_empty entries.now }
{
    for entry in entries {
        if entry.clause.len() == 0 {
            return true;
        }
    }
    false
}

/// Puts a copy of a clause and of its hints last.
fn push_copy(
    alloc: Global,
    entries: &mut Vec<Entry>,
    clause: &Clause,
    hints: &Hints,
) -> Result<(), NoMemory>
    ensures ok { OnOk result (entries.new.items ≡ entries.old.items ++ record { clause = clause.now; hints = hints.now } ∷ []) }
    ensures err { OnErr result (entries.new.items ≡ entries.old.items) }
{
    let entry = Entry {
        clause: clause.copy(alloc)?,
        hints: hints.copy(alloc)?,
    };
    entries.push(entry)?;
    Ok(())
}

/// Copies of the first entries, so many.
fn copies(alloc: Global, entries: &[Entry], count: u32) -> Result<Vec<Entry>, NoMemory>
    requires { count ≤ length entries.now }
    ensures { IfOk result (λ c. c.items ≡ take count entries.now) }
{
    let mut copies = Vec::new(alloc);
    for place in 0..count {
        let entry = &entries[place as usize];
        push_copy(alloc, &mut copies, &entry.clause, &entry.hints)?;
    }
    Ok(copies)
}

/// Whether the empty clause is there, with this clause.
#[tactic(auto, using(crate::proofs::Logs::empty_true, crate::proofs::Logs::empty_false))]
fn empty_with(empty: bool, clause: &Clause) -> bool
    ensures { result ≡ (empty || is_empty clause.now) }
{
    empty || clause.len() == 0
}

/// How many marks a clause needs.
fn marks_for(clause: &[i32]) -> usize
    requires { IsClause clause.now }
    ensures within { AreWithin result clause.now }
    ensures small { result < 2 ^ 32 }
{
    let mut most = 0;
    for literal in clause {
        most = most.max(literal.unsigned_abs());
    }
    2 * most as usize + 1
}
