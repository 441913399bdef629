//! Lists of numbers, one behind another in one vector.

ghost use Rattle.std.specs.Prelude.{◌≡◌, ◌<◌, ◌≤◌, ◌^◌, ℕ, List, [], ◌∷◌, ◌++◌, ◌+◌, length, map, get_or, IfOk, OnOk, OnErr};
ghost use Rattle.sexp_print.specs.Printed.{BeginsWith};
ghost use Rattle.lrat_tool.specs.Flat.{ArePlaces, cut};
ghost use Rattle.lrat_tool.specs.Ranks.{ranked};

use super::ranks::Ranks;
use gl_logic::NoMemory;
use std::alloc::Global;
use std::marker::Model;

/// Lists of literals, and behind the last one literals of a list that has not ended yet. Contracts see the lists.
#[derive(Drop)]
pub(crate) struct Clauses {
    literals: Vec<i32>,
    /// Where each list begins, and where the last one ends.
    places: Vec<u32>,
}

impl Model for Clauses {
    ghost use Rattle.std.specs.Prelude.{ℤ, length};
    ghost use Rattle.lrat_tool.specs.Flat.{FlatSeen, ArePlaces, flat_seen};

    ghost Value = { FlatSeen ℤ };

    ghost view = { λ c. flat_seen c.places.items c.literals.items };

    ghost invariant = { λ c. ArePlaces c.places.items (length c.literals.items) };
}

impl Clauses {
    /// No list.
    pub(crate) fn new(alloc: Global) -> Result<Clauses, NoMemory>
        ensures { IfOk result (λ c. c ≡ record { lists = []; rest = [] }) }
    {
        let mut places = Vec::new(alloc);
        places.push(0)?;
        Ok(Clauses {
            literals: Vec::new(alloc),
            places,
        })
    }

    /// Puts a literal last.
    pub(crate) fn push(&mut self, literal: i32) -> Result<(), NoMemory>
        ensures ok { OnOk result (self.new ≡ record self.old { rest = self.old.rest ++ literal ∷ [] }) }
        ensures err { OnErr result (self.new ≡ self.old) }
    {
        push_last(&mut self.literals, literal)?;
        Ok(())
    }

    /// Puts literals last.
    pub(crate) fn push_all(&mut self, literals: &[i32]) -> Result<(), NoMemory>
        ensures ok { OnOk result (self.new ≡ record self.old { rest = self.old.rest ++ literals.now }) }
        ensures err { OnErr result (self.new ≡ self.old) }
    {
        self.literals.extend_from_slice(literals)?;
        Ok(())
    }

    /// Ends a list with the literals that stand behind the last one.
    pub(crate) fn end(&mut self) -> Result<(), NoMemory>
        ensures ok { OnOk result (self.new ≡ record { lists = self.old.lists ++ self.old.rest ∷ []; rest = [] }) }
        ensures err { OnErr result (self.new ≡ self.old) }
    {
        let Ok(place) = u32::try_from(self.literals.len()) else {
            return Err(NoMemory);
        };
        self.places.push(place)?;
        Ok(())
    }

    /// Puts for each literal the one of its variable's rank. Where memory runs out the lists are as before.
    pub(crate) fn rename(&mut self, alloc: Global, ranks: &mut Ranks) -> Result<(), NoMemory>
        ensures ok { (all : List ℕ) → BeginsWith ranks.new all → OnOk result (self.new.lists ≡ map (map (ranked all)) self.old.lists) }
        ensures grows { BeginsWith ranks.old ranks.new }
    {
        self.literals = ranks.literals(alloc, self.literals.as_slice())?;
        Ok(())
    }

    /// How many literals are written.
    pub(crate) fn literal_count(&self) -> usize {
        self.literals.len()
    }

    /// How many lists there are.
    pub(crate) fn len(&self) -> usize
        ensures { result ≡ length self.now.lists }
    {
        // Read for what it tells of the places: there is one at least.
        let _literals = &self.literals;
        self.places.len() - 1
    }

    /// The list at a place, from 0.
    pub(crate) fn at(&self, k: usize) -> &[i32]
        requires { k < length self.now.lists }
        ensures { result.now ≡ get_or self.now.lists k [] }
    {
        part(self.literals.as_slice(), self.places.as_slice(), k)
    }
}

/// The list of a number, by the places where they begin.
fn part<'a>(literals: &'a [i32], places: &[u32], k: usize) -> &'a [i32]
    requires places { ArePlaces places.now (length literals.now) }
    requires within { k + 1 < length places.now }
    ensures { result.now ≡ get_or (cut places.now literals.now) k [] }
{
    let begin = places[k] as usize;
    let end = places[k + 1] as usize;
    &literals[begin..end]
}

/// Puts a literal last.
fn push_last(literals: &mut Vec<i32>, literal: i32) -> Result<(), NoMemory>
    ensures ok { OnOk result (literals.new.items ≡ literals.old.items ++ literal ∷ []) }
    ensures err { OnErr result (literals.new.items ≡ literals.old.items) }
{
    literals.push(literal)?;
    Ok(())
}
