//! Variables of gates that are resolved away.
//!
//! A first clause defines the variable of its gate, which it has first. Where such a variable is resolved away, each clause that
//! defines it is resolved with each other clause that has it, and these resolvents, which define what the others defined, are
//! learned in place of both (bounded variable elimination by definitions, as Eén and Biere's SatELite and CaDiCaL do it). The
//! graph's own variables are defined by no clause, so they stay, and a model of what is left gives them their values.

use super::clauses::Clauses;
use super::literal::{Literal, number_of};
use super::trail::{Trail, Truth};
use gl_logic::NoMemory;
use std::alloc::Global;

/// A variable is tried where its clauses make at most so many pairs.
const MOST_PAIRS: usize = 100;

/// No resolvent has more literals.
const MOST_LITERALS: usize = 20;

/// What a clause defines that defines nothing.
const NOTHING: u32 = u32::MAX;

/// Two clauses that are resolved: one that defines the variable, and another that has it.
#[derive(Clone, Copy)]
pub struct Pair {
    pub definition: u32,
    pub other: u32,
}

/// The variables that were resolved away, and what is needed to resolve more.
#[derive(Drop)]
pub struct Elimination {
    /// By variable, whether it was resolved away.
    gone: Vec<bool>,
    /// By clause, the variable that it defines.
    defined: Vec<u32>,
    /// By literal, the clauses that have it and were not learned from a conflict.
    occurrences: Vec<Vec<u32>>,
    /// The variables that are to be tried, the next one last.
    candidates: Vec<u32>,
    /// The variable that is being resolved away, and the pairs that are left.
    variable: Option<u32>,
    pairs: Vec<Pair>,
    /// The last resolvent, and how many of its literals are not false: they come first.
    literals: Vec<Literal>,
    open: usize,
    /// By literal, the number of the last resolvent that has it.
    stamps: Vec<u32>,
    stamp: u32,
}

/// Whether a literal of the clause is true.
fn is_satisfied(literals: &[Literal], trail: &Trail) -> bool {
    for literal in literals {
        if trail.truth(*literal) == Truth::True {
            return true;
        }
    }
    false
}

impl Elimination {
    /// No variable was resolved away.
    pub fn new(alloc: Global, variables: u32) -> Result<Elimination, NoMemory> {
        let count = variables as usize;
        Ok(Elimination {
            gone: vec![in alloc; false; count]?,
            defined: Vec::new(alloc),
            occurrences: Vec::new(alloc),
            candidates: Vec::new(alloc),
            variable: None,
            pairs: Vec::new(alloc),
            literals: Vec::new(alloc),
            open: 0,
            stamps: vec![in alloc; 0; 2 * count]?,
            stamp: 0,
        })
    }

    /// Whether a variable was resolved away.
    #[inline]
    pub fn is_gone(&self, variable: u32) -> bool {
        match self.gone.get(variable as usize) {
            Some(gone) => *gone,
            None => false,
        }
    }

    /// Whether a variable of the clause was resolved away.
    pub fn is_one_gone(&self, literals: &[Literal]) -> bool {
        for literal in literals {
            if self.is_gone(literal.variable()) {
                return true;
            }
        }
        false
    }

    /// The last resolvent.
    pub fn literals(&self) -> &[Literal] {
        self.literals.as_slice()
    }

    /// What a clause defines.
    fn defined_by(&self, clause: u32) -> u32 {
        match self.defined.get(clause as usize) {
            Some(variable) => *variable,
            None => NOTHING,
        }
    }

    /// Notes that a clause, behind all that define something, defines a variable.
    pub fn define(&mut self, clause: u32, variable: u32) -> Result<(), NoMemory> {
        for _ in self.defined.len()..clause as usize {
            self.defined.push(NOTHING)?;
        }
        self.defined.push(variable)?;
        Ok(())
    }

    /// Lists a clause under its literals, unless it is satisfied.
    fn list(&mut self, clause: u32, clauses: &Clauses, trail: &Trail) -> Result<(), NoMemory> {
        if is_satisfied(clauses.of(clause), trail) {
            return Ok(());
        }
        for literal in clauses.of(clause) {
            let place = literal.place();
            if place < self.occurrences.len() {
                let list = &mut self.occurrences[place];
                list.push(clause)?;
            }
        }
        Ok(())
    }

    /// Takes in the last resolvent of a pair as a clause: it defines what the other of the pair defined.
    pub fn take_in(
        &mut self,
        pair: Pair,
        clause: u32,
        clauses: &Clauses,
        trail: &Trail,
    ) -> Result<(), NoMemory> {
        let variable = self.defined_by(pair.other);
        self.define(clause, variable)?;
        self.list(clause, clauses, trail)
    }

    /// Lists the clauses that define something, where no decision stands and all is propagated.
    fn list_all(&mut self, clauses: &Clauses, trail: &Trail) -> Result<(), NoMemory> {
        for clause in 0..clauses.count() {
            if self.defined_by(clause) != NOTHING {
                self.list(clause, clauses, trail)?;
            }
        }
        Ok(())
    }

    /// How many clauses are listed under a literal.
    fn count(&self, literal: Literal) -> usize {
        match self.occurrences.get(literal.place()) {
            Some(list) => list.len(),
            None => 0,
        }
    }

    /// Lists the variables whose clauses make so many pairs as candidates.
    fn list_candidates(&mut self, pairs: usize) -> Result<(), NoMemory> {
        for variable in 0..number_of(self.gone.len()) {
            let direct = self.count(Literal::of(variable, false));
            let complemented = self.count(Literal::of(variable, true));
            if direct.wrapping_mul(complemented) == pairs {
                self.candidates.push(variable)?;
            }
        }
        Ok(())
    }

    /// Begins: lists clauses, and candidates, of which those with the fewest pairs are tried first.
    pub fn begin(
        &mut self,
        alloc: Global,
        clauses: &Clauses,
        trail: &Trail,
    ) -> Result<(), NoMemory> {
        for _ in 0..self.stamps.len() {
            self.occurrences.push(Vec::new(alloc))?;
        }
        self.list_all(clauses, trail)?;
        for step in 0..=MOST_PAIRS {
            self.list_candidates(MOST_PAIRS.wrapping_sub(step))?;
        }
        Ok(())
    }

    /// Puts the last literal of the resolvent behind those that are not false.
    fn raise(&mut self) {
        let open = self.open;
        let count = self.literals.len();
        if open < count {
            let literal = self.literals[count - 1];
            self.literals[count - 1] = self.literals[open];
            self.literals[open] = literal;
            self.open = open + 1;
        }
    }

    /// Takes the literals of a clause into the resolvent, but those of a variable. False where it has the complement of one.
    fn join(
        &mut self,
        literals: &[Literal],
        variable: u32,
        trail: &Trail,
    ) -> Result<bool, NoMemory> {
        for literal in literals {
            let place = literal.place();
            let other = literal.complement().place();
            if literal.variable() == variable {
                continue;
            }
            if place >= self.stamps.len() || other >= self.stamps.len() {
                return Ok(false);
            }
            if self.stamps[other] == self.stamp {
                return Ok(false);
            }
            if self.stamps[place] != self.stamp {
                self.stamps[place] = self.stamp;
                self.literals.push(*literal)?;
                if trail.truth(*literal) != Truth::False {
                    self.raise();
                }
            }
        }
        Ok(true)
    }

    /// Makes the resolvent of a pair. False where it is true under every assignment.
    fn resolve(
        &mut self,
        pair: Pair,
        variable: u32,
        clauses: &Clauses,
        trail: &Trail,
    ) -> Result<bool, NoMemory> {
        self.stamp = self.stamp.wrapping_add(1);
        self.literals.clear();
        self.open = 0;
        if !self.join(clauses.of(pair.definition), variable, trail)? {
            return Ok(false);
        }
        self.join(clauses.of(pair.other), variable, trail)
    }

    /// The clause at a place of a literal's list, where the search has it still.
    fn clause_at(&self, literal: Literal, place: usize, clauses: &Clauses) -> Option<u32> {
        let list = self.occurrences.get(literal.place())?;
        let clause = *list.get(place)?;
        if clauses.is_forgotten(clause) {
            return None;
        }
        Some(clause)
    }

    /// Pairs a clause that has a literal with those that have its complement, where one of the two defines the variable.
    fn pair_up(
        &mut self,
        clause: u32,
        literal: Literal,
        clauses: &Clauses,
    ) -> Result<(), NoMemory> {
        let complement = literal.complement();
        let variable = literal.variable();
        let defines = self.defined_by(clause) == variable;
        for place in 0..self.count(complement) {
            let Some(other) = self.clause_at(complement, place, clauses) else {
                continue;
            };
            let also = self.defined_by(other) == variable;
            if defines && !also {
                self.pairs.push(Pair {
                    definition: clause,
                    other,
                })?;
            } else if also && !defines {
                self.pairs.push(Pair {
                    definition: other,
                    other: clause,
                })?;
            }
        }
        Ok(())
    }

    /// Pairs all clauses of a variable.
    fn pair_all(&mut self, variable: u32, clauses: &Clauses) -> Result<(), NoMemory> {
        self.pairs.clear();
        let literal = Literal::of(variable, false);
        for place in 0..self.count(literal) {
            if let Some(clause) = self.clause_at(literal, place, clauses) {
                self.pair_up(clause, literal, clauses)?;
            }
        }
        Ok(())
    }

    /// Keeps the pairs whose resolvents are not true under every assignment. Whether all of these are short and have two
    /// literals at least that are not false.
    fn keep_pairs(
        &mut self,
        variable: u32,
        clauses: &Clauses,
        trail: &Trail,
    ) -> Result<bool, NoMemory> {
        let mut kept = 0usize;
        for place in 0..self.pairs.len() {
            let Some(pair) = self.pairs.get(place) else {
                break;
            };
            let pair = *pair;
            if !self.resolve(pair, variable, clauses, trail)? {
                continue;
            }
            if self.open < 2 || self.literals.len() > MOST_LITERALS {
                return Ok(false);
            }
            if kept < self.pairs.len() {
                self.pairs[kept] = pair;
            }
            kept = kept.saturating_add(1);
        }
        self.pairs.truncate(kept);
        Ok(true)
    }

    /// How many clauses of a literal the search has still.
    fn living(&self, literal: Literal, clauses: &Clauses) -> usize {
        let mut count = 0usize;
        for place in 0..self.count(literal) {
            if self.clause_at(literal, place, clauses).is_some() {
                count = count.saturating_add(1);
            }
        }
        count
    }

    /// Whether a variable is to be resolved away: some clause defines it, and no more clauses are made than leave.
    fn is_worth(
        &mut self,
        variable: u32,
        clauses: &Clauses,
        trail: &Trail,
    ) -> Result<bool, NoMemory> {
        let literal = Literal::of(variable, false);
        if trail.truth(literal) != Truth::Open {
            return Ok(false);
        }
        self.pair_all(variable, clauses)?;
        if self.pairs.len() == 0 || self.pairs.len() > MOST_PAIRS {
            return Ok(false);
        }
        if !self.keep_pairs(variable, clauses, trail)? {
            return Ok(false);
        }
        let direct = self.living(literal, clauses);
        let most = direct.saturating_add(self.living(literal.complement(), clauses));
        Ok(self.pairs.len() <= most)
    }

    /// Forgets the clauses that are listed under a literal.
    fn forget(&self, literal: Literal, clauses: &mut Clauses) {
        if let Some(list) = self.occurrences.get(literal.place()) {
            for clause in list {
                clauses.forget_one(*clause);
            }
        }
    }

    /// Ends a variable, whose resolvents were all made.
    fn end(&mut self, variable: u32, clauses: &mut Clauses) {
        let index = variable as usize;
        if index < self.gone.len() {
            self.gone[index] = true;
        }
        self.forget(Literal::of(variable, false), clauses);
        self.forget(Literal::of(variable, true), clauses);
        self.variable = None;
    }

    /// Makes the next resolvent. Its pair; none where no candidate is left.
    pub fn next(&mut self, clauses: &mut Clauses, trail: &Trail) -> Result<Option<Pair>, NoMemory> {
        for _ in 0..=self.candidates.len() {
            if let Some(variable) = self.variable {
                if let Some(pair) = self.pairs.pop() {
                    let _made = self.resolve(pair, variable, clauses, trail)?;
                    return Ok(Some(pair));
                }
                self.end(variable, clauses);
            }
            let Some(variable) = self.candidates.pop() else {
                return Ok(None);
            };
            if self.is_worth(variable, clauses, trail)? {
                self.variable = Some(variable);
            }
        }
        Ok(None)
    }
}
