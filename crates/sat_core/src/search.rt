//! The search: decisions, propagation, and what is done after a conflict.
//!
//! What stands here is believed by nobody. Each table is read and written within its length, whatever the numbers say, each
//! loop has a bound, and no contract speaks of the literals that are true.

use super::analysis::{Analysis, Fixed};
use super::clauses::Clauses;
use super::eliminate::{Elimination, Pair};
use super::literal::Literal;
use super::order::Order;
use super::restarts::Restarts;
use super::trail::{Trail, Truth};
use super::variable_map::VariableMap;
use super::watch::{Watch, Watches};
use cnf_rup::ClauseBook;
use gl_logic::NoMemory;
use std::alloc::Global;

/// What a search comes to.
#[derive(Clone, Copy)]
pub enum Event {
    /// This clause is false.
    Conflict(u32),
    /// A resolvent of these clauses was made, of a variable that is resolved away.
    Resolvent(Pair),
    /// This literal is true at level 0, and is to have a unit clause of its own.
    Fixed(Fixed),
    /// All variables have values, and no clause is false.
    Model,
}

/// Whether variables are resolved away.
#[derive(Clone, Copy, PartialEq, Eq)]
enum Stage {
    /// Not before so many conflicts.
    Before(u32),
    Now,
    After,
}

/// A search for an assignment that satisfies the clauses of a book.
#[derive(Drop)]
pub struct Search {
    pub(crate) variables: u32,
    pub(crate) names: VariableMap,
    pub(crate) clauses: Clauses,
    /// The clauses of two literals, by each.
    pub(crate) pairs: Watches,
    /// The longer clauses, by two literals of each.
    pub(crate) watches: Watches,
    pub(crate) trail: Trail,
    pub(crate) analysis: Analysis,
    order: Order,
    /// By variable, the last value that it had.
    phases: Vec<bool>,
    restarts: Restarts,
    /// How many clauses are to be learned before some are forgotten, and how many there are to be from one time to the next.
    left: u32,
    period: u32,
    /// A clause that the unit clauses make false.
    failed: Option<u32>,
    elimination: Elimination,
    stage: Stage,
    /// Of the literals of level 0 those before this place have unit clauses, or are not to have any now.
    fixed: usize,
    alloc: Global,
    /// How many literals were taken from the trail, and the clauses gone through that watch their complements.
    pub(crate) propagations: u64,
}

/// How many clauses are learned before some are forgotten for the first time.
const FIRST_PERIOD: u32 = 500;

/// How many more there are each time.
const LONGER: u32 = 50;

/// After how many conflicts, at least, variables are resolved away: as many as there are variables, where these are more.
const FEW: u32 = 500;

impl Search {
    /// A search over the clauses of a book.
    pub fn new(alloc: Global, book: &ClauseBook) -> Result<Search, NoMemory> {
        let mut names = VariableMap::new(alloc);
        names.number_all(book)?;
        let variables = names.count();
        let mut search = Search {
            variables,
            names,
            clauses: Clauses::new(alloc),
            pairs: Watches::new(alloc, variables)?,
            watches: Watches::new(alloc, variables)?,
            trail: Trail::new(alloc, variables)?,
            analysis: Analysis::new(alloc, variables)?,
            order: Order::new(alloc, variables)?,
            phases: vec![in alloc; false; variables as usize]?,
            restarts: Restarts::new(),
            left: FIRST_PERIOD,
            period: FIRST_PERIOD,
            failed: None,
            elimination: Elimination::new(alloc, variables)?,
            stage: Stage::Before(variables.max(FEW)),
            fixed: 0,
            alloc,
            propagations: 0,
        };
        search.load(alloc, book)?;
        Ok(search)
    }

    /// Takes in the clauses of the book.
    fn load(&mut self, alloc: Global, book: &ClauseBook) -> Result<(), NoMemory> {
        let mut literals = Vec::new(alloc);
        for id in 1..=book.count() {
            literals.clear();
            for literal in book.clause(id).as_slice() {
                literals.push(self.names.number(*literal)?)?;
            }
            let clause = self.clauses.count();
            self.clauses.push(&literals, 0)?;
            if let Some(first) = literals.get(0) {
                self.elimination.define(clause, first.variable())?;
            }
            self.watch(clause)?;
            if literals.len() == 1 {
                self.assert(literals[0], clause)?;
            }
        }
        Ok(())
    }

    /// Makes the literal of a unit clause true at level 0.
    fn assert(&mut self, literal: Literal, clause: u32) -> Result<(), NoMemory> {
        match self.trail.truth(literal) {
            Truth::Open => self.trail.assign(literal, Some(clause))?,
            Truth::True => {}
            Truth::False => self.failed = Some(clause),
        }
        Ok(())
    }

    /// Watches the first two literals of a clause, where there are two.
    fn watch(&mut self, clause: u32) -> Result<(), NoMemory> {
        let literals = self.clauses.of(clause);
        if literals.len() < 2 {
            return Ok(());
        }
        let first = literals[0];
        let second = literals[1];
        let lists = if literals.len() == 2 {
            &mut self.pairs
        } else {
            &mut self.watches
        };
        lists.add(
            first,
            Watch {
                clause,
                blocker: second,
            },
        )?;
        lists.add(
            second,
            Watch {
                clause,
                blocker: first,
            },
        )
    }

    /// Decides the most active variable that is open. False where none is.
    fn decide(&mut self) -> Result<bool, NoMemory> {
        for _ in 0..self.variables {
            let Some(variable) = self.order.take() else {
                return Ok(false);
            };
            if self.is_free(variable) {
                let phase = self.phase(variable);
                self.trail.decide(Literal::of(variable, !phase))?;
                return Ok(true);
            }
        }
        Ok(false)
    }

    /// Whether a variable can be decided.
    #[inline]
    fn is_free(&self, variable: u32) -> bool {
        self.trail.truth(Literal::of(variable, false)) == Truth::Open
            && !self.elimination.is_gone(variable)
    }

    /// The truth that a variable had last: a decision gives it again.
    fn phase(&self, variable: u32) -> bool {
        match self.phases.get(variable as usize) {
            Some(phase) => *phase,
            None => false,
        }
    }

    /// Takes back all levels behind this one.
    fn backtrack(&mut self, level: u32) -> Result<(), NoMemory> {
        for _ in 0..self.trail.len() {
            let Some(literal) = self.trail.take_back(level) else {
                break;
            };
            let variable = literal.variable();
            let index = variable as usize;
            if index < self.phases.len() {
                self.phases[index] = !literal.is_complemented();
            }
            self.order.reinsert(variable)?;
        }
        self.trail.end_levels(level);
        Ok(())
    }

    /// Decides and propagates until a clause is false or all variables have values.
    fn descend(&mut self) -> Result<Event, NoMemory> {
        for _ in 0..=self.variables {
            if let Some(conflict) = self.propagate()? {
                return Ok(Event::Conflict(conflict));
            }
            if !self.decide()? {
                break;
            }
        }
        Ok(Event::Model)
    }

    /// Goes on to what comes next. While variables are resolved away no decision stands.
    pub fn run(&mut self) -> Result<Event, NoMemory> {
        if let Some(failed) = self.failed {
            return Ok(Event::Conflict(failed));
        }
        match self.stage {
            Stage::Before(0) => {
                if let Some(conflict) = self.propagate()? {
                    return Ok(Event::Conflict(conflict));
                }
                self.elimination
                    .begin(self.alloc, &self.clauses, &self.trail)?;
                self.stage = Stage::Now;
            }
            _ => {}
        }
        if self.stage == Stage::Now {
            if let Some(pair) = self.elimination.next(&mut self.clauses, &self.trail)? {
                return Ok(Event::Resolvent(pair));
            }
            self.end_elimination()?;
        }
        if self.stage == Stage::After && self.trail.level() == 0 {
            if let Some(conflict) = self.propagate()? {
                return Ok(Event::Conflict(conflict));
            }
            if let Some(fixed) = self.next_fixed() {
                return Ok(Event::Fixed(fixed));
            }
        }
        self.descend()
    }

    /// The next literal of level 0 whose reason was followed and has other literals: with a unit clause of its own one hint is
    /// enough for it.
    fn next_fixed(&mut self) -> Option<Fixed> {
        for place in self.fixed..self.trail.len() {
            let literal = *self.trail.literals().get(place)?;
            self.fixed = place.saturating_add(1);
            let variable = literal.variable();
            if self.analysis.is_used(variable) {
                let reason = self.trail.fact(variable).reason?;
                if self.clauses.of(reason).len() > 1 {
                    return Some(Fixed { literal, reason });
                }
            }
        }
        None
    }

    /// Finds what shows the unit clause of a literal of level 0. Whether it is found.
    pub fn blame_reason(&mut self, fixed: Fixed) -> Result<bool, NoMemory> {
        self.analysis
            .blame_reason(fixed, &self.trail, &self.clauses)
    }

    /// Takes in the unit clause of a literal of level 0, which was learned.
    pub fn take_fixed(&mut self, fixed: Fixed) -> Result<(), NoMemory> {
        let clause = self.clauses.count();
        self.clauses.push(&[fixed.literal], 1)?;
        self.trail.set_reason(fixed.literal.variable(), clause);
        Ok(())
    }

    /// The literals of the resolvent that was made.
    pub fn resolvent(&self) -> &[Literal] {
        self.elimination.literals()
    }

    /// Takes in the resolvent that was made, which was learned.
    pub fn take_resolvent(&mut self, pair: Pair) -> Result<(), NoMemory> {
        let clause = self.clauses.count();
        self.clauses.push(self.elimination.literals(), 0)?;
        self.watch(clause)?;
        self.elimination
            .take_in(pair, clause, &self.clauses, &self.trail)
    }

    /// Forgets the clauses that have a variable that was resolved away, of those that were learned too.
    fn end_elimination(&mut self) -> Result<(), NoMemory> {
        self.stage = Stage::After;
        for clause in 0..self.clauses.count() {
            if self.elimination.is_one_gone(self.clauses.of(clause)) {
                self.clauses.forget_one(clause);
            }
        }
        self.pairs.forget(&self.clauses)?;
        self.watches.forget(&self.clauses)
    }

    /// Counts a conflict. Whether variables are to be resolved away now.
    fn is_time(&mut self) -> bool {
        match self.stage {
            Stage::Before(conflicts) => {
                let left = conflicts.saturating_sub(1);
                self.stage = Stage::Before(left);
                left == 0
            }
            _ => false,
        }
    }

    /// Finds the clause to be learned from a conflict. The level at which it gives its first literal, if it is found.
    pub fn analyse(&mut self, conflict: u32) -> Result<Option<u32>, NoMemory> {
        self.analysis
            .find(conflict, &self.trail, &self.clauses, &mut self.order)
    }

    /// Makes the clause of the complements of the decisions. The level at which it gives its first literal.
    pub fn blame_decisions(&mut self) -> Result<u32, NoMemory> {
        self.analysis.blame_decisions(&self.trail)
    }

    /// Takes in the clause that was learned, and goes back to the level at which it gives its first literal, or to level 0
    /// where the search is to begin anew.
    pub fn take_in(&mut self, level: u32) -> Result<(), NoMemory> {
        let clause = self.clauses.count();
        let glue = self.analysis.glue(&self.trail);
        self.clauses.push(self.analysis.literals(), glue)?;
        self.watch(clause)?;
        self.order.age();
        self.left = self.left.saturating_sub(1);
        let is_due = self.restarts.is_due(glue);
        let is_time = self.is_time();
        let back = if is_due || is_time { 0 } else { level };
        self.backtrack(back)?;
        if self.left == 0 {
            self.forget()?;
        }
        match self.analysis.literals().get(0) {
            Some(first) if back == level => {
                let first = *first;
                self.assert(first, clause)
            }
            _ => Ok(()),
        }
    }

    /// Takes in a clause that says nothing, and goes back to level 0.
    pub fn begin_again(&mut self) -> Result<(), NoMemory> {
        self.clauses.push(&[], 0)?;
        self.backtrack(0)
    }

    /// Forgets about half of the longer clauses that were learned. The book keeps them, and so does what they are a reason of.
    fn forget(&mut self) -> Result<(), NoMemory> {
        self.period = self.period.saturating_add(LONGER);
        self.left = self.period;
        self.fixed = 0;
        self.clauses.forget();
        self.clauses.give_back(self.alloc, &self.trail)?;
        self.watches.forget(&self.clauses)
    }
}
