//! The assignment of a search: which literals are true, in the order in which they became so.

use super::literal::{Literal, number_of};
use gl_logic::NoMemory;
use std::alloc::Global;

/// What a literal is.
#[derive(Clone, Copy, Debug, PartialEq, Eq)]
pub enum Truth {
    Open,
    True,
    False,
}

/// What is known of a variable that has a value.
#[derive(Clone, Copy)]
pub struct Fact {
    /// How many decisions stand before it on the trail, with its own.
    pub level: u32,
    /// Its place on the trail.
    pub place: u32,
    /// The clause that gave it its value; none where it was decided.
    pub reason: Option<u32>,
}

/// What is kept of a variable that the trail does not have.
const UNKNOWN: Fact = Fact {
    level: 0,
    place: 0,
    reason: None,
};

/// The literals that are true, in order. The literals of a level stand behind the decision that begins it; those of level 0
/// stand on no decision.
#[derive(Drop)]
pub struct Trail {
    /// By literal.
    truths: Vec<Truth>,
    /// By variable.
    facts: Vec<Fact>,
    literals: Vec<Literal>,
    /// Where each level but the first begins.
    begins: Vec<usize>,
    /// How many literals of the trail were propagated.
    done: usize,
}

impl Trail {
    /// No literal is true.
    pub fn new(alloc: Global, variables: u32) -> Result<Trail, NoMemory> {
        let count = variables as usize;
        Ok(Trail {
            truths: vec![in alloc; Truth::Open; 2 * count]?,
            facts: vec![in alloc; UNKNOWN; count]?,
            literals: Vec::with_capacity(alloc, count)?,
            begins: Vec::new(alloc),
            done: 0,
        })
    }

    /// What the literal is.
    #[inline]
    pub fn truth(&self, literal: Literal) -> Truth {
        match self.truths.get(literal.place()) {
            Some(truth) => *truth,
            None => Truth::Open,
        }
    }

    /// What is known of a variable.
    #[inline]
    pub fn fact(&self, variable: u32) -> Fact {
        match self.facts.get(variable as usize) {
            Some(fact) => *fact,
            None => UNKNOWN,
        }
    }

    /// Sets the truth of a literal, and not that of its complement.
    #[inline]
    fn set_truth(&mut self, literal: Literal, truth: Truth) {
        let place = literal.place();
        if place < self.truths.len() {
            self.truths[place] = truth;
        }
    }

    /// How many decisions stand.
    #[inline]
    pub fn level(&self) -> u32 {
        number_of(self.begins.len())
    }

    /// How many literals are true.
    #[inline]
    pub fn len(&self) -> usize {
        self.literals.len()
    }

    /// The literals that are true, in order.
    pub fn literals(&self) -> &[Literal] {
        self.literals.as_slice()
    }

    /// Makes an open literal true, by a clause or by decision.
    #[inline]
    pub fn assign(&mut self, literal: Literal, reason: Option<u32>) -> Result<(), NoMemory> {
        let place = self.literals.len();
        self.literals.push(literal)?;
        self.set_truth(literal, Truth::True);
        self.set_truth(literal.complement(), Truth::False);
        let level = self.level();
        let variable = literal.variable() as usize;
        if variable < self.facts.len() {
            self.facts[variable] = Fact {
                level,
                place: number_of(place),
                reason,
            };
        }
        Ok(())
    }

    /// Names another clause that gave a variable its value.
    pub fn set_reason(&mut self, variable: u32, clause: u32) {
        let index = variable as usize;
        if index < self.facts.len() {
            let fact = self.facts[index];
            self.facts[index] = Fact {
                level: fact.level,
                place: fact.place,
                reason: Some(clause),
            };
        }
    }

    /// Makes an open literal true by decision, which begins a level.
    pub fn decide(&mut self, literal: Literal) -> Result<(), NoMemory> {
        let place = self.literals.len();
        self.begins.push(place)?;
        self.assign(literal, None)
    }

    /// The next literal that was not propagated.
    #[inline]
    pub fn next(&mut self) -> Option<Literal> {
        match self.literals.get(self.done) {
            None => None,
            Some(literal) => {
                self.done += 1;
                Some(*literal)
            }
        }
    }

    /// Takes the last literal back, where it stands behind the levels up to this one.
    pub fn take_back(&mut self, level: u32) -> Option<Literal> {
        let begin = *self.begins.get(level as usize)?;
        if self.literals.len() <= begin {
            return None;
        }
        let literal = self.literals.pop()?;
        self.set_truth(literal, Truth::Open);
        self.set_truth(literal.complement(), Truth::Open);
        Some(literal)
    }

    /// Ends the levels behind this one, whose literals were taken back.
    pub fn end_levels(&mut self, level: u32) {
        self.begins.truncate(level as usize);
        self.done = self.done.min(self.literals.len());
    }
}
