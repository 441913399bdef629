//! The clauses as the search has them: those of the book, in the book's order, with literals that it puts in other places.

use super::literal::{Literal, number_of};
use super::trail::Trail;
use gl_logic::NoMemory;
use std::alloc::Global;

/// Where a clause's literals stand.
#[derive(Clone, Copy)]
struct Span {
    begin: u32,
    len: u32,
    /// How many levels its literals had when it was learned; 0 for a first clause.
    glue: u32,
    /// Whether it is watched no longer.
    forgotten: bool,
}

/// Clauses of at most this glue are never forgotten.
const LEAST_GLUE: u32 = 2;

/// From this glue on clauses are not told apart.
const MOST_GLUE: usize = 63;

/// Lists of literals, numbered from 0. The clause of number k is the book's clause k + 1.
#[derive(Drop)]
pub struct Clauses {
    spans: Vec<Span>,
    literals: Vec<Literal>,
}

impl Clauses {
    /// No clause.
    pub fn new(alloc: Global) -> Clauses {
        Clauses {
            spans: Vec::new(alloc),
            literals: Vec::new(alloc),
        }
    }

    /// How many clauses there are.
    pub fn count(&self) -> u32 {
        number_of(self.spans.len())
    }

    /// Puts a clause last.
    pub fn push(&mut self, literals: &[Literal], glue: u32) -> Result<(), NoMemory> {
        let begin = number_of(self.literals.len());
        let len = number_of(literals.len());
        self.literals.extend_from_slice(literals)?;
        self.spans.push(Span {
            begin,
            len,
            glue,
            forgotten: false,
        })?;
        Ok(())
    }

    /// The literals of a clause; none where there is no such clause.
    #[inline]
    pub fn of(&self, clause: u32) -> &[Literal] {
        match self.spans.get(clause as usize) {
            None => &[],
            Some(span) => {
                let begin = span.begin as usize;
                let end = begin + span.len as usize;
                if end <= self.literals.len() {
                    &self.literals[begin..end]
                } else {
                    &[]
                }
            }
        }
    }

    /// The same, whose order may be changed.
    #[inline]
    pub fn of_mut(&mut self, clause: u32) -> &mut [Literal] {
        match self.spans.get(clause as usize) {
            None => &mut [],
            Some(span) => {
                let begin = span.begin as usize;
                let end = begin + span.len as usize;
                if end <= self.literals.len() {
                    &mut self.literals[begin..end]
                } else {
                    &mut []
                }
            }
        }
    }

    /// Forgets a clause.
    pub fn forget_one(&mut self, clause: u32) {
        let index = clause as usize;
        if index < self.spans.len() {
            self.spans[index].forgotten = true;
        }
    }

    /// Whether a clause is watched no longer.
    pub fn is_forgotten(&self, clause: u32) -> bool {
        match self.spans.get(clause as usize) {
            Some(span) => span.forgotten,
            None => false,
        }
    }

    /// The least glue that at least half of the watched clauses that were learned have at most.
    fn middle_glue(&self) -> u32 {
        let mut counts = [0u32; MOST_GLUE + 1];
        let mut all = 0u32;
        for span in &self.spans {
            if span.glue > LEAST_GLUE && !span.forgotten {
                let glue = (span.glue as usize).min(MOST_GLUE);
                counts[glue] = counts[glue].wrapping_add(1);
                all = all.wrapping_add(1);
            }
        }
        let mut below = 0u32;
        let mut glue = 0u32;
        for count in counts {
            below = below.saturating_add(count);
            if below >= all / 2 {
                break;
            }
            glue = glue.saturating_add(1);
        }
        glue
    }

    /// Forgets about half of the clauses that were learned, those of the greatest glue.
    pub fn forget(&mut self) {
        let glue = self.middle_glue().max(LEAST_GLUE);
        for span in self.spans.iter_mut() {
            if span.glue > glue {
                span.forgotten = true;
            }
        }
    }

    /// Which clauses keep their literals: those that are watched, those that gave a literal of the trail its value, and the
    /// last one, which may give one next.
    fn kept(&self, alloc: Global, trail: &Trail) -> Result<Vec<bool>, NoMemory> {
        let mut kept = Vec::with_capacity(alloc, self.spans.len())?;
        for span in &self.spans {
            kept.push(!span.forgotten)?;
        }
        for literal in trail.literals() {
            if let Some(reason) = trail.fact(literal.variable()).reason {
                let index = reason as usize;
                if index < kept.len() {
                    kept[index] = true;
                }
            }
        }
        if kept.len() > 0 {
            let last = kept.len() - 1;
            kept[last] = true;
        }
        Ok(kept)
    }

    /// Gives back the literals of the clauses that keep none: the book has them.
    pub fn give_back(&mut self, alloc: Global, trail: &Trail) -> Result<(), NoMemory> {
        let kept = self.kept(alloc, trail)?;
        let mut literals = Vec::new(alloc);
        for (index, is_kept) in kept.iter().enumerate() {
            let begin = literals.len();
            if *is_kept {
                literals.extend_from_slice(self.of(number_of(index)))?;
            }
            if index < self.spans.len() {
                self.spans[index].begin = number_of(begin);
                self.spans[index].len = number_of(literals.len().saturating_sub(begin));
            }
        }
        self.literals = literals;
        Ok(())
    }
}
