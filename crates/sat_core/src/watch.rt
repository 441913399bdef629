//! Watch lists: for each literal the clauses that are looked at when it becomes false.

use super::clauses::Clauses;
use super::literal::Literal;
use gl_logic::NoMemory;
use std::alloc::Global;
use std::mem;

/// A clause that watches a literal, and another of its literals: where that one is true the clause need not be looked at.
#[derive(Clone, Copy)]
pub struct Watch {
    pub clause: u32,
    pub blocker: Literal,
}

/// The watches of each literal.
#[derive(Drop)]
pub struct Watches {
    alloc: Global,
    lists: Vec<Vec<Watch>>,
}

impl Watches {
    /// No literal is watched.
    pub fn new(alloc: Global, variables: u32) -> Result<Watches, NoMemory> {
        let count = 2 * variables as usize;
        let mut lists = Vec::with_capacity(alloc, count)?;
        for _ in 0..count {
            lists.push(Vec::new(alloc))?;
        }
        Ok(Watches { alloc, lists })
    }

    /// Puts a watch last in a literal's list.
    #[inline]
    pub fn add(&mut self, literal: Literal, watch: Watch) -> Result<(), NoMemory> {
        let place = literal.place();
        if place < self.lists.len() {
            let list = &mut self.lists[place];
            list.push(watch)?;
        }
        Ok(())
    }

    /// The watches of a literal.
    #[inline]
    pub fn of(&self, literal: Literal) -> &[Watch] {
        match self.lists.get(literal.place()) {
            Some(list) => list.as_slice(),
            None => &[],
        }
    }

    /// Takes a literal's list away.
    #[inline]
    pub fn take(&mut self, literal: Literal) -> Vec<Watch> {
        let place = literal.place();
        if place < self.lists.len() {
            let list = &mut self.lists[place];
            mem::replace(list, Vec::new(self.alloc))
        } else {
            Vec::new(self.alloc)
        }
    }

    /// Puts a literal's list in its place.
    #[inline]
    pub fn put(&mut self, literal: Literal, list: Vec<Watch>) {
        let place = literal.place();
        if place < self.lists.len() {
            self.lists[place] = list;
        }
    }

    /// Takes away the watches of clauses that are forgotten.
    pub fn forget(&mut self, clauses: &Clauses) -> Result<(), NoMemory> {
        for place in 0..self.lists.len() {
            let mut kept = Vec::new(self.alloc);
            if let Some(list) = self.lists.get(place) {
                for watch in list {
                    if !clauses.is_forgotten(watch.clause) {
                        kept.push(*watch)?;
                    }
                }
            }
            if place < self.lists.len() {
                self.lists[place] = kept;
            }
        }
        Ok(())
    }
}
