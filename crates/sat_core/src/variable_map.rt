//! The variables of the search, by those of the book.

use super::literal::{Literal, number_of};
use cnf_rup::ClauseBook;
use gl_logic::NoMemory;
use std::alloc::Global;

/// The variables that the book's first clauses have, numbered from 0 as they come.
#[derive(Drop)]
pub struct VariableMap {
    /// By variable of the book, that of the search.
    numbers: Vec<Option<u32>>,
    /// By variable of the search, that of the book.
    names: Vec<i32>,
}

impl VariableMap {
    /// No variable.
    pub fn new(alloc: Global) -> VariableMap {
        VariableMap {
            numbers: Vec::new(alloc),
            names: Vec::new(alloc),
        }
    }

    /// How many variables there are.
    pub fn count(&self) -> u32 {
        number_of(self.names.len())
    }

    /// Makes room for the numbers of the book's variables up to this one.
    fn widen(&mut self, name: usize) -> Result<(), NoMemory> {
        for _ in self.numbers.len()..=name {
            self.numbers.push(None)?;
        }
        Ok(())
    }

    /// The search's literal for one of the book, whose variable gets a number where it has none.
    pub fn number(&mut self, literal: i32) -> Result<Literal, NoMemory> {
        let name = literal.unsigned_abs() as usize;
        self.widen(name)?;
        if let Some(Some(variable)) = self.numbers.get(name) {
            return Ok(Literal::of(*variable, literal < 0));
        }
        let variable = self.count();
        self.names.push(literal.wrapping_abs())?;
        if name < self.numbers.len() {
            self.numbers[name] = Some(variable);
        }
        Ok(Literal::of(variable, literal < 0))
    }

    /// The book's variable; 0 where there is none.
    pub fn name(&self, variable: u32) -> i32 {
        match self.names.get(variable as usize) {
            Some(name) => *name,
            None => 0,
        }
    }

    /// The book's literal for one of the search; 0 where there is none.
    pub fn literal(&self, literal: Literal) -> i32 {
        let name = self.name(literal.variable());
        if literal.is_complemented() {
            name.wrapping_neg()
        } else {
            name
        }
    }

    /// Gives each variable of the book's clauses a number.
    pub fn number_all(&mut self, book: &ClauseBook) -> Result<(), NoMemory> {
        for id in 1..=book.count() {
            for literal in book.clause(id).as_slice() {
                let _number = self.number(*literal)?;
            }
        }
        Ok(())
    }
}
