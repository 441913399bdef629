//! Clauses, hints, and the entries of a book.

ghost use Rattle.std.specs.Prelude.{◌≡◌, ◌<◌, ◌^◌, [], ◌∷◌, ◌++◌, All, length, slice_get, Some, IfOk, OnOk, OnErr};

use gl_logic::NoMemory;
use std::alloc::Global;
use std::marker::Model;

/// A clause: a list of literals, of which one at least is true. A literal is a whole number that is not 0: `v` is variable
/// `v`, and `-v` is its complement, as in DIMACS. Contracts see the list.
#[derive(Drop)]
pub struct Clause {
    literals: Vec<i32>,
}

impl Model for Clause {
    ghost use Rattle.std.specs.Prelude.{List, ℤ};

    ghost Value = { List ℤ };

    ghost view = { λ c. c.literals.items };
}

impl Clause {
    /// The clause without a literal, which nothing satisfies. Takes no memory.
    pub fn new(alloc: Global) -> Clause
        ensures { result ≡ [] }
    {
        Clause {
            literals: Vec::new(alloc),
        }
    }

    /// Puts a literal last.
    pub fn push(&mut self, literal: i32) -> Result<(), NoMemory>
        ensures ok { OnOk result (self.new ≡ self.old ++ literal ∷ []) }
        ensures err { OnErr result (self.new ≡ self.old) }
    {
        self.literals.push(literal)?;
        Ok(())
    }

    /// How many literals are written.
    pub fn len(&self) -> u64
        ensures { result ≡ length self.now }
    {
        self.literals.len() as u64
    }

    /// The literal at a place, from 0.
    pub fn at(&self, i: u64) -> &i32
        requires { i < length self.now }
        ensures { slice_get self.now i ≡ Some result.now }
    {
        &self.literals[i as usize]
    }

    /// The literals.
    pub fn as_slice(&self) -> &[i32]
        ensures { result.now ≡ self.now }
    {
        self.literals.as_slice()
    }

    /// An equal clause of its own.
    pub fn copy(&self, alloc: Global) -> Result<Clause, NoMemory>
        ensures { IfOk result (λ c. c ≡ self.now) }
    {
        Ok(Clause {
            literals: Vec::from_slice(alloc, self.literals.as_slice())?,
        })
    }
}

/// The hints of a clause: numbers of clauses, which show it when they are followed in order.
#[derive(Drop)]
pub struct Hints {
    clauses: Vec<u32>,
}

impl Model for Hints {
    ghost use Rattle.std.specs.Prelude.{List, ℕ, ◌<◌, ◌^◌, All};

    ghost Value = { List ℕ };

    ghost view = { λ h. h.clauses.items };

    ghost invariant = { λ h. All (λ n. n < 2 ^ 32) h.clauses.items };
}

impl Hints {
    /// No hints. Takes no memory.
    pub fn new(alloc: Global) -> Hints
        ensures { result ≡ [] }
    {
        Hints {
            clauses: Vec::new(alloc),
        }
    }

    /// Puts the number of a clause last.
    pub fn push(&mut self, clause: u32) -> Result<(), NoMemory>
        ensures ok { OnOk result (self.new ≡ self.old ++ clause ∷ []) }
        ensures err { OnErr result (self.new ≡ self.old) }
    {
        self.clauses.push(clause)?;
        Ok(())
    }

    /// How many hints there are.
    pub fn len(&self) -> u64
        ensures { result ≡ length self.now }
    {
        self.clauses.len() as u64
    }

    /// The hint at a place, from 0.
    pub fn at(&self, i: u64) -> &u32
        requires { i < length self.now }
        ensures { slice_get self.now i ≡ Some result.now }
    {
        &self.clauses[i as usize]
    }

    /// The hints.
    pub fn as_slice(&self) -> &[u32]
        ensures same { result.now ≡ self.now }
        ensures small { All (λ n. n < 2 ^ 32) self.now }
    {
        self.clauses.as_slice()
    }

    /// An equal list of its own.
    pub fn copy(&self, alloc: Global) -> Result<Hints, NoMemory>
        ensures { IfOk result (λ h. h ≡ self.now) }
    {
        Ok(Hints {
            clauses: Vec::from_slice(alloc, self.clauses.as_slice())?,
        })
    }
}

/// A clause of a book, and the hints that show it. The first clauses of a book have none.
#[derive(Drop)]
pub struct Entry {
    pub clause: Clause,
    pub hints: Hints,
}
