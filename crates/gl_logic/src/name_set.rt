//! Sets of names.

ghost use Rattle.std.specs.Prelude.{◌≡◌, ℕ, [], ◌∷◌, ◌++◌, ◌||◌, not, cond, eqb, length, take, IfOk, OnOk, OnErr};
ghost use Rattle.std.specs.List.{list_any};
ghost use Rattle.gl_logic.specs.NameSets.{are_different as different_are};

use super::ids::{NoMemory, TextId};
use super::names::Names;
use indexmap::IndexSet;
use std::alloc::Global;
use std::marker::Model;

/// Different names in the order of their coming. A look-up takes constant time. Contracts see the list
/// of their numbers.
#[derive(Drop)]
pub struct NameSet {
    numbers: IndexSet<u64>,
}

impl Model for NameSet {
    ghost use Rattle.std.specs.Prelude.{List, ℕ};

    ghost Value = { List ℕ };

    ghost view = { λ s. s.numbers.keys };
}

impl NameSet {
    /// No names. Takes no memory.
    pub fn new(alloc: Global) -> NameSet
        ensures { result ≡ [] }
    {
        NameSet {
            numbers: IndexSet::new(alloc),
        }
    }

    /// Puts a new name last. False where it is there already.
    pub fn insert(&mut self, name: TextId) -> Result<bool, NoMemory>
        ensures new { IfOk result (λ b. b ≡ not (list_any (eqb name.number) self.old)) }
        ensures ok { IfOk result (λ b. self.new ≡ cond b (self.old ++ name.number ∷ []) self.old) }
        ensures err { OnErr result (self.new ≡ self.old) }
    {
        Ok(self.numbers.insert(name.number)?)
    }

    /// Puts names behind those that are there, each where it is new.
    pub fn insert_all(&mut self, names: &Names) -> Result<(), NoMemory>
        ensures same { OnOk result (take (length self.old) self.new ≡ self.old) }
        ensures all { OnOk result ((v : ℕ) → list_any (eqb v) self.new ≡ (list_any (eqb v) names.now || list_any (eqb v) self.old)) }
    {
        for i in 0..names.len() {
            self.insert(*names.at(i))?;
        }
        Ok(())
    }

    /// Whether a name is among them.
    pub fn contains(&self, name: TextId) -> bool
        ensures { result ≡ list_any (eqb name.number) self.now }
    {
        self.numbers.contains(&name.number)
    }

    /// How many names there are.
    pub fn len(&self) -> usize
        ensures { result ≡ length self.now }
    {
        self.numbers.len()
    }

    /// Keeps the first ones, as many as `count`.
    pub fn truncate(&mut self, count: usize)
        ensures { self.new ≡ take count self.old }
    {
        self.numbers.truncate(count);
    }
}

/// Whether no name stands twice in a list.
pub fn are_different(alloc: Global, names: &Names) -> Result<bool, NoMemory>
    ensures { IfOk result (λ b. b ≡ different_are names.now) }
{
    let mut seen = NameSet::new(alloc);
    let mut left = names.len();
    while left > 0 {
        left -= 1;
        if !seen.insert(*names.at(left))? {
            return Ok(false);
        }
    }
    Ok(true)
}
