//! Names in order.

ghost use Rattle.std.specs.Prelude.{◌≡◌, ◌<◌, [], ◌∷◌, ◌++◌, length, slice_get, Some, IfOk, OnOk, OnErr, eqb};
ghost use Rattle.std.specs.List.{list_any};

use super::ids::{NoMemory, TextId};
use std::alloc::Global;
use std::marker::Model;

/// Names in order, as the formals of a definition or the variables of a `let`. Contracts see the list
/// of their numbers.
#[derive(Drop)]
pub struct Names {
    items: Vec<TextId>,
}

impl Model for Names {
    ghost use Rattle.std.specs.Prelude.{List, ℕ, map};

    ghost Value = { List ℕ };

    ghost view = { λ n. map (λ t. t.number) n.items.items };
}

impl Names {
    /// No names. Takes no memory.
    pub fn new(alloc: Global) -> Names
        ensures { result ≡ [] }
    {
        Names {
            items: Vec::new(alloc),
        }
    }

    /// Puts a name last.
    pub fn push(&mut self, name: TextId) -> Result<(), NoMemory>
        ensures ok { OnOk result (self.new ≡ self.old ++ name.number ∷ []) }
        ensures err { OnErr result (self.new ≡ self.old) }
    {
        self.items.push(name)?;
        Ok(())
    }

    /// How many names there are.
    pub fn len(&self) -> u64
        ensures { result ≡ length self.now }
    {
        self.items.len() as u64
    }

    /// The name at a place, from 0.
    pub fn at(&self, i: u64) -> &TextId
        requires { i < length self.now }
        ensures { slice_get self.now i ≡ Some result.now.number }
    {
        &self.items[i as usize]
    }

    /// Whether a name is among them.
    pub fn contains(&self, name: TextId) -> bool
        ensures { result ≡ list_any (eqb name.number) self.now }
    {
        for item in &self.items {
            if name.number == item.number {
                return true;
            }
        }
        false
    }

    /// An equal list of its own.
    pub fn copy(&self, alloc: Global) -> Result<Names, NoMemory>
        ensures { IfOk result (λ n. n ≡ self.now) }
    {
        Ok(Names {
            items: Vec::from_slice(alloc, self.items.as_slice())?,
        })
    }
}
