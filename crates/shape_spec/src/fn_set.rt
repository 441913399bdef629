//! Functions of a world.

ghost use Rattle.std.specs.Prelude.{◌≡◌, ◌<◌, [], ◌∷◌, ◌++◌, length, slice_get, Some, OnOk, OnErr};

use gl_logic::{FnId, NoMemory};
use std::alloc::Global;
use std::marker::Model;

/// Functions in order, as those whose calls are kept. Contracts see the list of their numbers.
#[derive(Drop)]
pub struct FnSet {
    items: Vec<FnId>,
}

impl Model for FnSet {
    ghost use Rattle.std.specs.Prelude.{List, ℕ, map};

    ghost Value = { List ℕ };

    ghost view = { λ s. map (λ f. f.number) s.items.items };
}

impl FnSet {
    /// No functions. Takes no memory.
    pub fn new(alloc: Global) -> FnSet
        ensures { result ≡ [] }
    {
        FnSet {
            items: Vec::new(alloc),
        }
    }

    /// Puts a function last.
    pub fn push(&mut self, f: FnId) -> Result<(), NoMemory>
        ensures ok { OnOk result (self.new ≡ self.old ++ f.number ∷ []) }
        ensures err { OnErr result (self.new ≡ self.old) }
    {
        self.items.push(f)?;
        Ok(())
    }

    /// How many functions there are.
    pub fn len(&self) -> u64
        ensures { result ≡ length self.now }
    {
        self.items.len() as u64
    }

    /// The function at a place, from 0.
    pub fn at(&self, i: u64) -> &FnId
        requires { i < length self.now }
        ensures { slice_get self.now i ≡ Some result.now.number }
    {
        &self.items[i as usize]
    }
}
