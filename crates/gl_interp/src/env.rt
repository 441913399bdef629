//! Environments of symbolic objects.

ghost use Rattle.std.specs.Prelude.{◌≡◌, ◌<◌, [], ◌∷◌, ◌++◌, length, slice_get, Some, OnOk, OnErr};

use gl_logic::{NoMemory, TextId};
use std::alloc::Global;
use std::marker::Model;
use sym_objects::Sob;

/// Variables with symbolic objects. The first pair of a variable counts. Contracts see the list of pairs of a variable's
/// number and its object.
#[derive(Drop)]
pub struct SymEnv {
    items: Vec<SymBinding>,
}

#[derive(Clone, Copy, Debug, PartialEq, Eq)]
struct SymBinding {
    name: TextId,
    value: Sob,
}

impl Model for SymEnv {
    ghost use Rattle.std.specs.Prelude.{List, ℕ, map};
    ghost use Rattle.sym_objects.specs.declared.sob.Sob.{Sob};

    ghost Value = { List (ℕ × Sob) };

    ghost view = { λ e. map (λ b. (b.name.number, b.value)) e.items.items };
}

impl SymEnv {
    /// No variables. Takes no memory.
    pub fn new(alloc: Global) -> SymEnv
        ensures { result ≡ [] }
    {
        SymEnv {
            items: Vec::new(alloc),
        }
    }

    /// Puts a variable with its object last.
    pub fn push(&mut self, name: TextId, value: Sob) -> Result<(), NoMemory>
        ensures ok { OnOk result (self.new ≡ self.old ++ (name.number, value) ∷ []) }
        ensures err { OnErr result (self.new ≡ self.old) }
    {
        self.items.push(SymBinding { name, value })?;
        Ok(())
    }

    /// How many pairs there are.
    pub fn len(&self) -> u64
        ensures { result ≡ length self.now }
    {
        self.items.len() as u64
    }

    /// The variable at a place, from 0, and its object.
    pub fn at(&self, i: u64) -> (TextId, Sob)
        requires { i < length self.now }
        ensures { slice_get self.now i ≡ Some (result.0.number, result.1) }
    {
        let binding = self.items[i as usize];
        (binding.name, binding.value)
    }
}
