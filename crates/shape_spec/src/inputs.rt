//! Inputs: each bound variable with its object.

ghost use Rattle.std.specs.Prelude.{◌≡◌, ◌<◌, [], ◌∷◌, ◌++◌, length, slice_get, Some, OnOk, OnErr};

use gl_logic::{NoMemory, TextId, Tree};
use std::alloc::Global;
use std::marker::Model;

/// Variables with their objects, in the order of the bindings. Contracts see the list of pairs of a
/// variable's number and its object, which is an environment.
#[derive(Drop)]
pub struct Inputs {
    items: Vec<Input>,
}

#[derive(Drop)]
struct Input {
    variable: TextId,
    object: Tree,
}

impl Model for Inputs {
    ghost use Rattle.std.specs.Prelude.{List, ℕ, map};
    ghost use Rattle.std.specs.Coded.{coded×, coded_ℕ, coded_list};
    ghost use Rattle.gl_logic.specs.Object.{Object, coded_object};

    ghost Value = { List (ℕ × Object) };

    ghost coded = { coded_list (coded× coded_ℕ coded_object) };

    ghost view = { λ s. map (λ i. (i.variable.number, i.object)) s.items.items };
}

impl Inputs {
    /// No variables. Takes no memory.
    pub fn new(alloc: Global) -> Inputs
        ensures { result ≡ [] }
    {
        Inputs {
            items: Vec::new(alloc),
        }
    }

    /// Puts a variable with its object last. The object is lost where memory runs out.
    pub fn push(&mut self, variable: TextId, object: Tree) -> Result<(), NoMemory>
        ensures ok { OnOk result (self.new ≡ self.old ++ (variable.number, object) ∷ []) }
        ensures err { OnErr result (self.new ≡ self.old) }
    {
        self.items.push(Input { variable, object })?;
        Ok(())
    }

    /// How many variables there are.
    pub fn len(&self) -> u64
        ensures { result ≡ length self.now }
    {
        self.items.len() as u64
    }

    /// The variable at a place, from 0, and its object.
    pub fn at(&self, i: u64) -> (TextId, &Tree)
        requires { i < length self.now }
        ensures { slice_get self.now i ≡ Some (result.0.number, result.1.now) }
    {
        let input = &self.items[i as usize];
        (input.variable, &input.object)
    }
}
