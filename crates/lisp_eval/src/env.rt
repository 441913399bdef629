//! Environments of ids.

ghost use Rattle.std.specs.Prelude.{◌≡◌, ◌<◌, [], ◌∷◌, ◌++◌, length, slice_get, Some, OnOk, OnErr};

use crate::frame::Binding;
use gl_logic::{NoMemory, TextId};
use hons_arena::Id;
use std::alloc::Global;
use std::marker::Model;

/// Variables with the ids of their values. The first binding of a variable counts. Contracts see the list of the
/// bindings.
#[derive(Drop)]
pub struct Env {
    items: Vec<Binding>,
}

impl Model for Env {
    ghost use Rattle.std.specs.Prelude.{List};
    ghost use Rattle.lisp_eval.specs.declared.frame.Binding.{Binding as BindingSeen};

    ghost Value = { List BindingSeen };

    ghost view = { λ e. e.items.items };
}

impl Env {
    /// No variables. Takes no memory.
    pub fn new(alloc: Global) -> Env
        ensures { result ≡ [] }
    {
        Env {
            items: Vec::new(alloc),
        }
    }

    /// Puts a variable with the id of its value last.
    pub fn push(&mut self, name: TextId, value: Id) -> Result<(), NoMemory>
        ensures ok { OnOk result (self.new ≡ self.old ++ record { name = name; value = value } ∷ []) }
        ensures err { OnErr result (self.new ≡ self.old) }
    {
        self.items.push(Binding { name, value })?;
        Ok(())
    }

    /// How many bindings there are.
    pub fn len(&self) -> u64
        ensures { result ≡ length self.now }
    {
        self.items.len() as u64
    }

    /// The binding at a place, from 0.
    pub fn at(&self, i: u64) -> Binding
        requires { i < length self.now }
        ensures { slice_get self.now i ≡ Some result }
    {
        self.items[i as usize]
    }

    /// The bindings in their order.
    pub(crate) fn as_slice(&self) -> &[Binding]
        ensures { result.now ≡ self.now }
    {
        self.items.as_slice()
    }
}
