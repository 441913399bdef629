//! Definitions in order, and measures in order.

ghost use Rattle.std.specs.Prelude.{◌≡◌, ◌<◌, [], ◌∷◌, ◌++◌, length, map, slice_get, Some, OnOk, OnErr};
ghost use Rattle.gl_logic.specs.DefinitionOf.{definition_of};

use super::def::{Def, Measure};
use super::ids::NoMemory;
use std::alloc::Global;
use std::marker::Model;

/// Definitions in order, as the members of a clique. Contracts see the list of what they stand for.
#[derive(Drop)]
pub struct Defs {
    items: Vec<Def>,
}

impl Model for Defs {
    ghost use Rattle.std.specs.Prelude.{List, map};
    ghost use Rattle.std.specs.Coded.{coded_list};
    ghost use Rattle.gl_logic.specs.Definition.{Definition, coded_definition};
    ghost use Rattle.gl_logic.specs.DefinitionOf.{definition_of};

    ghost Value = { List Definition };

    ghost coded = { coded_list coded_definition };

    ghost view = { λ d. map definition_of d.items.items };
}

impl Defs {
    /// No definitions. Takes no memory.
    pub fn new(alloc: Global) -> Defs
        ensures { result ≡ [] }
    {
        Defs {
            items: Vec::new(alloc),
        }
    }

    /// Puts a definition last. It is lost where memory runs out.
    pub fn push(&mut self, def: Def) -> Result<(), NoMemory>
        ensures ok { OnOk result (self.new ≡ self.old ++ definition_of def ∷ []) }
        ensures err { OnErr result (self.new ≡ self.old) }
    {
        self.items.push(def)?;
        Ok(())
    }

    /// How many definitions there are.
    pub fn len(&self) -> u64
        ensures { result ≡ length self.now }
    {
        self.items.len() as u64
    }

    /// The definition at a place, from 0.
    pub fn at(&self, i: u64) -> &Def
        requires { i < length self.now }
        ensures { slice_get self.now i ≡ Some (definition_of result.now) }
    {
        &self.items[i as usize]
    }

    /// The definitions as a vector.
    pub(crate) fn into_items(self) -> Vec<Def>
        ensures { map definition_of result.items ≡ self }
    {
        self.items
    }
}

/// Measures in order, none where a definition has none. Contracts see their list.
#[derive(Drop)]
pub struct Measures {
    items: Vec<Option<Measure>>,
}

impl Model for Measures {
    ghost use Rattle.std.specs.Prelude.{List, Option};
    ghost use Rattle.std.specs.Coded.{coded_list, coded_option};
    ghost use Rattle.gl_logic.specs.Definition.{coded_measure};
    ghost use Rattle.gl_logic.specs.declared.def.Measure.{Measure};

    ghost Value = { List (Option Measure) };

    ghost coded = { coded_list (coded_option coded_measure) };

    ghost view = { λ m. m.items.items };
}

impl Measures {
    /// No measures. Takes no memory.
    pub fn new(alloc: Global) -> Measures
        ensures { result ≡ [] }
    {
        Measures {
            items: Vec::new(alloc),
        }
    }

    /// Puts a measure last.
    pub fn push(&mut self, measure: Option<Measure>) -> Result<(), NoMemory>
        ensures ok { OnOk result (self.new ≡ self.old ++ measure ∷ []) }
        ensures err { OnErr result (self.new ≡ self.old) }
    {
        self.items.push(measure)?;
        Ok(())
    }

    /// How many there are.
    pub fn len(&self) -> u64
        ensures { result ≡ length self.now }
    {
        self.items.len() as u64
    }

    /// The measure at a place, from 0.
    pub fn at(&self, i: u64) -> &Option<Measure>
        requires { i < length self.now }
        ensures { slice_get self.now i ≡ Some result.now }
    {
        &self.items[i as usize]
    }
}
