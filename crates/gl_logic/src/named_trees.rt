//! Objects with a name each.

ghost use Rattle.std.specs.Prelude.{◌≡◌, ◌↔◌, ◌<◌, [], ◌∷◌, ◌++◌, ◌-◌, take, length, map, slice_get, Some, OnOk, OnErr};
ghost use Rattle.std.specs.Option.{option_copied};
ghost use Rattle.gl_logic.specs.Named.{IsFree, names_of, object_named};

use super::ids::{NoMemory, TextId};
use super::name_index::NameIndex;
use super::tree::Tree;
use std::alloc::Global;
use std::marker::Model;

/// Objects in the order of their coming, each under a name of its own. A look-up takes constant time.
#[derive(Drop)]
pub(crate) struct NamedTrees {
    entries: Vec<NamedTree>,
    index: NameIndex,
}

#[derive(Drop)]
struct NamedTree {
    name: TextId,
    tree: Tree,
}

impl Model for NamedTrees {
    ghost use Rattle.std.specs.Prelude.{List, ℕ, map};
    ghost use Rattle.gl_logic.specs.Object.{Object};
    ghost use Rattle.gl_logic.specs.WorldSeen.{coded_named};
    ghost use Rattle.gl_logic.specs.Named.{IsIndex, names_of};

    ghost Value = { List (ℕ × Object) };

    ghost coded = { coded_named };

    ghost view = { λ n. map (λ e. (e.name.number, e.tree)) n.entries.items };

    ghost invariant = { λ n. IsIndex n.index (names_of (map (λ e. (e.name.number, e.tree)) n.entries.items)) };
}

impl NamedTrees {
    /// None.
    pub(crate) fn new(alloc: Global) -> NamedTrees
        ensures { result ≡ [] }
    {
        NamedTrees {
            entries: Vec::new(alloc),
            index: NameIndex::new(alloc),
        }
    }

    /// Puts an object last. It is lost where memory runs out.
    pub(crate) fn push(&mut self, name: TextId, tree: Tree) -> Result<(), NoMemory>
        requires { IsFree (names_of self.old) name.number }
        ensures ok { OnOk result (self.new ≡ self.old ++ (name.number, tree) ∷ []) }
        ensures err { OnErr result (self.new ≡ self.old) }
    {
        self.index.reserve(name)?;
        let place = self.entries.len() as u64;
        self.entries.push(NamedTree { name, tree })?;
        self.index.put(name, place);
        Ok(())
    }

    /// Takes the last object out.
    pub(crate) fn pop(&mut self)
        ensures { self.new ≡ take (length self.old - 1) self.old }
    {
        if let Some(last) = self.entries.pop() {
            self.index.clear(last.name, self.entries.len() as u64);
        }
    }

    /// Leaves so many, the first ones.
    pub(crate) fn cut(&mut self, len: u64)
        ensures { self.new ≡ take len self.old }
    {
        while len < self.len() {
            self.pop();
        }
    }

    /// How many objects there are.
    pub(crate) fn len(&self) -> u64
        ensures { result ≡ length self.now }
    {
        self.entries.len() as u64
    }

    /// The object at a place, from 0.
    pub(crate) fn at(&self, i: u64) -> &Tree
        requires { i < length self.now }
        ensures { slice_get (map (λ e. e.1) self.now) i ≡ Some result.now }
    {
        let entry = &self.entries[i as usize];
        &entry.tree
    }

    /// The object of a name.
    pub(crate) fn get(&self, name: TextId) -> Option<&Tree>
        ensures value { option_copied result ≡ object_named self.now name.number }
        ensures free { (result ≡ None) ↔ IsFree (names_of self.now) name.number }
    {
        match self.index.get(name) {
            Some(place) => Some(&self.entries[place as usize].tree),
            None => None,
        }
    }
}
